ghost use Rattle.std.specs.Prelude.{◌≤◌};

use crate::check::{Check, Differs};
use crate::tree::{Shares, Tree};
use crate::walk::walked;
use std::alloc::{AllocError, Global};
use std::sync::{Arc, Wait};
use std::thread::Threads;
use work_pool::{PoolError, PoolSize, pool_run};

/// What all runs came to.
#[derive(Clone, Copy, Debug)]
pub(crate) struct Tally {
    pub(crate) trees: u64,
    pub(crate) events: u64,
    pub(crate) pairs: u64,
    pub(crate) stopped: u64,
    pub(crate) runs: u64,
    pub(crate) differ: u64,
}

impl Tally {
    fn new() -> Tally {
        Tally {
            trees: 0,
            events: 0,
            pairs: 0,
            stopped: 0,
            runs: 0,
            differ: 0,
        }
    }

    fn add_tree(&mut self, check: &Check) {
        self.trees = self.trees.saturating_add(1);
        self.events = self.events.saturating_add(check.answer.events);
        self.pairs = self.pairs.saturating_add(check.answer.pairs.len() as u64);
        if check.answer.stop.is_some() {
            self.stopped = self.stopped.saturating_add(1);
        }
    }

    fn add_run(&mut self, agrees: bool) {
        self.runs = self.runs.saturating_add(1);
        if !agrees {
            self.differ = self.differ.saturating_add(1);
        }
    }
}

/// Whether so many workers hand out what a walk on one thread does.
fn agrees<R: Threads + Wait + Copy + Send + Sync + 'static>(
    rt: R,
    alloc: Global,
    tree: Tree,
    workers: u32,
    check: &mut Check,
) -> Result<bool, AllocError>
    requires workers { (1 ≤ workers) × (workers ≤ 16) }
    requires room { (1 ≤ tree.room) × (tree.room ≤ 65536) }
{
    let Ok(splitter) = Arc::new(alloc, Shares { wide: tree.wide }) else {
        return Err(AllocError);
    };
    check.taken = 0;
    let size = PoolSize {
        workers,
        room: tree.room,
    };
    match pool_run(rt, alloc, splitter, tree.task, size, tree.steps, check) {
        Ok(end) => Ok(check.is_whole(&end)),
        Err(PoolError::Each(Differs)) => Ok(false),
        Err(PoolError::Memory) => Err(AllocError),
    }
}

/// Walks one tree with each number of workers.
fn run_tree<R: Threads + Wait + Copy + Send + Sync + 'static>(
    rt: R,
    alloc: Global,
    tree: Tree,
    tally: &mut Tally,
) -> Result<(), AllocError>
    requires { (1 ≤ tree.room) × (tree.room ≤ 65536) }
{
    let answer = walked(alloc, tree)?;
    let mut check = Check { answer, taken: 0 };
    tally.add_tree(&check);
    for workers in [1u32, 2, 3, 7, 16] {
        tally.add_run(agrees(rt, alloc, tree, workers, &mut check)?);
    }
    Ok(())
}

/// Walks so many trees, of which the first is that of the greatest number.
pub(crate) fn tally_of<R: Threads + Wait + Copy + Send + Sync + 'static>(
    rt: R,
    alloc: Global,
    most: u32,
    trees: u32,
) -> Result<Tally, AllocError> {
    let mut tally = Tally::new();
    for number in 0..trees {
        run_tree(rt, alloc, Tree::numbered(number, most), &mut tally)?;
    }
    Ok(tally)
}
