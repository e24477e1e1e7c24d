ghost use Rattle.std.specs.Prelude.{◌≡◌, ◌≤◌, ◌<◌, ◌-◌, ◌/◌, [], ◌∷◌, IfOk};
ghost use Rattle.generators.specs.Turns.{AreLawful};

use super::Lines;
use crate::{End, PoolSize, pool_run};
use generators::{Generator, Turn};
use split_paths::{Event, Offer, Outcome, Path, Splitter, Step, Tasks};
use std::alloc::{AllocError, Global};
use std::fmt::Write;
use std::sync::{Arc, Wait};
use std::test::Fail;
use std::thread::Threads;

/// A number gives way to its half, its third and what is left, less one. One number doesn't fit.
#[derive(Drop)]
struct Shares {
    wide: u32,
}

/// The children of a number.
fn shares_of(alloc: Global, task: u32) -> Result<Tasks<u32>, AllocError>
    requires { 1 < task }
    ensures { IfOk result (λ tasks.
        tasks ≡ (task / 2) ∷ (task / 3) ∷ (task - task / 2 - task / 3 - 1) ∷ []) }
{
    let mut tasks = Tasks::new(alloc);
    tasks.push(task / 2)?;
    tasks.push(task / 3)?;
    tasks.push(task - task / 2 - task / 3 - 1)?;
    Ok(tasks)
}

impl Splitter for Shares {
    type Task = u32;

    type Leaf = u32;

    ghost use Rattle.work_pool.specs.Samples.{shares, shares_are_lawful};

    ghost step = { λ splitter task. shares splitter.wide task };

    ghost lawful_task = { λ splitter task. Unit {0} };

    ghost lawful_leaf = { λ splitter leaf. Unit {0} };

    ghost keeps_lawful = { λ splitter task lawful. shares_are_lawful splitter.wide task };

    fn expand(&self, alloc: Global, task: u32) -> Result<Step<u32, u32>, AllocError> {
        if task == self.wide {
            return Ok(Step::TooWide);
        }
        match task {
            0 => Ok(Step::Gone),
            1 => Ok(Step::Emit(task)),
            _ => Ok(Step::Kids(shares_of(alloc, task)?)),
        }
    }
}

/// The answer of a walk on one thread, a line each, and the path at which it stops.
fn walked(alloc: Global, splitter: &Shares, task: u32) -> Result<String, AllocError> {
    let path = Path::root(alloc);
    let mut generator = Generator::of(
        alloc,
        Offer {
            path,
            steps: 100,
            task,
        },
    )?;
    let mut text = String::new(alloc);
    loop {
        let event = match generator.turn(splitter) {
            Ok(Turn::Quiet) => continue,
            Ok(Turn::Event(event)) => event,
            Ok(Turn::Done) => return Ok(text),
            Err(_) => return Err(AllocError),
        };
        match event {
            Event::Split { .. } => {}
            Event::Leaf { path, outcome } => {
                let name = path.text()?;
                match outcome {
                    Outcome::Gone => {}
                    Outcome::Chain(leaf) => text.push_str(&format!(in alloc; "{name} {leaf}\n")?)?,
                    Outcome::Steps | Outcome::TooWide => {
                        text.push_str(&format!(in alloc; "stop {name}\n")?)?;
                        return Ok(text);
                    }
                }
            }
        }
    }
}

/// The answer of a pool, written in the same way.
fn pooled<R: Threads + Wait + Copy + Send + Sync + 'static>(
    rt: R,
    alloc: Global,
    wide: u32,
    task: u32,
    size: PoolSize,
) -> Result<String, AllocError>
    requires workers { (1 ≤ size.workers) × (size.workers ≤ 16) }
    requires room { (1 ≤ size.room) × (size.room ≤ 65536) }
{
    let Ok(splitter) = Arc::new(alloc, Shares { wide }) else {
        return Err(AllocError);
    };
    let mut lines = Lines {
        text: String::new(alloc),
        left: 1_000_000,
    };
    match pool_run(rt, alloc, splitter, task, size, 100, &mut lines) {
        Ok(End::Finished) => Ok(lines.text),
        Ok(End::Stopped(path, _)) => {
            let mut text = lines.text;
            text.push_str(&format!(in alloc; "stop {}\n", path.text()?)?)?;
            Ok(text)
        }
        Err(_) => Err(AllocError),
    }
}

#[test]
fn trees_give_what_a_walk_on_one_thread_gives(rt: HostRuntime) -> Result<(), Fail> {
    for task in [0u32, 1, 2, 9, 40, 200] {
        for wide in [1_000u32, 7, 3] {
            let alone = walked(rt.alloc(), &Shares { wide }, task)?;
            for workers in [1u32, 2, 3, 7, 16] {
                let size = PoolSize { workers, room: 3 };
                let text = pooled(rt, rt.alloc(), wide, task, size)?;
                assert_eq!(rt; text.as_str(), alone.as_str());
            }
        }
    }
    Ok(())
}
