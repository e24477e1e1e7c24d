ghost use Rattle.std.specs.Prelude.{◌≡◌, ◌≤◌, ◌<◌, ◌-◌, ◌/◌, [], ◌∷◌, IfOk};

use split_paths::{Splitter, Step, Tasks};
use std::alloc::{AllocError, Global};

/// A number gives way to its half, its third and what is left, less one. One number doesn't fit.
#[derive(Drop)]
pub(crate) struct Shares {
    pub(crate) wide: u32,
}

/// The children of a number.
fn shares_of(alloc: Global, task: u32) -> Result<Tasks<u32>, AllocError>
    requires { 1 < task }
    ensures { IfOk result (λ tasks.
        tasks ≡ (task / 2) ∷ (task / 3) ∷ (task - task / 2 - task / 3 - 1) ∷ []) }
{
    let mut tasks = Tasks::new(alloc);
    tasks.push(task / 2)?;
    tasks.push(task / 3)?;
    tasks.push(task - task / 2 - task / 3 - 1)?;
    Ok(tasks)
}

impl Splitter for Shares {
    type Task = u32;

    type Leaf = u32;

    ghost use Rattle.work_pool.specs.Samples.{shares, shares_are_lawful};

    ghost step = { λ splitter task. shares splitter.wide task };

    ghost lawful_task = { λ splitter task. Unit {0} };

    ghost lawful_leaf = { λ splitter leaf. Unit {0} };

    ghost keeps_lawful = { λ splitter task lawful. shares_are_lawful splitter.wide task };

    fn expand(&self, alloc: Global, task: u32) -> Result<Step<u32, u32>, AllocError> {
        if task == self.wide {
            return Ok(Step::TooWide);
        }
        match task {
            0 => Ok(Step::Gone),
            1 => Ok(Step::Emit(task)),
            _ => Ok(Step::Kids(shares_of(alloc, task)?)),
        }
    }
}

/// What is walked, and how. The tree of a number has about one and a half times as many tasks.
#[derive(Clone, Copy, Debug)]
pub(crate) struct Tree {
    pub(crate) task: u32,
    pub(crate) steps: u32,
    /// The number that doesn't fit.
    pub(crate) wide: u32,
    /// How many events may wait.
    pub(crate) room: u32,
}

impl Tree {
    /// The tree that is walked in this turn, of which the first is the greatest.
    ///
    /// One in four has a number that doesn't fit, and one in five so few steps that they run out.
    pub(crate) fn numbered(number: u32, most: u32) -> Tree
        ensures { (1 ≤ result.room) × (result.room ≤ 65536) }
    {
        let less = number.wrapping_mul(7_919) % most.max(1);
        Tree {
            task: most - less.min(most),
            steps: if number % 5 == 4 { 4 } else { 100 },
            wide: if number % 4 == 3 {
                2 + number % 61
            } else {
                u32::MAX
            },
            room: 1 + number % 3 * 37,
        }
    }
}
