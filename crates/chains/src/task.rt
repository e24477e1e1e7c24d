ghost use Rattle.std.specs.Prelude.{◌≡◌, IfOk};

use crate::chain::Chain;
use crate::nonzero::NonZero;
use sparse_poly::{Polys, copied};
use std::alloc::{AllocError, Global};
use std::marker::Model;

/// The points of a triangular set off the zeros of its initials that make the queue zero, and none of
/// the polynomials that don't vanish.
#[derive(Debug, Drop)]
pub struct Task {
    pub chain: Chain,
    /// The polynomials still to be imposed, the next one first.
    pub queue: Polys,
    pub nonzero: NonZero,
}

impl Model for Task {
    ghost use Rattle.zero_sets.specs.Tasks.{Task};

    ghost Value = { Task };

    ghost view = { λ t. record { chain = t.chain; queue = t.queue; nonzero = t.nonzero } };
}

impl Task {
    /// An equal task.
    pub fn copy(&self, alloc: Global) -> Result<Task, AllocError>
        ensures { IfOk result (λ r. r ≡ self.now) }
    {
        Ok(Task {
            chain: self.chain.copy(alloc)?,
            queue: copied(alloc, &self.queue)?,
            nonzero: self.nonzero.copy(alloc)?,
        })
    }
}
