use crate::path::Path;
use crate::splitter::Splitter;
use std::marker::{Brand, Model};

/// A task with its place in the tree.
#[derive(Drop)]
pub struct Offer<X: Splitter> {
    pub path: Path,
    /// How many steps may still be made along the branch.
    pub steps: u32,
    pub task: X::Task,
}

impl<X: Splitter> Model for Offer<X> {
    ghost use Rattle.split_paths.specs.Places.{Place};

    ghost Value = { Place X.Task };

    ghost view = { λ offer. record { path = offer.path; steps = offer.steps; task = offer.task } };
}

/// A name for the events and the offers of one tree.
///
/// It stands in the type of what threads share, so that a rule over it can say which tree is meant.
pub trait Named<T, L> {
    ghost use Rattle.std.specs.Prelude.{List};
    ghost use Rattle.split_paths.specs.declared.event.Event.{Event};
    ghost use Rattle.split_paths.specs.Places.{Place};

    ghost events: { List (Event L) };

    ghost offers: { List (Place T) };
}

impl<T, L> Named<T, L> for Brand {
    ghost use Rattle.std.specs.Prelude.{[]};

    ghost events = { [] };

    ghost offers = { [] };
}
