use split_paths::{Event, Path};
use thiserror::Error;

/// What one turn gave.
#[derive(Debug, Drop)]
pub enum Turn<L> {
    /// The step gave one child, which waits in its parent's place.
    Quiet,
    /// This event of the tree was met.
    Event(Event<L>),
    /// Nothing waits.
    Done,
}

/// There was no memory for the step at this path, and nothing waits any more.
#[derive(Debug, Drop, Error)]
#[error("out of memory within a step")]
pub struct Starved {
    pub path: Path,
}
