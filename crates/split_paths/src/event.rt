use crate::path::Path;

/// What stops a branch before its end.
#[derive(Clone, Copy, Debug, PartialEq, Eq)]
pub enum Why {
    /// No step is left.
    Steps,
    /// A named product doesn't fit.
    Size,
}

/// How a branch ends.
#[derive(Clone, Debug, Drop, PartialEq, Eq)]
pub enum Outcome<L> {
    /// Nothing is left of the task.
    Gone,
    /// The task is solved by this leaf.
    Chain(L),
    /// No step was left for the task.
    Steps,
    /// A product within the step didn't fit.
    TooWide,
}

/// What is met at a path of the tree.
#[derive(Clone, Debug, Drop, PartialEq, Eq)]
pub enum Event<L> {
    /// A task gave way to two or more children.
    Split { path: Path, kids: u32 },
    /// A branch ended.
    Leaf { path: Path, outcome: Outcome<L> },
}
