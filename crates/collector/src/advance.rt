use split_paths::{Path, Why};

/// How the walk goes on.
#[derive(Debug, Drop)]
pub enum Advance<L> {
    /// The next leaf of the answer, with its path.
    Item(Path, L),
    /// The event at the cursor is missing.
    Waiting,
    /// The answer has ended.
    Finished,
    /// The leaf at the cursor stops the answer.
    Stopped(Why),
}
