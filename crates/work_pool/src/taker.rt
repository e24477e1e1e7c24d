use split_paths::{Path, Why};

/// What takes the leaves of an answer, one after the other.
pub trait Taker<L> {
    type Fault;

    ghost use Rattle.std.specs.Prelude.{ℕ, List, OnOk, IfErr};

    ghost takes: { Self → List ℕ → L → Self → Type 0 };

    ghost fails: { Self → List ℕ → L → Self.Fault → Self → Type 0 };

    ghost may: { Self → L → Type 0 };

    fn take(&mut self, path: Path, leaf: L) -> Result<(), Self::Fault>
        requires { may self.old leaf }
        ensures took { OnOk result (takes self.old path leaf self.new) }
        ensures failed { IfErr result (λ fault. fails self.old path leaf fault self.new) }
        ensures keeps { OnOk result ((other : L) → may self.old other → may self.new other) };
}

/// How many workers there are, and how many events may wait between them.
#[derive(Clone, Copy, Debug)]
pub struct PoolSize {
    pub workers: u32,
    pub room: u32,
}

/// How an answer ends.
#[derive(Debug, Drop)]
pub enum End {
    /// All of the tree was walked.
    Finished,
    /// The leaf at this path stopped it.
    Stopped(Path, Why),
}

/// Why an answer wasn't handed out to its end.
#[derive(Debug, Drop)]
pub enum PoolError<E> {
    /// There was no memory.
    Memory,
    /// The taker answered this fault.
    Each(E),
}
