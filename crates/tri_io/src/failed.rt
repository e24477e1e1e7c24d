use thiserror::Error;

/// A read or a write failed. The end that failed has raised its count of faults.
#[derive(Clone, Copy, Debug, PartialEq, Eq, Error)]
#[error("a read or a write failed")]
pub struct Failed;
