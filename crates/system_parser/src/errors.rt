ghost use Rattle.std.specs.Prelude.{◌≡◌};
ghost use Rattle.system_parser.specs.declared.errors.ParseFault.TheVariants.{Memory};

use std::alloc::AllocError;
use thiserror::Error;

/// The first place at which a text is no system, and why.
#[derive(Clone, Copy, Debug, PartialEq, Eq, Error)]
#[error("refusal {number} at line {line}, byte {byte}")]
pub struct ParseError {
    /// What is wrong there: one of the refusals 1 to 12.
    pub number: u8,
    /// The line, counted from 1; lines that are skipped count.
    pub line: u32,
    /// The place in the line, counted from 1; one past its last byte where something is missing.
    pub byte: u32,
}

/// Why a text was not read to its end.
#[derive(Debug, Drop, Error)]
pub enum ParseFault {
    /// There was no memory for what the text says.
    #[error("out of memory")]
    Memory(AllocError),

    /// The text is no system.
    #[error("{0}")]
    Refused(ParseError),
}

impl From<AllocError> for ParseFault {
    ghost from_gives = { λ e fault. fault ≡ Memory e };

    fn from(error: AllocError) -> ParseFault {
        ParseFault::Memory(error)
    }
}
