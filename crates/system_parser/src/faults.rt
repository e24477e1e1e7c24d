ghost use Rattle.std.specs.Prelude.{◌≡◌};
ghost use Rattle.system_text.specs.Faults.{misplaced};
ghost use Rattle.system_parser.specs.declared.faults.LineFault.TheVariants.{Memory, Refused};
ghost use Rattle.system_parser.specs.Tokens.{placed_of};
ghost use Rattle.system_parser.specs.Readings.{fault_of, IsInLine};

use crate::errors::{ParseError, ParseFault};
use crate::tokens::{Placed, Token};
use std::alloc::AllocError;

/// What is wrong with a line, and at which byte.
#[derive(Clone, Copy, Debug)]
pub struct Fault {
    pub number: u8,
    pub byte: u32,
}

/// Why a line was not read to its end.
#[derive(Debug, Drop)]
pub enum LineFault {
    Memory(AllocError),
    Refused(Fault),
}

impl Fault {
    /// The token can't stand where it is.
    pub fn misplaced(number: u8, t: &Placed<'_>) -> Fault
        ensures { fault_of result ≡ misplaced number (placed_of t.now) }
    {
        let number = match t.token {
            Token::NotText => 1,
            _ => number,
        };
        Fault {
            number,
            byte: t.first,
        }
    }
}

impl LineFault {
    /// The fault of a text in whose line this one is.
    pub fn in_line(self, line: u32) -> ParseFault
        ensures { IsInLine line self result }
    {
        match self {
            LineFault::Memory(error) => ParseFault::Memory(error),
            LineFault::Refused(fault) => ParseFault::Refused(ParseError {
                number: fault.number,
                line,
                byte: fault.byte,
            }),
        }
    }
}

impl From<AllocError> for LineFault {
    ghost from_gives = { λ e fault. fault ≡ Memory e };

    fn from(error: AllocError) -> LineFault {
        LineFault::Memory(error)
    }
}

impl From<Fault> for LineFault {
    ghost from_gives = { λ e fault. fault ≡ Refused e };

    fn from(fault: Fault) -> LineFault {
        LineFault::Refused(fault)
    }
}
