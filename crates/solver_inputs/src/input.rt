ghost use Rattle.std.specs.Prelude.{◌≤◌, length, IfOk};
ghost use Rattle.system_text.specs.Lines.{read_text};
ghost use Rattle.solver_rules.specs.Ranges.{FitsText};
ghost use Rattle.solver_inputs.specs.Readings.{IsReadOf, IsReadingOf};

use crate::ending::Ending;
use case_tree::Cases;
use mono_words::VARS;
use report_text::{Status, print_refused, print_too_long};
use std::alloc::{AllocError, Global};
use system_parser::{ParseFault, parse};
use tri_io::Input;

/// The greatest number of bytes that a system may have.
pub const MOST_BYTES: usize = 1_048_576;

/// What an input is: the cases of a system, or the line that refuses it.
#[derive(Drop)]
pub enum Reading {
    System(Cases),
    Refused(Ending),
}

/// What this input is. The width is that of the cases.
pub fn reading_of(alloc: Global, width: u32, input: &Input) -> Result<Reading, AllocError>
    requires some { 1 ≤ width }
    requires most { width ≤ 1_000_000 }
    requires fits { FitsText input.now }
    ensures { IfOk result (IsReadOf width input.now) }
{
    match input {
        Input::Whole(bytes) => reading_of_text(alloc, width, bytes),
        Input::TooLong => Ok(Reading::Refused(Ending {
            status: Status::Refused,
            text: print_too_long(alloc)?,
        })),
    }
}

/// What these bytes are.
fn reading_of_text(alloc: Global, width: u32, bytes: &[u8]) -> Result<Reading, AllocError>
    requires some { 1 ≤ width }
    requires most { width ≤ 1_000_000 }
    requires length { length bytes.now ≤ 1_048_576 }
    ensures { IfOk result (IsReadingOf width (read_text VARS bytes.now)) }
{
    match parse(alloc, bytes) {
        Ok(system) => Ok(Reading::System(Cases::new(system, width))),
        Err(ParseFault::Refused(refusal)) => Ok(Reading::Refused(Ending {
            status: Status::Refused,
            text: print_refused(alloc, &refusal)?,
        })),
        Err(ParseFault::Memory(error)) => Err(error),
    }
}
