ghost use Rattle.std.specs.Prelude.{◌≡◌, ◌≤◌, length, IfOk, OnOk, Ok};
ghost use Rattle.polynomials.specs.Polynomials.{ArePolynomials};
ghost use Rattle.system_text.specs.Lines.{first_not_text, is_skipped, read_content, read_line, read_polynomial, read_text, text_ends, TextSystem};
ghost use Rattle.system_text.specs.Systems.{IsSystemText};
ghost use Rattle.system_text.specs.Laws.{IsSystem};
ghost use Rattle.system_parser.specs.Readings.{Gives, Reads};
ghost use Rattle.system_parser.specs.Systems.{text_system_of, progress_of, IsProgress, IsOverVariables};

use crate::characters::{is_character, leading_spaces, without_first};
use crate::errors::{ParseError, ParseFault};
use crate::faults::{Fault, LineFault};
use crate::heads::{read_order, read_prime};
use crate::lines::Lines;
use crate::sums::{is_nonzero_line, read_nonzero, read_sum};
use field_table::Field;
use mono_words::VARS;
use sparse_poly::{Polys, System};
use std::alloc::Global;

/// What was read of a text.
#[derive(Debug, Drop)]
enum Progress {
    AtPrime,
    AtOrder(Field),
    AtSums(System),
}

/// Reads a text as a system, or meets the first place at which it is none.
pub fn parse(alloc: Global, bytes: &[u8]) -> Result<System, ParseFault>
    requires { length bytes.now ≤ 1_048_576 }
    ensures exact { Reads text_system_of result (read_text VARS bytes.now) }

    // What is accepted is a system's text, and each text of a system is accepted as that system.
    ensures accepted { IfOk result (λ s. IsSystemText VARS bytes.now (text_system_of s)) }
    ensures complete { (t : TextSystem) → IsSystemText VARS bytes.now t →
        Reads text_system_of result (Ok t) }

    // What is accepted is a system.
    ensures lawful { IfOk result (λ s. IsSystem VARS (text_system_of s)) }
    ensures over { IfOk result (λ s. ArePolynomials s.field VARS s.inputs) }
    ensures nonzero_over { IfOk result (λ s. ArePolynomials s.field VARS s.nonzero) }
{
    read_lines(alloc, bytes)
}

/// Reads a text line by line.
fn read_lines(alloc: Global, bytes: &[u8]) -> Result<System, ParseFault>
    requires { length bytes.now ≤ 1_048_576 }
    ensures exact { Reads text_system_of result (read_text VARS bytes.now) }
    ensures over { IfOk result IsOverVariables }
{
    let mut lines = Lines::new(bytes);
    let mut progress = Progress::AtPrime;
    let mut number = 0;
    let mut end = 1;
    while let Some(line) = lines.next() {
        number += 1;
        end = line.len() as u32 + 1;
        match progress.read_line(alloc, line) {
            Ok(next) => progress = next,
            Err(fault) => return Err(fault.in_line(number)),
        }
    }
    progress.ended(number, end)
}

impl Progress {
    fn read_line(self, alloc: Global, line: &[u8]) -> Result<Progress, LineFault>
        requires short { length line.now ≤ 1_048_576 }
        requires over { IsProgress self }
        ensures state { Gives progress_of result (read_line VARS (progress_of self) line.now) }
        ensures over { IfOk result IsProgress }
    {
        if !is_skipped(line) {
            return self.read_content(alloc, line);
        }
        match first_not_text(line) {
            None => Ok(self),
            Some(byte) => Err(LineFault::Refused(Fault { number: 1, byte })),
        }
    }

    fn read_content(self, alloc: Global, line: &[u8]) -> Result<Progress, LineFault>
        requires short { length line.now ≤ 1_048_576 }
        requires over { IsProgress self }
        ensures state { Gives progress_of result (read_content VARS (progress_of self) line.now) }
        ensures over { IfOk result IsProgress }
    {
        match self {
            Progress::AtPrime => Ok(Progress::AtOrder(read_prime(line)?)),
            Progress::AtOrder(field) => {
                let names = read_order(alloc, line)?;
                Ok(Progress::AtSums(System {
                    field,
                    names,
                    inputs: Polys::new(alloc),
                    nonzero: Polys::new(alloc),
                }))
            }
            Progress::AtSums(mut system) => {
                add_polynomial(alloc, &mut system, line)?;
                Ok(Progress::AtSums(system))
            }
        }
    }

    /// The text ends at this place.
    fn ended(self, line: u32, byte: u32) -> Result<System, ParseFault>
        requires { IsProgress self }
        ensures value { Reads text_system_of result (text_ends line byte (progress_of self)) }
        ensures over { IfOk result IsOverVariables }
    {
        match self {
            Progress::AtPrime => Err(ParseFault::Refused(ParseError {
                number: 2,
                line,
                byte,
            })),
            Progress::AtOrder(_) => Err(ParseFault::Refused(ParseError {
                number: 4,
                line,
                byte,
            })),
            Progress::AtSums(system) => Ok(system),
        }
    }
}

/// Adds the polynomial of a line after the order line.
fn add_polynomial(alloc: Global, system: &mut System, line: &[u8]) -> Result<(), LineFault>
    requires short { length line.now ≤ 1_048_576 }
    requires over { IsOverVariables system.old }
    ensures value { Gives (λ _. text_system_of system.new) result
        (read_polynomial VARS (text_system_of system.old) line.now) }
    ensures over { OnOk result (IsOverVariables system.new) }
{
    if is_nonzero_line(line) {
        let nonzero = read_nonzero(alloc, system, line)?;
        system.nonzero.push(nonzero)?;
    } else {
        let input = read_sum(alloc, system, line)?;
        system.inputs.push(input)?;
    }
    Ok(())
}

/// Whether the line holds spaces alone or is a comment.
fn is_skipped(line: &[u8]) -> bool
    ensures { result ≡ is_skipped line.now }
{
    match without_first(line, leading_spaces(line)).first() {
        None => true,
        Some(b) => *b == b'#',
    }
}

/// The place of the first byte that is no character, counted from 1.
fn first_not_text(line: &[u8]) -> Option<u32>
    requires { length line.now ≤ 1_048_576 }
    ensures { result ≡ first_not_text 1 line.now }
{
    for i in 0..line.len() {
        if !is_character(line[i]) {
            return Some(i as u32 + 1);
        }
    }
    None
}
