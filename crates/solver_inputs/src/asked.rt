ghost use Rattle.std.specs.Prelude.{◌≡◌, ◌≢◌, ℕ, List, [], ◌∷◌, Bool, map, Option, Some, None, Contains, IfOk, IfSome, OnOk, OnErr, IsErrOf, string_bytes};
ghost use Rattle.report_text.specs.declared.status.Status.{Status};
ghost use Rattle.tri_io.specs.Commands.{IsCommand};
ghost use Rattle.tri_io.specs.Faults.{Rose};
ghost use Rattle.run_rules.specs.Programs.{IsReader};
ghost use Rattle.run_rules.specs.Runs.{Leaves};
ghost use Rattle.solver_rules.specs.Solver.{solver};
ghost use Rattle.solver_inputs.specs.Asks.{IsAsked};

use crate::ending::Ending;
use crate::input::{MOST_BYTES, Reading, reading_of};
use case_tree::Cases;
use mono_words::VARS;
use report_text::{Status, print_usage};
use std::alloc::{AllocError, Global};
use system_parser::made;
use tri_io::{Command, ReadFail, Source, WordsFault, command_of, read_all};

/// What is asked of the solver.
#[derive(Drop)]
pub enum Asked {
    /// A line alone: the words are no command, or the input is no system.
    Line(Ending),

    /// The cases of a system, with the options of its command.
    System(Command, Cases),
}

/// Why it isn't known what is asked.
#[derive(Clone, Copy, Debug)]
pub enum Silence {
    ReadFault,
    OutOfMemory,
}

/// What is asked by the words and by what is read of the source. Where a system is made, or the words
/// are no command, the source isn't read.
pub fn asked_of_words<S: Source>(
    alloc: Global,
    words: &[String],
    with_workers: bool,
    source: &mut S,
) -> Result<Asked, Silence>
    ensures asked { IfOk result
        (IsAsked with_workers (map string_bytes words.now) (S.left source.old)) }
    ensures unread { (IsReader (solver with_workers VARS) (map string_bytes words.now) → ⊥)
        → source.new ≡ source.old }

    // What is left of the input, with any status that the text ends with, or that stands for none.
    ensures leaves { OnOk result ((status : Status) → IfSome (S.left source.old) (λ bytes.
        Leaves (solver with_workers VARS) (map string_bytes words.now) bytes (S.left source.new)
        status)) }
    ensures leaves_fault { OnErr result ((status : Status)
        → Contains (Status.ReadFault ∷ Status.OutOfMemory ∷ []) status
        → IfSome (S.left source.old) (λ bytes.
        Leaves (solver with_workers VARS) (map string_bytes words.now) bytes (S.left source.new)
        status)) }

    ensures command { IsErrOf result Silence.ReadFault
        → IsReader (solver with_workers VARS) (map string_bytes words.now) }
    ensures fault { IsErrOf result Silence.ReadFault
        → Rose (S.faults source.old) (S.faults source.new) }
    ensures fault_answered { S.faults source.new ≢ S.faults source.old
        → IsErrOf result Silence.ReadFault }
{
    match command_of(alloc, words, with_workers) {
        Ok(command) => match command.made {
            None => asked_of_input(alloc, words, with_workers, command, source),
            Some(k) => asked_of_number(alloc, words, with_workers, command, k),
        },
        Err(WordsFault::NotACommand) => usage(alloc, with_workers),
        Err(WordsFault::Memory(_)) => Err(Silence::OutOfMemory),
    }
}

/// The line that says how the program is called.
fn usage(alloc: Global, with_workers: bool) -> Result<Asked, Silence>
    ensures usage { IfOk result (λ asked.
        asked ≡ Asked.Line (solver with_workers VARS).usage) }
    ensures quiet { OnErr result (IsErrOf result Silence.OutOfMemory) }
{
    match print_usage(alloc, with_workers) {
        Ok(text) => Ok(Asked::Line(Ending {
            status: Status::Usage,
            text,
        })),
        Err(AllocError) => Err(Silence::OutOfMemory),
    }
}

/// What is asked by what is read of the source, where the words are this command.
fn asked_of_input<S: Source>(
    alloc: Global,
    words: &[String],
    with_workers: bool,
    command: Command,
    source: &mut S,
) -> Result<Asked, Silence>
    requires command { IsCommand with_workers (map string_bytes words.now) command }
    requires reads { command.made ≡ None }
    ensures asked { IfOk result
        (IsAsked with_workers (map string_bytes words.now) (S.left source.old)) }
    ensures leaves { OnOk result ((status : Status) → IfSome (S.left source.old) (λ bytes.
        Leaves (solver with_workers VARS) (map string_bytes words.now) bytes (S.left source.new)
        status)) }
    ensures leaves_fault { OnErr result ((status : Status)
        → Contains (Status.ReadFault ∷ Status.OutOfMemory ∷ []) status
        → IfSome (S.left source.old) (λ bytes.
        Leaves (solver with_workers VARS) (map string_bytes words.now) bytes (S.left source.new)
        status)) }
    ensures fault { IsErrOf result Silence.ReadFault
        → Rose (S.faults source.old) (S.faults source.new) }
    ensures fault_answered { S.faults source.new ≢ S.faults source.old
        → IsErrOf result Silence.ReadFault }
{
    let input = match read_all(alloc, source, MOST_BYTES) {
        Ok(input) => input,
        Err(ReadFail::Fault) => return Err(Silence::ReadFault),
        Err(ReadFail::Memory(_)) => return Err(Silence::OutOfMemory),
    };
    match reading_of(alloc, command.width, &input) {
        Ok(Reading::System(cases)) => Ok(Asked::System(command, cases)),
        Ok(Reading::Refused(ending)) => Ok(Asked::Line(ending)),
        Err(AllocError) => Err(Silence::OutOfMemory),
    }
}

/// What is asked of the system that is made from this number, where the words are this command.
fn asked_of_number(
    alloc: Global,
    words: &[String],
    with_workers: bool,
    command: Command,
    k: u32,
) -> Result<Asked, Silence>
    requires command { IsCommand with_workers (map string_bytes words.now) command }
    requires made { command.made ≡ Some k }
    ensures asked { IfOk result (λ asked. (told : Option (List ℕ))
        → IsAsked with_workers (map string_bytes words.now) told asked) }
    ensures unread { IsReader (solver with_workers VARS) (map string_bytes words.now) → ⊥ }
    ensures quiet { OnErr result (IsErrOf result Silence.OutOfMemory) }
{
    match made(alloc, k) {
        Ok(system) => {
            let cases = Cases::new(system, command.width);
            Ok(Asked::System(command, cases))
        }
        Err(AllocError) => Err(Silence::OutOfMemory),
    }
}
