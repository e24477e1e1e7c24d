ghost use Rattle.std.specs.Prelude.{◌≡◌, ◌≢◌, [], ◌∷◌, false, map, Contains, IfOk, IfSome, OnOk, OnErr, IsErrOf, string_bytes};
ghost use Rattle.tri_io.specs.Faults.{Rose};
ghost use Rattle.run_rules.specs.Programs.{IsExpected, IsNoCommand, IsReader};
ghost use Rattle.run_rules.specs.Runs.{Ends, Leaves};
ghost use Rattle.tri_alone.specs.Alone.{alone};
ghost use Rattle.solver_rules.specs.Solved.{IsAnswered, IsOfSystem, IsSolved};

use crate::ending::ending_of_cases;
use mono_words::VARS;
use report_text::Status;
use solver_inputs::{Asked, Ending, Silence, asked_of_words, written};
use std::alloc::{AllocError, Global};
use tri_io::{Sink, Source};

/// Reads a system from the source and writes the report of its answer to the sink; or makes one, of
/// which the source isn't read, and writes the summary of its answer.
pub fn run_alone<S: Source, K: Sink>(
    alloc: Global,
    words: &[String],
    source: &mut S,
    sink: &mut K,
) -> Status
    // What is written, and what is left of the input, where the ends tell it.
    ensures ends { Ends alone (map string_bytes words.now) (S.left source.old)
        (Rose (S.faults source.old) (S.faults source.new))
        (Rose (K.faults sink.old) (K.faults sink.new))
        (K.taken sink.old) (K.taken sink.new) result }
    ensures leaves { IfSome (S.left source.old) (λ bytes.
        Leaves alone (map string_bytes words.now) bytes (S.left source.new) result) }

    // The chains that are printed or counted are triangular sets. Their points are solutions of the
    // system that was read or made, and all of them where no branch passed a limit.
    ensures solved { IsOfSystem result → IsSolved false VARS (map string_bytes words.now)
        (S.left source.old) (K.taken sink.old) (K.taken sink.new) result }

    // Where the words are no command that reads a system, nothing is read.
    ensures usage { result ≡ Status.Usage → IsNoCommand alone (map string_bytes words.now) }
    ensures unread { (IsReader alone (map string_bytes words.now) → ⊥)
        → source.new ≡ source.old }
    ensures words { IsNoCommand alone (map string_bytes words.now)
        → Contains (Status.Usage ∷ Status.WriteFault ∷ Status.OutOfMemory ∷ []) result }

    // A fault is answered where its count rose, and each fault that was counted is.
    ensures read_fault { result ≡ Status.ReadFault
        → Rose (S.faults source.old) (S.faults source.new) }
    ensures write_fault { result ≡ Status.WriteFault
        → Rose (K.faults sink.old) (K.faults sink.new) }
    ensures read_answered { S.faults source.new ≢ S.faults source.old → result ≡ Status.ReadFault }
    ensures write_answered { K.faults sink.new ≢ K.faults sink.old → result ≡ Status.WriteFault }

    // Nothing is written after a failed read or without memory.
    ensures unwritten { result ≡ Status.ReadFault → sink.new ≡ sink.old }
    ensures silent { result ≡ Status.OutOfMemory → sink.new ≡ sink.old }
{
    match prepared(alloc, words, source) {
        Ok(ending) => written(sink, &ending),
        Err(Silence::ReadFault) => Status::ReadFault,
        Err(Silence::OutOfMemory) => Status::OutOfMemory,
    }
}

/// What is to be written, by the words and by what is read of the source, or made.
fn prepared<S: Source>(alloc: Global, words: &[String], source: &mut S) -> Result<Ending, Silence>
    ensures expected { IfOk result (λ e.
        IsExpected alone (map string_bytes words.now) (S.left source.old) e) }
    ensures answered { IfOk result (λ e. IsOfSystem e.status
        → IsAnswered false VARS (map string_bytes words.now) (S.left source.old) e) }
    ensures usage { IfOk result (λ e.
        e.status ≡ Status.Usage → IsNoCommand alone (map string_bytes words.now)) }
    ensures words { IfOk result (λ e.
        IsNoCommand alone (map string_bytes words.now) → e.status ≡ Status.Usage) }
    ensures unread { (IsReader alone (map string_bytes words.now) → ⊥)
        → source.new ≡ source.old }

    // What is left of the input, with any status that the text ends with, or that stands for none.
    ensures leaves { OnOk result ((status : Status) → IfSome (S.left source.old) (λ bytes.
        Leaves alone (map string_bytes words.now) bytes (S.left source.new) status)) }
    ensures leaves_fault { OnErr result ((status : Status)
        → Contains (Status.ReadFault ∷ Status.OutOfMemory ∷ []) status
        → IfSome (S.left source.old) (λ bytes.
        Leaves alone (map string_bytes words.now) bytes (S.left source.new) status)) }

    ensures command { IsErrOf result Silence.ReadFault
        → IsReader alone (map string_bytes words.now) }
    ensures fault { IsErrOf result Silence.ReadFault
        → Rose (S.faults source.old) (S.faults source.new) }
    ensures fault_answered { S.faults source.new ≢ S.faults source.old
        → IsErrOf result Silence.ReadFault }
{
    match asked_of_words(alloc, words, false, source) {
        Ok(Asked::Line(ending)) => Ok(ending),
        Ok(Asked::System(command, cases)) => match ending_of_cases(alloc, &command, &cases) {
            Ok(ending) => Ok(ending),
            Err(AllocError) => Err(Silence::OutOfMemory),
        },
        Err(silence) => Err(silence),
    }
}
