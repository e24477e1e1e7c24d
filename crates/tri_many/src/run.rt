ghost use Rattle.std.specs.Prelude.{◌≡◌, ◌≢◌, [], ◌∷◌, true, map, Contains, IfSome, string_bytes};
ghost use Rattle.mono_words.specs.declared.mono.TheConstants.{VARS};
ghost use Rattle.tri_io.specs.Faults.{Rose};
ghost use Rattle.run_rules.specs.Programs.{IsNoCommand, IsReader};
ghost use Rattle.run_rules.specs.Runs.{Ends, Leaves};
ghost use Rattle.solver_rules.specs.Solved.{IsOfSystem, IsSolved};
ghost use Rattle.tri_many.specs.Many.{many};

use crate::answer::write_answer;
use crate::watch::{Unwatched, Watch};
use report_text::Status;
use solver_inputs::{Asked, Silence, asked_of_words, written};
use std::alloc::Global;
use std::sync::{Arc, Wait};
use std::thread::Threads;
use tri_io::{Sink, Source};

/// Reads a system from the source and writes the report of its answer to the sink, each chain as soon
/// as it is known that it is the next; or makes one, of which the source isn't read, and writes the
/// summary of its answer. The tree of cases is walked by as many workers as the words say, of which
/// the caller is one, and the call may wait for the others.
pub fn run_many<R: Threads + Wait + Copy + Send + Sync + 'static, S: Source, K: Sink>(
    rt: R,
    alloc: Global,
    words: &[String],
    source: &mut S,
    sink: &mut K,
) -> Status
    // What is written, and what is left of the input, where the ends tell it.
    ensures ends { Ends many (map string_bytes words.now) (S.left source.old)
        (Rose (S.faults source.old) (S.faults source.new))
        (Rose (K.faults sink.old) (K.faults sink.new))
        (K.taken sink.old) (K.taken sink.new) result }
    ensures leaves { IfSome (S.left source.old) (λ bytes.
        Leaves many (map string_bytes words.now) bytes (S.left source.new) result) }

    // The chains that are printed or counted are triangular sets. Their points are solutions of the
    // system that was read or made, and all of them where no branch passed a limit.
    ensures solved { IsOfSystem result → IsSolved true VARS (map string_bytes words.now)
        (S.left source.old) (K.taken sink.old) (K.taken sink.new) result }

    // Where the words are no command that reads a system, nothing is read.
    ensures usage { result ≡ Status.Usage → IsNoCommand many (map string_bytes words.now) }
    ensures unread { (IsReader many (map string_bytes words.now) → ⊥)
        → source.new ≡ source.old }
    ensures words { IsNoCommand many (map string_bytes words.now)
        → Contains (Status.Usage ∷ Status.WriteFault ∷ Status.OutOfMemory ∷ []) result }

    // A fault is answered where its count rose, and each fault that was counted is.
    ensures read_fault { result ≡ Status.ReadFault
        → Rose (S.faults source.old) (S.faults source.new) }
    ensures write_fault { result ≡ Status.WriteFault
        → Rose (K.faults sink.old) (K.faults sink.new) }
    ensures read_answered { S.faults source.new ≢ S.faults source.old → result ≡ Status.ReadFault }
    ensures write_answered { K.faults sink.new ≢ K.faults sink.old → result ≡ Status.WriteFault }

    // Nothing is written after a failed read.
    ensures unwritten { result ≡ Status.ReadFault → sink.new ≡ sink.old }
{
    match Arc::new(alloc, Unwatched) {
        Ok(watch) => run_watched(rt, alloc, words, source, sink, watch),
        Err(_) => Status::OutOfMemory,
    }
}

/// As `run_many`, with a watch that is told of each task by the worker that makes a step of it.
pub fn run_watched<
    R: Threads + Wait + Copy + Send + Sync + 'static,
    S: Source,
    K: Sink,
    G: Watch + Send + Sync + 'static,
>(
    rt: R,
    alloc: Global,
    words: &[String],
    source: &mut S,
    sink: &mut K,
    watch: Arc<G, Global>,
) -> Status
    // What is written, and what is left of the input, where the ends tell it.
    ensures ends { Ends many (map string_bytes words.now) (S.left source.old)
        (Rose (S.faults source.old) (S.faults source.new))
        (Rose (K.faults sink.old) (K.faults sink.new))
        (K.taken sink.old) (K.taken sink.new) result }
    ensures leaves { IfSome (S.left source.old) (λ bytes.
        Leaves many (map string_bytes words.now) bytes (S.left source.new) result) }

    // The chains that are printed or counted are triangular sets. Their points are solutions of the
    // system that was read or made, and all of them where no branch passed a limit.
    ensures solved { IsOfSystem result → IsSolved true VARS (map string_bytes words.now)
        (S.left source.old) (K.taken sink.old) (K.taken sink.new) result }

    // Where the words are no command that reads a system, nothing is read.
    ensures usage { result ≡ Status.Usage → IsNoCommand many (map string_bytes words.now) }
    ensures unread { (IsReader many (map string_bytes words.now) → ⊥)
        → source.new ≡ source.old }
    ensures words { IsNoCommand many (map string_bytes words.now)
        → Contains (Status.Usage ∷ Status.WriteFault ∷ Status.OutOfMemory ∷ []) result }

    // A fault is answered where its count rose, and each fault that was counted is.
    ensures read_fault { result ≡ Status.ReadFault
        → Rose (S.faults source.old) (S.faults source.new) }
    ensures write_fault { result ≡ Status.WriteFault
        → Rose (K.faults sink.old) (K.faults sink.new) }
    ensures read_answered { S.faults source.new ≢ S.faults source.old → result ≡ Status.ReadFault }
    ensures write_answered { K.faults sink.new ≢ K.faults sink.old → result ≡ Status.WriteFault }

    // Nothing is written after a failed read.
    ensures unwritten { result ≡ Status.ReadFault → sink.new ≡ sink.old }
{
    match asked_of_words(alloc, words, true, source) {
        Ok(Asked::Line(ending)) => written(sink, &ending),
        Ok(Asked::System(command, cases)) => write_answer(rt, alloc, &command, cases, watch, sink),
        Err(Silence::ReadFault) => Status::ReadFault,
        Err(Silence::OutOfMemory) => Status::OutOfMemory,
    }
}
