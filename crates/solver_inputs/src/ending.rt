ghost use Rattle.std.specs.Prelude.{◌≡◌, ◌≢◌, Bool};
ghost use Rattle.mono_words.specs.declared.mono.TheConstants.{VARS};
ghost use Rattle.tri_io.specs.Faults.{Rose};
ghost use Rattle.run_rules.specs.Runs.{Writes};
ghost use Rattle.solver_rules.specs.Solver.{solver};

use report_text::Status;
use std::marker::Model;
use tri_io::{Sink, write_all};

/// A status, and the text that is written with it.
#[derive(Drop)]
pub struct Ending {
    pub status: Status,
    pub text: String,
}

impl Model for Ending {
    ghost use Rattle.std.specs.Prelude.{string_bytes};
    ghost use Rattle.report_text.specs.declared.status.Status.{Status};
    ghost use Rattle.run_rules.specs.Programs.{Ending};

    ghost Value = { Ending Status };

    ghost view = { λ ending. record { status = ending.status; text = string_bytes ending.text } };
}

/// The status of an ending, where its text is written whole.
pub fn written<K: Sink>(sink: &mut K, ending: &Ending) -> Status
    ensures writes { (with_workers : Bool) → Writes (solver with_workers VARS) ending.now
        (Rose (K.faults sink.old) (K.faults sink.new))
        (K.taken sink.old) (K.taken sink.new) result }
    ensures answered { K.faults sink.new ≢ K.faults sink.old → result ≡ Status.WriteFault }
{
    match write_all(sink, ending.text.as_bytes()) {
        Ok(()) => ending.status,
        Err(_) => Status::WriteFault,
    }
}
