ghost use Rattle.std.specs.Prelude.{◌≡◌, OnOk, OnErr, IsErrOf, string_bytes};
ghost use Rattle.std.specs.Io.KnownBytes.{Appends};
ghost use Rattle.tri_io.specs.Faults.{Rose};
ghost use Rattle.tri_io.specs.Transfers.{AppendsPart};
ghost use Rattle.tri_many.specs.Early.{is_stopped_at};

use tri_io::{Sink, write_all};
use work_pool::End;

/// Why an answer wasn't written to its end.
#[derive(Clone, Copy, Debug)]
pub enum Fault {
    /// There was no memory.
    Memory,

    /// A write failed.
    Write,
}

/// Writes a text whole.
pub fn put<K: Sink>(sink: &mut K, text: &String) -> Result<(), Fault>
    ensures whole { OnOk result
        (Appends (K.taken sink.old) (K.taken sink.new) (string_bytes text.now)) }
    ensures kept { OnOk result (K.faults sink.new ≡ K.faults sink.old) }
    ensures part { OnErr result
        (AppendsPart (K.taken sink.old) (K.taken sink.new) (string_bytes text.now)) }
    ensures cause { OnErr result (Rose (K.faults sink.old) (K.faults sink.new)) }
    ensures fault { OnErr result (IsErrOf result Fault.Write) }
{
    match write_all(sink, text.as_bytes()) {
        Ok(()) => Ok(()),
        Err(_) => Err(Fault::Write),
    }
}

/// Whether a branch was stopped.
pub fn is_stopped(end: &End) -> bool
    ensures { result ≡ is_stopped_at end.now }
{
    match end {
        End::Finished => false,
        End::Stopped(..) => true,
    }
}
