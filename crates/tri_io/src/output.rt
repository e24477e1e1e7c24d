ghost use Rattle.std.specs.Prelude.{◌≡◌, ◌≤◌, [], OnOk, OnErr};
ghost use Rattle.std.specs.Io.KnownBytes.{Appends};
ghost use Rattle.tri_io.specs.Faults.{Rose};
ghost use Rattle.tri_io.specs.Transfers.{AppendsPart};

use crate::{Failed, Sink};

/// Hands all of `bytes` to a sink, in as many writes as it needs.
///
/// Once all bytes are taken no further write is made.
pub fn write_all<K: Sink>(sink: &mut K, bytes: &[u8]) -> Result<(), Failed>
    ensures whole { OnOk result (Appends (K.taken sink.old) (K.taken sink.new) bytes.now) }
    ensures part { OnErr result (AppendsPart (K.taken sink.old) (K.taken sink.new) bytes.now) }
    ensures never_falls { K.faults sink.old ≤ K.faults sink.new }
    ensures cause { OnErr result (Rose (K.faults sink.old) (K.faults sink.new)) }
    ensures kept { OnOk result (K.faults sink.new ≡ K.faults sink.old) }
    ensures nothing { bytes.now ≡ [] → sink.new ≡ sink.old }
{
    let mut done = 0;
    while done < bytes.len() {
        done += sink.write(&bytes[done..])?;
    }
    Ok(())
}
