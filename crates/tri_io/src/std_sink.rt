ghost use Rattle.std.specs.Prelude.{◌≡◌, ℕ, ◌<◌, ◌≤◌, List, Option, length, IfOk, OnOk, OnErr};
ghost use Rattle.std.specs.Io.KnownBytes.{WriteAppends};
ghost use Rattle.tri_io.specs.Faults.{Rose, raised};

use crate::{Failed, Sink};
use std::io::Write;
use std::marker::Model;

/// A sink over a writer of std: each error of the writer is a fault, and so is a write that
/// takes nothing of a piece that isn't empty.
#[derive(Drop)]
pub struct StdSink<O: Write> {
    to: O,
    faults: u64,
}

impl<O: Write> Model for StdSink<O> {
    ghost use Rattle.tri_io.specs.States.{StdSinkState};

    ghost Value = { StdSinkState };

    ghost view = { λ s. record { taken = O.contents s.to; faults = s.faults } };
}

impl<O: Write> StdSink<O> {
    /// A sink that hands what it takes to the writer `to`.
    pub fn new(to: O) -> Self
        ensures taken { result.taken ≡ O.contents to }
        ensures faults { result.faults ≡ 0 }
    {
        StdSink { to, faults: 0 }
    }
}

impl<O: Write> Sink for StdSink<O> {
    ghost taken = { λ s. s.taken };

    ghost faults = { λ s. s.faults };

    fn write(&mut self, piece: &[u8]) -> Result<usize, Failed>
        ensures bound { IfOk result (λ n. n ≤ length piece.now) }
        ensures some { IfOk result (λ n. 0 < length piece.now → 0 < n) }
        ensures bytes { WriteAppends self.old.taken self.new.taken result piece.now }
        ensures never_falls { self.old.faults ≤ self.new.faults }
        ensures cause { OnErr result (Rose self.old.faults self.new.faults) }

        // The count changes at a fault alone, and then by one up to its last value.
        ensures kept { OnOk result (self.new.faults ≡ self.old.faults) }
        ensures counted { OnErr result (self.new.faults ≡ raised self.old.faults) }
    {
        match self.to.write(piece) {
            Ok(count) if count > 0 || piece.is_empty() => Ok(count),
            _ => {
                self.faults = self.faults.saturating_add(1);
                Err(Failed)
            }
        }
    }
}
