ghost use Rattle.std.specs.Prelude.{◌≡◌, ℕ, ◌≤◌, List, Option, length, IfOk, OnOk, OnErr};
ghost use Rattle.std.specs.Io.KnownBytes.{ReadConsumes};
ghost use Rattle.tri_io.specs.Faults.{Rose, raised};

use crate::{Failed, Source};
use std::io::Read;
use std::marker::Model;

/// A source over a reader of std: each error of the reader is a fault.
#[derive(Drop)]
pub struct StdSource<I: Read> {
    from: I,
    faults: u64,
}

impl<I: Read> Model for StdSource<I> {
    ghost use Rattle.tri_io.specs.States.{StdSourceState};

    ghost Value = { StdSourceState };

    ghost view = { λ s. record { left = I.remaining s.from; faults = s.faults } };
}

impl<I: Read> StdSource<I> {
    /// A source of what the reader `from` still has.
    pub fn new(from: I) -> Self
        ensures left { result.left ≡ I.remaining from }
        ensures faults { result.faults ≡ 0 }
    {
        StdSource { from, faults: 0 }
    }
}

impl<I: Read> Source for StdSource<I> {
    ghost left = { λ s. s.left };

    ghost faults = { λ s. s.faults };

    fn read(&mut self, buf: &mut [u8]) -> Result<usize, Failed>
        ensures bound { IfOk result (λ n. n ≤ length buf.new) }
        ensures bytes { ReadConsumes self.old.left self.new.left result buf.new }
        ensures never_falls { self.old.faults ≤ self.new.faults }
        ensures cause { OnErr result (Rose self.old.faults self.new.faults) }

        // The count changes at a fault alone, and then by one up to its last value.
        ensures kept { OnOk result (self.new.faults ≡ self.old.faults) }
        ensures counted { OnErr result (self.new.faults ≡ raised self.old.faults) }
    {
        match self.from.read(buf) {
            Ok(count) => Ok(count),
            Err(_) => {
                self.faults = self.faults.saturating_add(1);
                Err(Failed)
            }
        }
    }
}
