ghost use Rattle.std.specs.Prelude.{◌≡◌, ℕ, ◌<◌, ◌≤◌, List, Option, length, IfOk, OnOk, OnErr};
ghost use Rattle.std.specs.Io.KnownBytes.{WriteAppends};
ghost use Rattle.tri_io.specs.Faults.{Rose};

use crate::Failed;

/// Where bytes go, with a count of the writes that failed.
pub trait Sink {
    // The bytes taken so far, where they are told.
    ghost taken: { Self → Option (List ℕ) };

    // The faults so far.
    ghost faults: { Self → ℕ };

    fn write(&mut self, piece: &[u8]) -> Result<usize, Failed>
        ensures bound { IfOk result (λ n. n ≤ length piece.now) }
        ensures some { IfOk result (λ n. 0 < length piece.now → 0 < n) }
        ensures bytes { WriteAppends (taken self.old) (taken self.new) result piece.now }
        ensures never_falls { faults self.old ≤ faults self.new }
        ensures cause { OnErr result (Rose (faults self.old) (faults self.new)) }
        ensures kept { OnOk result (faults self.new ≡ faults self.old) };
}
