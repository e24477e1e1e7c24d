ghost use Rattle.std.specs.Prelude.{◌≡◌, ℕ, ◌≤◌, List, Option, length, IfOk, OnOk, OnErr};
ghost use Rattle.std.specs.Io.KnownBytes.{ReadConsumes};
ghost use Rattle.tri_io.specs.Faults.{Rose};

use crate::Failed;

/// Where bytes come from, with a count of the reads that failed.
///
/// `Ok(0)` for a buffer that isn't empty is the end.
pub trait Source {
    // The bytes left to come, where they are told.
    ghost left: { Self → Option (List ℕ) };

    // The faults so far.
    ghost faults: { Self → ℕ };

    fn read(&mut self, buf: &mut [u8]) -> Result<usize, Failed>
        ensures bound { IfOk result (λ n. n ≤ length buf.new) }
        ensures bytes { ReadConsumes (left self.old) (left self.new) result buf.new }
        ensures never_falls { faults self.old ≤ faults self.new }
        ensures cause { OnErr result (Rose (faults self.old) (faults self.new)) }
        ensures kept { OnOk result (faults self.new ≡ faults self.old) };
}
