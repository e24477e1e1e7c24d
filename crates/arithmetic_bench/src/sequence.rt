ghost use Rattle.std.specs.Prelude.{◌<◌, ◌≤◌};

use field_table::Field;

/// A linear congruential sequence modulo 2^64, whose numbers are the upper 31 bits.
#[derive(Drop)]
pub(crate) struct Sequence {
    state: u64,
}

/// The factor of each step, also of digests.
pub(crate) const FACTOR: u64 = 6_364_136_223_846_793_005;

const STEP: u64 = 1_442_695_040_888_963_407;

impl Sequence {
    pub(crate) fn new() -> Sequence {
        Sequence { state: 1 }
    }

    fn next(&mut self) -> u32
        ensures { result < 2_147_483_648 }
    {
        self.state = self.state.wrapping_mul(FACTOR).wrapping_add(STEP);
        (self.state / 0x2_0000_0000) as u32
    }

    /// A number below a bound.
    pub(crate) fn below(&mut self, bound: u32) -> u32
        requires { 0 < bound }
        ensures { result < bound }
    {
        self.next() % bound
    }

    /// A residue other than 0.
    pub(crate) fn residue(&mut self, f: Field) -> u32
        ensures some { 0 < result }
        ensures below { result < f }
    {
        f.facts();
        1 + self.below(f.prime() - 1)
    }
}
