ghost use Rattle.std.specs.Prelude.{◌≡◌, ℕ, ◌+◌, ◌<◌, ◌↔◌, replicate, set, IsTrue, IfSome};
ghost use Rattle.polynomials.specs.Monomials.{exponent_of, monomial_product, MonomialDivides, ExponentsFit, greatest_variable};
ghost use Rattle.polynomials.specs.Fits.{greater_exponents};
ghost use Rattle.mono_words.specs.Words.{exponents, AddWithoutCarry};

/// Four exponents of 16 bits, that of the least variable lowest.
#[derive(Clone, Copy, Debug)]
pub struct Word {
    pub bits: u64,
}

/// The lowest bit of each exponent.
const LOWEST_BITS: u64 = 0x0001_0001_0001_0001;

impl Word {
    pub fn one() -> Word
        ensures { exponents 4 result.bits ≡ replicate 4 0 }
    {
        Word { bits: 0 }
    }

    pub fn power(v: usize, e: u16) -> Word
        requires { v < 4 }
        ensures { exponents 4 result.bits ≡ set (replicate 4 0) v e }
    {
        Word {
            bits: (e as u64) << (16 * v),
        }
    }

    pub fn exponent(self, v: usize) -> u16
        requires { v < 4 }
        ensures { result ≡ exponent_of v (exponents 4 self.bits) }
    {
        (self.bits >> (16 * v) & 0xffff) as u16
    }

    pub fn fits(self, other: Word) -> bool
        ensures { IsTrue result ↔ ExponentsFit (exponents 4 self.bits) (exponents 4 other.bits) }
    {
        match self.bits.checked_add(other.bits) {
            Some(sum) => adds_without_carry(self.bits, other.bits, sum),
            None => false,
        }
    }

    pub fn product(self, other: Word) -> Word
        requires { ExponentsFit (exponents 4 self.bits) (exponents 4 other.bits) }
        ensures { exponents 4 result.bits
            ≡ monomial_product (exponents 4 self.bits) (exponents 4 other.bits) }
    {
        Word {
            bits: self.bits + other.bits,
        }
    }

    pub fn divides(self, other: Word) -> bool
        ensures { IsTrue result ↔ MonomialDivides (exponents 4 self.bits) (exponents 4 other.bits) }
    {
        // As in variables that don't occur.
        if self.bits == 0 {
            return true;
        }
        self.bits <= other.bits && adds_without_carry(self.bits, other.bits - self.bits, other.bits)
    }

    pub fn quotient(self, by: Word) -> Word
        requires { MonomialDivides (exponents 4 by.bits) (exponents 4 self.bits) }
        ensures { monomial_product (exponents 4 result.bits) (exponents 4 by.bits)
            ≡ exponents 4 self.bits }
    {
        Word {
            bits: self.bits - by.bits,
        }
    }

    pub fn without(self, v: usize) -> Word
        requires { v < 4 }
        ensures { exponents 4 result.bits ≡ set (exponents 4 self.bits) v 0 }
    {
        let exponent = self.bits >> (16 * v) & 0xffff;
        Word {
            bits: self.bits - (exponent << (16 * v)),
        }
    }

    /// The greater exponent of each variable.
    pub fn greater_exponents(self, other: Word) -> Word
        ensures { exponents 4 result.bits
            ≡ greater_exponents (exponents 4 self.bits) (exponents 4 other.bits) }
    {
        // As in variables that don't occur.
        if other.bits == 0 {
            return self;
        }
        let mut bits: u64 = 0;
        for v in (0..4).rev() {
            let greater = self.exponent(v).max(other.exponent(v));
            bits = (bits << 16) + greater as u64;
        }
        Word { bits }
    }

    pub fn greatest_variable(self) -> Option<usize>
        ensures value { result ≡ greatest_variable (exponents 4 self.bits) }
        ensures below { IfSome result (λ v. v < 4) }
    {
        if self.bits == 0 {
            None
        } else {
            Some((63 - self.bits.leading_zeros() as usize) / 16)
        }
    }
}

/// Whether no exponent of `sum`, the sum of `a` and `b`, took a carry from the exponent below it.
fn adds_without_carry(a: u64, b: u64, sum: u64) -> bool
    requires { a + b ≡ sum }
    ensures { IsTrue result ↔ AddWithoutCarry 4 a b }
{
    // The lowest bit of a sum is that of its two parts, turned where a carry came in.
    (a ^ b ^ sum) & LOWEST_BITS == 0
}
