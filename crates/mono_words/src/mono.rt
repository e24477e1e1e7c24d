ghost use Rattle.std.specs.Prelude.{◌≡◌, ℕ, ◌+◌, ◌<◌, ◌≤◌, ◌↔◌, ◌^◌, List, length, replicate, set, IsTrue};
ghost use Rattle.std.specs.Cmp.{partial_equiv_from_equiv, partial_order_from_agreeing_total};
ghost use Rattle.std.specs.Ordering.{as_partial_cmp};
ghost use Rattle.std.proofs.Common.{refl};
ghost use Rattle.polynomials.specs.Monomials.{exponent_of, most_exponent, monomial_order, same_monomial, monomial_product, MonomialDivides, ExponentsFit, greatest_variable};
ghost use Rattle.polynomials.specs.MonomialOrders.{monomial_order_total};
ghost use Rattle.polynomials.specs.Equalities.{same_monomial_equivalence};
ghost use Rattle.polynomials.specs.Fits.{greater_exponents, is_exponent_list};
ghost use Rattle.mono_words.specs.Words.{exponents, packed};
ghost use Rattle.mono_words.specs.FourWords.{four_words, AreWords, word_of, with_word, packed-four_words};
ghost use Rattle.mono_words.specs.Ties.{same_monomial-ties};

use crate::word::Word;
use std::cmp::Ordering;
use std::marker::Model;

/// How many variables there are.
pub const VARS: usize = 16;

/// A monomial: four words, the first with the exponents of the least variables.
#[derive(Clone, Copy, Debug)]
pub struct Mono {
    first: Word,
    second: Word,
    third: Word,
    fourth: Word,
}

impl Model for Mono {
    ghost Value = { List ℕ };

    ghost view = { λ m. four_words m.first.bits m.second.bits m.third.bits m.fourth.bits };

    ghost invariant = { λ m. AreWords m.first.bits m.second.bits m.third.bits m.fourth.bits };

    ghost inverse = { λ m. record {
      first = record { bits = packed (word_of 0 m) };
      second = record { bits = packed (word_of 1 m) };
      third = record { bits = packed (word_of 2 m) };
      fourth = record { bits = packed (word_of 3 m) };
    } };

    ghost inverse_ok = { λ m below. packed-four_words
        (λ a b c d. record {
          first = record { bits = a };
          second = record { bits = b };
          third = record { bits = c };
          fourth = record { bits = d };
        })
        m.first.bits m.second.bits m.third.bits m.fourth.bits below };
}

impl Mono {
    /// The monomial 1.
    pub fn one() -> Mono
        ensures { result ≡ replicate VARS 0 }
    {
        let word = Word::one();
        Mono {
            first: word,
            second: word,
            third: word,
            fourth: word,
        }
    }

    /// The variable `v` to the power `e`.
    pub fn power(v: usize, e: u16) -> Mono
        requires { v < VARS }
        ensures { result ≡ set (replicate VARS 0) v e }
    {
        Mono::one().with_word(v / 4, Word::power(v % 4, e))
    }

    /// Does nothing: its clauses tell what every monomial is.
    pub fn shape(self)
        ensures variables { length self ≡ VARS }
        ensures exponents { (v : ℕ) → exponent_of v self ≤ most_exponent }
        ensures within { IsTrue (is_exponent_list self) }
    {
        let _ = &self.first;
    }

    pub fn exponent(self, v: usize) -> u16
        requires { v < VARS }
        ensures { result ≡ exponent_of v self }
    {
        self.word(v / 4).exponent(v % 4)
    }

    /// Whether this is the monomial 1.
    pub fn is_one(self) -> bool
        ensures { IsTrue result ↔ (self ≡ replicate VARS 0) }
    {
        self == Mono::one()
    }

    /// Whether the product has exponents of 16 bits.
    pub fn fits(self, other: Mono) -> bool
        ensures { IsTrue result ↔ ExponentsFit self other }
    {
        // `&` has no branch, so the proof has one path.
        self.first.fits(other.first)
            & self.second.fits(other.second)
            & self.third.fits(other.third)
            & self.fourth.fits(other.fourth)
    }

    pub fn product(self, other: Mono) -> Mono
        requires { ExponentsFit self other }
        ensures { result ≡ monomial_product self other }
    {
        Mono {
            first: self.first.product(other.first),
            second: self.second.product(other.second),
            third: self.third.product(other.third),
            fourth: self.fourth.product(other.fourth),
        }
    }

    /// Whether this divides `other`.
    pub fn divides(self, other: Mono) -> bool
        ensures { IsTrue result ↔ MonomialDivides self other }
    {
        // `&` has no branch, so the proof has one path.
        self.first.divides(other.first)
            & self.second.divides(other.second)
            & self.third.divides(other.third)
            & self.fourth.divides(other.fourth)
    }

    pub fn quotient(self, by: Mono) -> Mono
        requires { MonomialDivides by self }
        ensures { monomial_product result by ≡ self }
    {
        Mono {
            first: self.first.quotient(by.first),
            second: self.second.quotient(by.second),
            third: self.third.quotient(by.third),
            fourth: self.fourth.quotient(by.fourth),
        }
    }

    /// This monomial with 1 in place of the variable `v`.
    pub fn without(self, v: usize) -> Mono
        requires { v < VARS }
        ensures { result ≡ set self v 0 }
    {
        self.shape();
        self.with_word(v / 4, self.word(v / 4).without(v % 4))
    }

    /// The least common multiple.
    pub fn max_exponents(self, other: Mono) -> Mono
        ensures { result ≡ greater_exponents self other }
    {
        // Along a polynomial the multiple of the terms before is mostly one of the next term too.
        if other.divides(self) {
            self.shape();
            other.shape();
            return self;
        }
        Mono {
            first: self.first.greater_exponents(other.first),
            second: self.second.greater_exponents(other.second),
            third: self.third.greater_exponents(other.third),
            fourth: self.fourth.greater_exponents(other.fourth),
        }
    }

    pub fn greatest_variable(self) -> Option<usize>
        ensures { result ≡ greatest_variable self }
    {
        if let Some(v) = self.fourth.greatest_variable() {
            return Some(12 + v);
        }
        if let Some(v) = self.third.greatest_variable() {
            return Some(8 + v);
        }
        if let Some(v) = self.second.greatest_variable() {
            return Some(4 + v);
        }
        self.first.greatest_variable()
    }

    /// The word of the variables from `4 * i` on.
    fn word(self, i: usize) -> Word
        requires { i < 4 }
        ensures { exponents 4 result.bits ≡ word_of i self }
    {
        match i {
            0 => self.first,
            1 => self.second,
            2 => self.third,
            _ => self.fourth,
        }
    }

    /// This monomial with another word of the variables from `4 * i` on.
    fn with_word(self, i: usize, word: Word) -> Mono
        requires { i < 4 }
        ensures { result ≡ with_word self i (exponents 4 word.bits) }
    {
        match i {
            0 => Mono {
                first: word,
                ..self
            },
            1 => Mono {
                second: word,
                ..self
            },
            2 => Mono {
                third: word,
                ..self
            },
            _ => Mono {
                fourth: word,
                ..self
            },
        }
    }
}

impl PartialEq for Mono {
    ghost eq = { same_monomial };

    ghost laws = { partial_equiv_from_equiv same_monomial_equivalence };

    fn eq(&self, other: &Mono) -> bool {
        (self.first.bits == other.first.bits)
            & (self.second.bits == other.second.bits)
            & (self.third.bits == other.third.bits)
            & (self.fourth.bits == other.fourth.bits)
    }
}

impl Eq for Mono {
    ghost laws = { same_monomial_equivalence };
}

impl PartialOrd for Mono {
    ghost partial_cmp = { as_partial_cmp monomial_order };

    ghost laws = { partial_order_from_agreeing_total monomial_order monomial_order_total (λ l m. refl) same_monomial-ties };

    fn partial_cmp(&self, other: &Mono) -> Option<Ordering> {
        Some(self.cmp(other))
    }
}

impl Ord for Mono {
    ghost cmp = { monomial_order };

    ghost total = { monomial_order_total };

    ghost matches_partial_cmp = { λ l m. refl };

    ghost matches_eq = { same_monomial-ties };

    fn cmp(&self, other: &Mono) -> Ordering {
        // Words of variables that don't occur are equal, so that a branch on them is foreseen.
        if self.fourth.bits != other.fourth.bits {
            return self.fourth.bits.cmp(&other.fourth.bits);
        }
        if self.third.bits != other.third.bits {
            return self.third.bits.cmp(&other.third.bits);
        }
        if self.second.bits != other.second.bits {
            return self.second.bits.cmp(&other.second.bits);
        }
        self.first.bits.cmp(&other.first.bits)
    }
}
