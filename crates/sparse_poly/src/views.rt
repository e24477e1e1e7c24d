ghost use Rattle.std.specs.Prelude.{◌≡◌, ◌<◌, ◌≤◌, ◌↔◌, ℕ, true, [], length, drop, IfOk, IsTrue};
ghost use Rattle.polynomials.specs.Monomials.{exponent_of};
ghost use Rattle.polynomials.specs.Polynomials.{IsPolynomial};
ghost use Rattle.polynomials.specs.Views.{degree_in, coefficient_in, lead_in, tail_in, main_var, is_constant, IsFreeOf};
ghost use Rattle.sparse_poly.specs.Values.{SplitsValue};

use crate::poly::Poly;
use mono_words::{Mono, VARS};
use std::alloc::AllocError;

impl Poly {
    /// The greatest variable that occurs, and `None` where there is none, as in 0.
    pub fn main_var(&self) -> Option<usize>
        ensures { result ≡ main_var self.now }
    {
        match self.terms().first() {
            None => None,
            Some(first) => first.0.greatest_variable(),
        }
    }

    /// Whether no variable occurs; 0 is constant.
    pub fn is_constant(&self) -> bool
        ensures { IsTrue result ↔ (is_constant self.now ≡ true) }
    {
        self.main_var().is_none()
    }

    /// The degree in the variable `v`, and 0 for the polynomial 0.
    pub fn degree_in(&self, v: usize) -> u16
        requires { v < VARS }
        ensures { result ≡ degree_in v self.now }
    {
        self.degrees().exponent(v)
    }

    /// The coefficient of the greatest power of `v`, and 0 for the polynomial 0.
    pub fn lead_in(&self, v: usize) -> Result<Poly, AllocError>
        requires { v < VARS }
        ensures lead { IfOk result (λ r. r ≡ lead_in v self.now) }
    {
        let degree = self.degree_in(v);
        let end = self.lead_end(v, degree);
        let mut terms = Vec::with_capacity(self.alloc(), end)?;
        for t in &self.terms()[..end] {
            if t.0.exponent(v) == degree {
                terms.push((t.0.without(v), t.1))?;
            }
        }
        Ok(Poly::of(terms))
    }

    /// The terms with a smaller power of `v` than the greatest, and 0 for the polynomial 0.
    pub fn tail_in(&self, v: usize) -> Result<Poly, AllocError>
        requires { v < VARS }
        ensures tail { IfOk result (λ r. r ≡ tail_in v self.now) }
        ensures values { IfOk result (λ r. (p : ℕ) → SplitsValue p v self.now (lead_in v self.now) r) }
    {
        let degree = self.degree_in(v);
        let end = self.lead_end(v, degree);
        let mut terms = Vec::new(self.alloc());
        for t in &self.terms()[..end] {
            if t.0.exponent(v) != degree {
                terms.push(*t)?;
            }
        }
        terms.extend_from_slice(&self.terms()[end..])?;
        Ok(Poly::of(terms))
    }

    /// Whether no variable greater than `v` occurs.
    pub fn is_free_above(&self, v: usize) -> bool
        ensures { IsTrue result ↔ ((w : ℕ) → v < w → IsFreeOf w self.now) }
    {
        match self.main_var() {
            None => true,
            Some(main) => main <= v,
        }
    }

    /// A place from which on no term has the greatest power of `v`: where no greater variable
    /// occurs, the first such place.
    fn lead_end(&self, v: usize, degree: u16) -> usize
        requires variable { v < VARS }
        requires degree { degree ≡ degree_in v self.now }
        ensures within { result ≤ length self.now }
        ensures rest { coefficient_in v degree (drop result self.now) ≡ [] }
    {
        let terms = self.terms();
        if !self.is_free_above(v) {
            return terms.len();
        }
        match terms.iter().position(|t| t.0.exponent(v) != degree) {
            Some(end) => end,
            None => terms.len(),
        }
    }

    /// The tail in `v` as it stands, where no greater variable occurs.
    pub(crate) fn tail_terms(&self, v: usize) -> &[(Mono, u32)]
        requires variable { v < VARS }
        requires greatest { (w : ℕ) → v < w → IsFreeOf w self.now }
        ensures { result.now ≡ tail_in v self.now }
    {
        &self.terms()[self.tail_start(v)..]
    }

    /// The place where the lead in `v` ends and the tail begins.
    fn tail_start(&self, v: usize) -> usize
        requires variable { v < VARS }
        requires greatest { (w : ℕ) → v < w → IsFreeOf w self.now }
        ensures within { result ≤ length self.now }
        ensures tail { drop result self.now ≡ tail_in v self.now }
    {
        let (terms, degree) = (self.terms(), self.degree_in(v));
        match terms.iter().position(|t| t.0.exponent(v) != degree) {
            Some(end) => end,
            None => terms.len(),
        }
    }

    /// A monomial with at least the degrees of the tail in `v`, where that has terms.
    pub(crate) fn tail_degrees(&self, v: usize) -> Mono
        requires { v < VARS }
        ensures { (w : ℕ) → degree_in w (tail_in v self.now) ≤ exponent_of w result }
    {
        let degrees = self.degrees();
        let below = degrees.exponent(v).saturating_sub(1);
        degrees.without(v).max_exponents(Mono::power(v, below))
    }
}
