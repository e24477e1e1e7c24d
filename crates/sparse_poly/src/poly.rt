ghost use Rattle.std.specs.Prelude.{◌≡◌, ◌<◌, ◌≤◌, ◌^◌, ◌↔◌, ℕ, [], length, All, IfOk, IsTrue};
ghost use Rattle.std.specs.Cmp.{partial_equiv_from_equiv};
ghost use Rattle.polynomials.specs.Equalities.{same_polynomial_equivalence};
ghost use Rattle.polynomials.specs.Monomials.{exponent_of, most_exponent};
ghost use Rattle.polynomials.specs.Polynomials.{Term, IsPolynomial, collected, constant_of, same_polynomial};
ghost use Rattle.polynomials.specs.Views.{degree_in};

use crate::collect::collected;
use crate::fitting::degrees;
use field_table::Field;
use mono_words::{Mono, VARS};
use std::alloc::{AllocError, Global};
use std::marker::Model;

/// A polynomial in `VARS` variables: its terms, the greatest monomial first, each coefficient from
/// 1 to p - 1 where it is over the field of p elements.
#[derive(Debug, Drop)]
pub struct Poly {
    terms: Vec<(Mono, u32)>,
    /// The degree in each variable.
    degrees: Mono,
}

impl Model for Poly {
    ghost use Rattle.std.specs.Prelude.{◌≡◌, ◌^◌, ℕ, List};
    ghost use Rattle.mono_words.specs.declared.mono.TheConstants.{VARS};
    ghost use Rattle.polynomials.specs.Monomials.{exponent_of};
    ghost use Rattle.polynomials.specs.Polynomials.{Term, IsPolynomial};
    ghost use Rattle.polynomials.specs.Views.{degree_in};

    ghost Value = { List Term };

    ghost view = { λ f. f.terms.items };

    ghost invariant = { λ f. IsPolynomial (2 ^ 32) VARS f.terms.items
        × ((v : ℕ) → exponent_of v f.degrees ≡ degree_in v f.terms.items) };
}

impl Poly {
    /// The polynomial of terms in canonical form.
    pub(crate) fn of(terms: Vec<(Mono, u32)>) -> Poly
        requires { IsPolynomial (2 ^ 32) VARS terms.items }
        ensures { result ≡ terms.items }
    {
        let degrees = degrees(&terms);
        Poly { terms, degrees }
    }

    /// The polynomial of terms in canonical form over a field.
    pub fn over(f: Field, terms: Vec<(Mono, u32)>) -> Poly
        requires { IsPolynomial f VARS terms.items }
        ensures { result ≡ terms.items }
    {
        f.facts();
        Poly::of(terms)
    }

    /// The same, where the degrees are known.
    pub(crate) fn with_degrees(f: Field, terms: Vec<(Mono, u32)>, degrees: Mono) -> Poly
        requires canonical { IsPolynomial f VARS terms.items }
        requires degrees { (v : ℕ) → exponent_of v degrees ≡ degree_in v terms.items }
        ensures { result ≡ terms.items }
    {
        f.facts();
        Poly { terms, degrees }
    }

    /// The allocator of the terms.
    pub(crate) fn alloc(&self) -> Global {
        *self.terms.allocator()
    }

    /// The polynomial 0.
    pub fn zero(alloc: Global) -> Poly
        ensures { result ≡ [] }
    {
        Poly {
            terms: Vec::new(alloc),
            degrees: Mono::one(),
        }
    }

    /// The constant `c`: no term where it is 0, else one.
    pub fn constant(alloc: Global, f: Field, c: u32) -> Result<Poly, AllocError>
        requires { c < f }
        ensures value { IfOk result (λ r. r ≡ constant_of VARS c) }
        ensures over { IfOk result (IsPolynomial f VARS) }
    {
        let mut terms = Vec::new(alloc);
        if c != 0 {
            terms.push((Mono::one(), c))?;
        }
        Ok(Poly {
            terms,
            degrees: Mono::one(),
        })
    }

    /// The sum of terms in any order; monomials may repeat, coefficients may be 0.
    pub fn from_terms(alloc: Global, f: Field, terms: &[(Mono, u32)]) -> Result<Poly, AllocError>
        requires { All (λ t. t.1 < f) terms.now }
        ensures value { IfOk result (λ r. r ≡ collected f terms.now) }
        ensures over { IfOk result (IsPolynomial f VARS) }
    {
        Ok(Poly::over(f, collected(alloc, f, terms)?))
    }

    /// The terms, the greatest monomial first.
    pub fn terms(&self) -> &[(Mono, u32)]
        ensures terms { result.now ≡ self.now }
        ensures canonical { IsPolynomial (2 ^ 32) VARS self.now }
        ensures exponents { (v : ℕ) → degree_in v self.now ≤ most_exponent }
    {
        self.degrees.shape();
        &self.terms
    }

    /// The degree in each variable.
    pub fn degrees(&self) -> Mono
        ensures { (v : ℕ) → exponent_of v result ≡ degree_in v self.now }
    {
        self.degrees
    }

    /// Does nothing: its clauses tell what every polynomial is.
    pub fn facts(&self)
        ensures canonical { IsPolynomial (2 ^ 32) VARS self.now }
        ensures exponents { (v : ℕ) → degree_in v self.now ≤ most_exponent }
    {
        let _ = self.terms();
    }

    /// Whether this is 0, which has no terms.
    pub fn is_zero(&self) -> bool
        ensures { IsTrue result ↔ (self.now ≡ []) }
    {
        self.terms.is_empty()
    }

    /// The number of terms, each of a monomial of its own.
    pub fn term_count(&self) -> usize
        ensures { result ≡ length self.now }
    {
        self.terms.len()
    }

    /// An equal polynomial, its terms taking memory of their own.
    pub fn copy(&self) -> Result<Poly, AllocError>
        ensures { IfOk result (λ r. r ≡ self.now) }
    {
        Ok(Poly {
            terms: self.terms.clone()?,
            degrees: self.degrees,
        })
    }
}

/// Equal polynomials have the same terms.
impl PartialEq for Poly {
    ghost eq = { same_polynomial };

    ghost laws = { partial_equiv_from_equiv same_polynomial_equivalence };

    fn eq(&self, other: &Poly) -> bool {
        self.terms == other.terms
    }
}

impl Eq for Poly {
    ghost laws = { same_polynomial_equivalence };
}
