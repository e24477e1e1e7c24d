ghost use Rattle.std.specs.Prelude.{◌≡◌, ◌<◌, ◌≤◌, ◌^◌, ℕ, IfOk};
ghost use Rattle.polynomials.specs.Polynomials.{IsPolynomial};
ghost use Rattle.polynomials.specs.Views.{degree_in, lead_in};
ghost use Rattle.recursive_poly.specs.Recursive.{recursive_in, whole};

use mono_words::VARS;
use sparse_poly::Poly;
use std::alloc::AllocError;
use std::marker::Model;

/// A polynomial seen by its powers of one variable.
#[derive(Debug, Drop)]
pub struct RecPoly {
    variable: usize,
    /// All its terms: where no greater variable occurs, those of a power stand together.
    poly: Poly,
}

impl Model for RecPoly {
    ghost use Rattle.std.specs.Prelude.{ℕ, ◌<◌, ◌^◌};
    ghost use Rattle.mono_words.specs.declared.mono.TheConstants.{VARS};
    ghost use Rattle.polynomials.specs.Polynomials.{IsPolynomial};
    ghost use Rattle.recursive_poly.specs.Recursive.{RecursivePolynomial, recursive_in};

    ghost Value = { RecursivePolynomial };

    ghost view = { λ r. recursive_in r.variable r.poly };

    ghost invariant = { λ r. (r.variable < VARS) × IsPolynomial (2 ^ 32) VARS r.poly };
}

impl RecPoly {
    /// The polynomial, seen by its powers of `v`.
    pub fn of(f: &Poly, v: usize) -> Result<RecPoly, AllocError>
        requires { v < VARS }
        ensures coefficients { IfOk result (λ r. r ≡ recursive_in v f.now) }
        ensures whole { IfOk result (λ r. whole r ≡ f.now) }
    {
        Ok(RecPoly::from_poly(f.copy()?, v))
    }

    /// The same of a polynomial that isn't needed any more, whose terms stay where they are.
    pub fn from_poly(f: Poly, v: usize) -> RecPoly
        requires { v < VARS }
        ensures coefficients { result ≡ recursive_in v f }
        ensures whole { whole result ≡ f }
    {
        f.facts();
        RecPoly {
            variable: v,
            poly: f,
        }
    }

    /// The variable.
    pub fn variable(&self) -> usize
        ensures variable { result ≡ self.now.variable }
        ensures below { result < VARS }
    {
        self.variable
    }

    /// The polynomial itself, without a copy.
    pub fn as_poly(&self) -> &Poly
        ensures whole { result.now ≡ whole self.now }
        ensures coefficients { recursive_in self.now.variable result.now ≡ self.now }
    {
        &self.poly
    }

    /// The polynomial, its terms taking memory of their own.
    pub fn poly(&self) -> Result<Poly, AllocError>
        ensures whole { IfOk result (λ r. r ≡ whole self.now) }
        ensures coefficients { IfOk result (λ r. recursive_in self.now.variable r ≡ self.now) }
    {
        self.as_poly().copy()
    }

    /// The polynomial of what isn't needed any more, whose terms stay where they are.
    pub fn into_poly(self) -> Poly
        ensures whole { result ≡ whole self }
        ensures coefficients { recursive_in self.variable result ≡ self }
    {
        self.poly
    }

    /// The degree in the variable, and 0 for the polynomial 0.
    pub fn degree(&self) -> u16
        ensures { result ≡ degree_in self.now.variable (whole self.now) }
    {
        self.as_poly().degree_in(self.variable())
    }

    /// The coefficient of the greatest power.
    pub fn lead(&self) -> Result<Poly, AllocError>
        ensures lead { IfOk result (λ r. r ≡ lead_in self.now.variable (whole self.now)) }
        ensures over { (p : ℕ) → IsPolynomial p VARS (whole self.now)
            → IfOk result (IsPolynomial p VARS) }
    {
        self.as_poly().lead_in(self.variable())
    }
}
