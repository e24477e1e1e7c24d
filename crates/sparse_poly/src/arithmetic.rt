ghost use Rattle.std.specs.Prelude.{◌≡◌, ◌+◌, ◌<◌, ◌≤◌, ℕ, ◌↔◌, List, [], false, IfOk, IfSome, IsNone};
ghost use Rattle.polynomials.specs.Polynomials.{IsPolynomial, sum_of, difference_of, product_of, monic, variable_power};
ghost use Rattle.polynomials.specs.Views.{degree_in};
ghost use Rattle.polynomials.specs.Fits.{most_exponent, fits};
ghost use Rattle.sparse_poly.specs.Values.{HasValueOfSum, HasValueOfDifference, HasValueOfProduct, HasZerosOf};

use crate::fitting::fits;
use crate::merge::{Sign, merged};
use crate::multiples::{scaled, term_times};
use crate::poly::Poly;
use crate::product::product;
use crate::work::Work;
use field_table::Field;
use mono_words::{Mono, VARS};
use std::alloc::AllocError;

impl Poly {
    /// The sum, in one pass over both.
    pub fn add(&self, f: Field, other: &Poly) -> Result<Poly, AllocError>
        requires left { IsPolynomial f VARS self.now }
        requires right { IsPolynomial f VARS other.now }
        ensures sum { IfOk result (λ r. r ≡ sum_of f self.now other.now) }
        ensures over { IfOk result (IsPolynomial f VARS) }
        ensures values { IfOk result (HasValueOfSum f self.now other.now) }
    {
        let terms = merged(self.alloc(), f, self.terms(), Sign::Plus, other.terms())?;
        Ok(Poly::over(f, terms))
    }

    /// `other` taken away from this.
    pub fn sub(&self, f: Field, other: &Poly) -> Result<Poly, AllocError>
        requires left { IsPolynomial f VARS self.now }
        requires right { IsPolynomial f VARS other.now }
        ensures difference { IfOk result (λ r. r ≡ difference_of f self.now other.now) }
        ensures over { IfOk result (IsPolynomial f VARS) }
        ensures values { IfOk result (HasValueOfDifference f self.now other.now) }
    {
        let terms = merged(self.alloc(), f, self.terms(), Sign::Minus, other.terms())?;
        Ok(Poly::over(f, terms))
    }

    /// The product, and `None` where it doesn't fit the width.
    pub fn mul(&self, w: Work, other: &Poly) -> Result<Option<Poly>, AllocError>
        requires left { IsPolynomial w.field VARS self.now }
        requires right { IsPolynomial w.field VARS other.now }
        ensures none { IfOk result (λ r. IsNone r ↔ (fits w.width self.now other.now ≡ false)) }
        ensures product { IfOk result (λ r. IfSome r (λ g. g ≡ product_of w.field self.now other.now)) }
        ensures over { IfOk result (λ r. IfSome r (IsPolynomial w.field VARS)) }
        ensures values { IfOk result (λ r. IfSome r (HasValueOfProduct w.field self.now other.now)) }
    {
        if !fits(w.width, self, other) {
            return Ok(None);
        }
        let (alloc, f) = (self.alloc(), w.field);
        if self.is_zero() || other.is_zero() {
            return Ok(Some(Poly::zero(alloc)));
        }
        f.facts();
        let terms = if self.term_count() <= other.term_count() {
            product(alloc, f, self, other)?
        } else {
            product(alloc, f, other, self)?
        };
        // Without zero divisors degrees add.
        let degrees = self.degrees().product(other.degrees());
        Ok(Some(Poly::with_degrees(f, terms, degrees)))
    }

    /// The product by the variable `v` to the power `e`.
    pub fn times_power(&self, f: Field, v: usize, e: u16) -> Result<Poly, AllocError>
        requires variable { v < VARS }
        requires over { IsPolynomial f VARS self.now }
        requires room { e + degree_in v self.now ≤ most_exponent }
        ensures product { IfOk result (λ r. r ≡ product_of f (variable_power VARS v e) self.now) }
        ensures over { IfOk result (IsPolynomial f VARS) }
    {
        f.facts();
        let terms = term_times(self.alloc(), f, (Mono::power(v, e), 1), self.terms())?;
        Ok(Poly::over(f, terms))
    }

    /// The polynomial divided by the coefficient of its greatest monomial; 0 stays.
    pub fn monic(&self, f: Field) -> Result<Poly, AllocError>
        requires { IsPolynomial f VARS self.now }
        ensures monic { IfOk result (λ r. r ≡ monic f self.now) }
        ensures over { IfOk result (IsPolynomial f VARS) }
        ensures zeros { IfOk result (HasZerosOf f self.now) }
    {
        let Some(first) = self.terms().first() else {
            return Ok(Poly::zero(self.alloc()));
        };
        f.facts();
        let terms = scaled(self.alloc(), f, f.inv(first.1), self.terms())?;
        Ok(Poly::with_degrees(f, terms, self.degrees()))
    }
}
