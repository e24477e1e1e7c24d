ghost use Rattle.std.specs.Prelude.{◌≡◌, ◌≢◌, ℕ, [], true, IfOk, IfSome, IfNone};
ghost use Rattle.polynomials.specs.Polynomials.{Polynomial, IsPolynomial, product_of};
ghost use Rattle.polynomials.specs.Fits.{fits};
ghost use Rattle.sparse_poly.specs.Values.{HasValueOfProduct};
ghost use Rattle.division_rules.specs.Quotients.{quotient_within};

use crate::division::divided;
use crate::last::last_monomial;
use mono_words::VARS;
use sparse_poly::{Poly, Work};
use std::alloc::{AllocError, Global};

/// The quotient of `a` by `b`, and `None` where there is none or it doesn't fit the width.
pub fn quo(alloc: Global, w: Work, a: &Poly, b: &Poly) -> Result<Option<Poly>, AllocError>
    requires left { IsPolynomial w.field VARS a.now }
    requires right { IsPolynomial w.field VARS b.now }
    requires nonzero { b.now ≢ [] }
    ensures value { IfOk result (λ r. r ≡ quotient_within w.field w.width a.now b.now) }
    ensures exact { IfOk result (λ r. IfSome r (λ q. product_of w.field q b.now ≡ a.now)) }
    ensures fits { IfOk result (λ r. IfSome r (λ q. fits w.width q b.now ≡ true)) }
    ensures none { IfOk result (λ r. IfNone r ((q : Polynomial) → IsPolynomial w.field VARS q →
        product_of w.field q b.now ≡ a.now → fits w.width q b.now ≢ true)) }
    ensures over { IfOk result (λ r. IfSome r (IsPolynomial w.field VARS)) }
    ensures values { IfOk result (λ r. IfSome r (λ q. HasValueOfProduct w.field q b.now a.now)) }
{
    w.field.facts();
    found(alloc, w, a, b)
}

/// The quotient, with a look at the last monomials and the degrees first.
fn found(alloc: Global, w: Work, a: &Poly, b: &Poly) -> Result<Option<Poly>, AllocError>
    requires left { IsPolynomial w.field VARS a.now }
    requires right { IsPolynomial w.field VARS b.now }
    requires nonzero { b.now ≢ [] }
    ensures { IfOk result (λ r. r ≡ quotient_within w.field w.width a.now b.now) }
{
    let Work { field, width } = w;
    field.facts();
    if a.is_zero() {
        return Ok(Some(Poly::zero(alloc)));
    }
    // The last monomial of a product is the product of the last monomials.
    let (last, by) = (last_monomial(a.terms()), last_monomial(b.terms()));
    if !by.divides(last) {
        return Ok(None);
    }
    let (high, low) = (a.degrees(), b.degrees());
    if !low.divides(high) {
        return Ok(None);
    }
    let Some(terms) = divided(alloc, Work { field, width }, a, b, high.quotient(low))? else {
        return Ok(None);
    };
    Ok(Some(Poly::over(field, terms)))
}
