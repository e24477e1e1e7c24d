ghost use Rattle.std.specs.Prelude.{◌≡◌, ◌≢◌, [], false, IfOk};
ghost use Rattle.polynomials.specs.Polynomials.{IsPolynomial, ArePolynomials};
ghost use Rattle.polynomials.specs.Views.{is_constant};
ghost use Rattle.division_rules.specs.Quotients.{without_factors, without_factor, factor_bound};

use crate::quotient::quo;
use mono_words::VARS;
use sparse_poly::{Poly, Polys, Work};
use std::alloc::{AllocError, Global};

/// `a` divided by each member of the list in turn, as often as it has a quotient. Constant members
/// are passed over, and 0 stays.
pub fn strip(alloc: Global, w: Work, a: &Poly, list: &Polys) -> Result<Poly, AllocError>
    requires left { IsPolynomial w.field VARS a.now }
    requires members { ArePolynomials w.field VARS list.now }
    ensures value { IfOk result (λ r. r ≡ without_factors w.field w.width list.now a.now) }
    ensures over { IfOk result (IsPolynomial w.field VARS) }
{
    let Work { field, width } = w;
    field.facts();
    let mut left = a.copy()?;
    if left.is_zero() {
        return Ok(left);
    }
    for i in 0..list.count() {
        let b = list.at(i);
        if !b.is_constant() {
            left = without(alloc, Work { field, width }, left, b)?;
        }
    }
    Ok(left)
}

/// A polynomial other than 0 divided by one that isn't constant, as often as it has a quotient.
fn without(alloc: Global, w: Work, a: Poly, b: &Poly) -> Result<Poly, AllocError>
    requires left { IsPolynomial w.field VARS a }
    requires right { IsPolynomial w.field VARS b.now }
    requires some { a ≢ [] }
    requires varies { is_constant b.now ≡ false }
    ensures { IfOk result (λ r. r ≡ without_factor w.field w.width b.now (factor_bound a) a) }
{
    let Work { field, width } = w;
    field.facts();
    let mut left = a;
    while let Some(quotient) = quo(alloc, Work { field, width }, &left, b)? {
        left = quotient;
    }
    Ok(left)
}
