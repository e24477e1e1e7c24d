ghost use Rattle.std.specs.Prelude.{◌≡◌, IfOk, IfSome};
ghost use Rattle.polynomials.specs.Polynomials.{IsPolynomial};
ghost use Rattle.division_rules.specs.Within.{power_of_within};
ghost use Rattle.pseudo_division.specs.FieldOperations.{operations};

use crate::products::times;
use mono_words::VARS;
use sparse_poly::{Poly, Work};
use std::alloc::{AllocError, Global};

/// `a` to the power `e`, by one product for each further factor, and `None` where one of them
/// doesn't fit the width.
pub fn power(alloc: Global, w: Work, a: &Poly, e: u16) -> Result<Option<Poly>, AllocError>
    requires { IsPolynomial w.field VARS a.now }
    ensures value { IfOk result (λ r. r ≡ power_of_within (operations w.field) w.width a.now e) }
    ensures over { IfOk result (λ r. IfSome r (IsPolynomial w.field VARS)) }
{
    w.field.facts();
    if e == 0 {
        return Ok(Some(Poly::constant(alloc, w.field, 1)?));
    }
    let mut product = a.copy()?;
    for _ in 1..e {
        match times(&w, &product, a)? {
            None => return Ok(None),
            Some(next) => product = next,
        }
    }
    Ok(Some(product))
}
