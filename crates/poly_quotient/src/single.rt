ghost use Rattle.std.specs.Prelude.{◌≡◌, ◌≢◌, [], Some, None, length, IfOk, IfSome, IfNone};
ghost use Rattle.polynomials.specs.Polynomials.{IsPolynomial};
ghost use Rattle.division_rules.specs.Quotients.{quotient_within};

use mono_words::{Mono, VARS};
use sparse_poly::{Poly, Work};
use std::alloc::{AllocError, Global};

/// The terms of the quotient of `a` by a single term: one pass, as no terms meet.
pub fn divided_by_term(
    alloc: Global,
    w: Work,
    a: &Poly,
    b: &Poly,
) -> Result<Option<Vec<(Mono, u32)>>, AllocError>
    requires left { IsPolynomial w.field VARS a.now }
    requires right { IsPolynomial w.field VARS b.now }
    requires single { length b.now ≡ 1 }
    requires some { a.now ≢ [] }
    ensures quotient { IfOk result (λ r. IfSome r (λ q.
        quotient_within w.field w.width a.now b.now ≡ Some q.items)) }
    ensures none { IfOk result (λ r. IfNone r (quotient_within w.field w.width a.now b.now ≡ None)) }
{
    let f = w.field;
    f.facts();
    let by = b.terms()[0];
    if a.term_count() > w.width as usize {
        return Ok(None);
    }
    let inverse = f.inv(by.1);
    let terms = a.terms();
    let mut quotient = Vec::with_capacity(alloc, terms.len())?;
    for t in terms {
        if !by.0.divides(t.0) {
            return Ok(None);
        }
        let monomial = t.0.quotient(by.0);
        // Tells how many exponents it has.
        monomial.shape();
        quotient.push((monomial, f.mul(t.1, inverse)))?;
    }
    Ok(Some(quotient))
}
