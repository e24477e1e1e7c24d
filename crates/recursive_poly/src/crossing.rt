ghost use Rattle.std.specs.Prelude.{◌≡◌, ◌<◌, ◌≤◌, IfOk, IfSome};
ghost use Rattle.polynomials.specs.Polynomials.{IsPolynomial};
ghost use Rattle.polynomials.specs.Views.{degree_in, lead_in};
ghost use Rattle.division_rules.specs.Operations.{shifted_lead};
ghost use Rattle.division_rules.specs.Lists.{list_operations};
ghost use Rattle.division_rules.specs.Within.{times_within, cross_within};

use mono_words::VARS;
use sparse_poly::{Poly, Work, difference_of_tails, fits};
use std::alloc::AllocError;

/// The product, and `None` where it doesn't fit the width.
fn times(w: &Work, a: &Poly, b: &Poly) -> Result<Option<Poly>, AllocError>
    requires left { IsPolynomial w.now.field VARS a.now }
    requires right { IsPolynomial w.now.field VARS b.now }
    ensures value { IfOk result (λ r. r
        ≡ times_within (list_operations w.now.field VARS) w.now.width a.now b.now) }
    ensures over { IfOk result (λ r. IfSome r (IsPolynomial w.now.field VARS)) }
{
    a.mul(*w, b)
}

/// The difference `l a - m b`, and `None` where one of its products doesn't fit the width.
pub fn cross(w: &Work, l: &Poly, m: &Poly, a: &Poly, b: &Poly) -> Result<Option<Poly>, AllocError>
    requires first { IsPolynomial w.now.field VARS l.now }
    requires second { IsPolynomial w.now.field VARS m.now }
    requires left { IsPolynomial w.now.field VARS a.now }
    requires right { IsPolynomial w.now.field VARS b.now }
    ensures value { IfOk result (λ r. r ≡ cross_within (list_operations w.now.field VARS)
        w.now.width l.now m.now a.now b.now) }
    ensures over { IfOk result (λ r. IfSome r (IsPolynomial w.now.field VARS)) }
{
    match times(w, l, a)? {
        None => Ok(None),
        Some(left) => match times(w, m, b)? {
            None => Ok(None),
            Some(right) => Ok(Some(left.sub(w.field, &right)?)),
        },
    }
}

/// The same of the lead of `g` in `v` and of that of `f`, raised to the same degree: both multiples
/// have one lead, so that where `v` is the greatest variable, the tails as they stand are enough.
pub fn cross_leads(
    w: &Work,
    l: &Poly,
    m: &Poly,
    f: &Poly,
    g: &Poly,
    v: usize,
) -> Result<Option<Poly>, AllocError>
    requires variable { v < VARS }
    requires first { IsPolynomial w.now.field VARS l.now }
    requires second { IsPolynomial w.now.field VARS m.now }
    requires left { IsPolynomial w.now.field VARS f.now }
    requires right { IsPolynomial w.now.field VARS g.now }
    requires degrees { degree_in v g.now ≤ degree_in v f.now }
    requires lead { l.now ≡ lead_in v g.now }
    requires shifted { m.now
        ≡ shifted_lead (list_operations w.now.field VARS) v f.now g.now }
    ensures value { IfOk result (λ r. r ≡ cross_within (list_operations w.now.field VARS)
        w.now.width l.now m.now f.now g.now) }
    ensures over { IfOk result (λ r. IfSome r (IsPolynomial w.now.field VARS)) }
{
    if !f.is_free_above(v) || !g.is_free_above(v) {
        return cross(w, l, m, f, g);
    }
    if !fits(w.width, l, f) {
        return Ok(None);
    }
    if !fits(w.width, m, g) {
        return Ok(None);
    }
    w.field.facts();
    Ok(Some(difference_of_tails(w, l, f, m, g, v)?))
}
