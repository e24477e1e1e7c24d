ghost use Rattle.std.specs.Prelude.{◌≡◌, ◌≤◌, IfOk, IfSome, option_map};
ghost use Rattle.polynomials.specs.Polynomials.{IsPolynomial};
ghost use Rattle.polynomials.specs.Views.{degree_in};
ghost use Rattle.division_rules.specs.Operations.{shifted_lead};
ghost use Rattle.division_rules.specs.Lists.{list_operations};
ghost use Rattle.division_rules.specs.Rows.{plain};
ghost use Rattle.division_rules.specs.Within.{elimination_within};
ghost use Rattle.recursive_poly.specs.Recursive.{whole};

use crate::crossing::cross_leads;
use crate::rec_poly::RecPoly;
use mono_words::VARS;
use sparse_poly::{Poly, Work};
use std::alloc::AllocError;

/// The lead of `g` times `f`, less the multiple of `g` with the same lead, and `None` where one of
/// the two products doesn't fit the width.
pub fn eliminate_rec(w: Work, f: &RecPoly, g: &RecPoly) -> Result<Option<RecPoly>, AllocError>
    requires variable { f.now.variable ≡ g.now.variable }
    requires left { IsPolynomial w.field VARS (whole f.now) }
    requires right { IsPolynomial w.field VARS (whole g.now) }
    requires degrees { degree_in g.now.variable (whole g.now)
        ≤ degree_in f.now.variable (whole f.now) }
    requires occurs { 1 ≤ degree_in g.now.variable (whole g.now) }
    ensures value { IfOk result (λ r. option_map (λ h. plain (whole h)) r
        ≡ elimination_within (list_operations w.field VARS) w.width f.now.variable
        (plain (whole f.now)) (plain (whole g.now))) }
    ensures over { IfOk result (λ r. IfSome r (λ h. IsPolynomial w.field VARS (whole h))) }
    ensures variable { IfOk result (λ r. IfSome r (λ h. h.variable ≡ f.now.variable)) }
{
    let v = f.variable();
    let l = g.lead()?;
    let m = shifted_lead(&w, f, g)?;
    match cross_leads(&w, &l, &m, f.as_poly(), g.as_poly(), v)? {
        None => Ok(None),
        Some(h) => Ok(Some(RecPoly::from_poly(h, v))),
    }
}

/// The lead of `f`, times the variable to the power by which its degree passes that of `g`.
fn shifted_lead(w: &Work, f: &RecPoly, g: &RecPoly) -> Result<Poly, AllocError>
    requires over { IsPolynomial w.now.field VARS (whole f.now) }
    requires variable { f.now.variable ≡ g.now.variable }
    requires degrees { degree_in g.now.variable (whole g.now)
        ≤ degree_in f.now.variable (whole f.now) }
    ensures value { IfOk result (λ r. r ≡ shifted_lead (list_operations w.now.field VARS)
        f.now.variable (whole f.now) (whole g.now)) }
    ensures over { IfOk result (IsPolynomial w.now.field VARS) }
{
    f.lead()?
        .times_power(w.field, f.variable(), f.degree() - g.degree())
}
