ghost use Rattle.std.specs.Prelude.{◌≡◌, ◌<◌, ◌≤◌, [], ◌∷◌, length, IfOk, IfSome};
ghost use Rattle.polynomials.specs.Polynomials.{IsPolynomial};
ghost use Rattle.polynomials.specs.Views.{degree_in};
ghost use Rattle.division_rules.specs.PolynomialRows.{IsPolynomialRow};
ghost use Rattle.division_rules.specs.Within.{elimination_within, times_row_within};
ghost use Rattle.pseudo_division.specs.Combinations.{IsCombinationWhere};
ghost use Rattle.pseudo_division.specs.FieldOperations.{operations};

use crate::leads::{lead, shifted_lead};
use crate::products::{cross_all, times, times_all};
use crate::row::Row;
use mono_words::VARS;
use recursive_poly::cross_leads;
use sparse_poly::{Poly, Work};
use std::alloc::{AllocError, Global};

/// The lead of `g` in `v` times `f`, less the multiple of `g` with the same lead, in each entry;
/// `None` where one of the products doesn't fit the width.
pub fn eliminate(
    alloc: Global,
    w: Work,
    f: &Row,
    g: &Row,
    v: usize,
) -> Result<Option<Row>, AllocError>
    requires variable { v < VARS }
    requires left { IsPolynomialRow w.field VARS f.now }
    requires right { IsPolynomialRow w.field VARS g.now }
    requires degrees { degree_in v g.now.first ≤ degree_in v f.now.first }
    requires occurs { 1 ≤ degree_in v g.now.first }
    requires cofactors { length f.now.cofactors ≡ length g.now.cofactors }
    ensures value { IfOk result (λ r. r ≡ elimination_within (operations w.field) w.width v f.now g.now) }
    ensures over { IfOk result (λ r. IfSome r (IsPolynomialRow w.field VARS)) }
    ensures cofactors { IfOk result (λ r. IfSome r (λ h. length h.cofactors ≡ length f.now.cofactors)) }
    ensures combination { IfOk result (λ r. IfSome r (
        IsCombinationWhere w.field (f.now ∷ g.now ∷ []))) }
{
    w.field.facts();
    let (a, b) = (&f.first, &g.first);
    let l = lead(&w, b, v)?;
    let m = shifted_lead(&w, a, b, v)?;
    match cross_leads(&w, &l, &m, a, b, v)? {
        None => Ok(None),
        Some(first) => match cross_all(alloc, &w, &l, &m, &f.cofactors, &g.cofactors)? {
            None => Ok(None),
            Some(cofactors) => Ok(Some(Row { first, cofactors })),
        },
    }
}

/// Each entry of `f` times `l`, and `None` where one of the products doesn't fit the width.
pub fn times_row(alloc: Global, w: &Work, l: &Poly, f: &Row) -> Result<Option<Row>, AllocError>
    requires factor { IsPolynomial w.now.field VARS l.now }
    requires row { IsPolynomialRow w.now.field VARS f.now }
    ensures value { IfOk result (λ r. r ≡ times_row_within (operations w.now.field) w.now.width l.now f.now) }
    ensures over { IfOk result (λ r. IfSome r (IsPolynomialRow w.now.field VARS)) }
    ensures cofactors { IfOk result (λ r. IfSome r (λ h. length h.cofactors ≡ length f.now.cofactors)) }
{
    w.field.facts();
    match times(w, l, &f.first)? {
        None => Ok(None),
        Some(first) => match times_all(alloc, w, l, &f.cofactors)? {
            None => Ok(None),
            Some(cofactors) => Ok(Some(Row { first, cofactors })),
        },
    }
}
