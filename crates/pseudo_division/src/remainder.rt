ghost use Rattle.std.specs.Prelude.{◌≡◌, ◌<◌, ◌≤◌, ◌↔◌, true, [], ◌∷◌, length, IfOk, IfSome, IsTrue};
ghost use Rattle.polynomials.specs.Views.{degree_in};
ghost use Rattle.division_rules.specs.PolynomialRows.{IsPolynomialRow};
ghost use Rattle.division_rules.specs.Rows.{is_reduced_by};
ghost use Rattle.division_rules.specs.Within.{pseudo_turn_within, pseudo_remainder_within, pseudo_remainder_by_within};
ghost use Rattle.pseudo_division.specs.Combinations.{IsCombinationWhere};
ghost use Rattle.pseudo_division.specs.FieldOperations.{operations};

use crate::elimination::{eliminate, times_row};
use crate::leads::lead;
use crate::row::Row;
use mono_words::VARS;
use sparse_poly::Work;
use std::alloc::{AllocError, Global};

/// The pseudo-remainder of `f` by `g` in `v`, whose power of the lead of `g` is one more than the
/// degrees differ; `None` where a product on the way doesn't fit the width.
pub fn prem_full(
    alloc: Global,
    w: Work,
    f: &Row,
    g: &Row,
    v: usize,
) -> Result<Option<Row>, AllocError>
    requires variable { v < VARS }
    requires left { IsPolynomialRow w.field VARS f.now }
    requires right { IsPolynomialRow w.field VARS g.now }
    requires degrees { degree_in v g.now.first ≤ degree_in v f.now.first }
    requires occurs { 1 ≤ degree_in v g.now.first }
    requires cofactors { length f.now.cofactors ≡ length g.now.cofactors }
    ensures value { IfOk result (λ r. r ≡ pseudo_remainder_within (operations w.field) w.width v f.now g.now) }
    ensures over { IfOk result (λ r. IfSome r (IsPolynomialRow w.field VARS)) }
    ensures cofactors { IfOk result (λ r. IfSome r (λ h. length h.cofactors ≡ length f.now.cofactors)) }
    ensures combination { IfOk result (λ r. IfSome r (
        IsCombinationWhere w.field (f.now ∷ g.now ∷ []))) }
{
    w.field.facts();
    full_remainder(alloc, &w, f, g, v)
}

/// The pseudo-remainder, by its turns.
fn full_remainder(
    alloc: Global,
    w: &Work,
    f: &Row,
    g: &Row,
    v: usize,
) -> Result<Option<Row>, AllocError>
    requires variable { v < VARS }
    requires left { IsPolynomialRow w.now.field VARS f.now }
    requires right { IsPolynomialRow w.now.field VARS g.now }
    requires degrees { degree_in v g.now.first ≤ degree_in v f.now.first }
    requires occurs { 1 ≤ degree_in v g.now.first }
    requires cofactors { length f.now.cofactors ≡ length g.now.cofactors }
    ensures value { IfOk result (λ r. r ≡ pseudo_remainder_within
        (operations w.now.field) w.now.width v f.now g.now) }
    ensures over { IfOk result (λ r. IfSome r (IsPolynomialRow w.now.field VARS)) }
    ensures cofactors { IfOk result (λ r. IfSome r (λ h. length h.cofactors ≡ length f.now.cofactors)) }
{
    let further = f.first.degree_in(v) - g.first.degree_in(v);
    match turn(alloc, w, f, g, v)? {
        None => Ok(None),
        Some(row) => turned(alloc, w, row, g, v, further),
    }
}

/// As many turns as `count` says.
fn turned(
    alloc: Global,
    w: &Work,
    f: Row,
    g: &Row,
    v: usize,
    count: u16,
) -> Result<Option<Row>, AllocError>
    requires variable { v < VARS }
    requires left { IsPolynomialRow w.now.field VARS f }
    requires right { IsPolynomialRow w.now.field VARS g.now }
    requires occurs { 1 ≤ degree_in v g.now.first }
    requires cofactors { length f.cofactors ≡ length g.now.cofactors }
    ensures value { IfOk result (λ r. r ≡ pseudo_remainder_by_within
        (operations w.now.field) w.now.width v g.now count f) }
    ensures over { IfOk result (λ r. IfSome r (IsPolynomialRow w.now.field VARS)) }
    ensures cofactors { IfOk result (λ r. IfSome r (λ h. length h.cofactors ≡ length g.now.cofactors)) }
{
    let mut row = f;
    for _ in 0..count {
        match turn(alloc, w, &row, g, v)? {
            None => return Ok(None),
            Some(next) => row = next,
        }
    }
    Ok(Some(row))
}

/// An elimination of `f` by `g` or, where none is left, the lead of `g` times `f`.
fn turn(alloc: Global, w: &Work, f: &Row, g: &Row, v: usize) -> Result<Option<Row>, AllocError>
    requires variable { v < VARS }
    requires left { IsPolynomialRow w.now.field VARS f.now }
    requires right { IsPolynomialRow w.now.field VARS g.now }
    requires occurs { 1 ≤ degree_in v g.now.first }
    requires cofactors { length f.now.cofactors ≡ length g.now.cofactors }
    ensures value { IfOk result (λ r.
        r ≡ pseudo_turn_within (operations w.now.field) w.now.width v g.now f.now) }
    ensures over { IfOk result (λ r. IfSome r (IsPolynomialRow w.now.field VARS)) }
    ensures cofactors { IfOk result (λ r. IfSome r (λ h. length h.cofactors ≡ length f.now.cofactors)) }
{
    if is_reduced(w, f, g, v) {
        let l = lead(w, &g.first, v)?;
        times_row(alloc, w, &l, f)
    } else {
        eliminate(alloc, *w, f, g, v)
    }
}

/// Whether no elimination of `f` by `g` in `v` is left.
pub fn is_reduced(w: &Work, f: &Row, g: &Row, v: usize) -> bool
    requires { v < VARS }
    ensures { IsTrue result ↔ (is_reduced_by (operations w.now.field) v g.now f.now ≡ true) }
{
    f.first.is_zero() || f.first.degree_in(v) < g.first.degree_in(v)
}
