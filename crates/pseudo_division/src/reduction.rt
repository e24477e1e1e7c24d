ghost use Rattle.std.specs.Prelude.{◌≡◌, ◌<◌, ◌≤◌, ◌-◌, suc, ◌∷◌, length, IfOk, IfSome};
ghost use Rattle.polynomials.specs.Views.{degree_in, main_var};
ghost use Rattle.division_rules.specs.Chains.{EachRow};
ghost use Rattle.division_rules.specs.Lists.{variable_or_zero};
ghost use Rattle.division_rules.specs.PolynomialRows.{IsPolynomialRow, ArePolynomialRows};
ghost use Rattle.division_rules.specs.Triangular.{AreTriangular, HasLessDegree};
ghost use Rattle.division_rules.specs.Within.{reduction_within, sparse_remainder_within, sparse_remainder_by_within};
ghost use Rattle.pseudo_division.specs.Combinations.{IsCombinationWhere};
ghost use Rattle.pseudo_division.specs.FieldOperations.{operations};

use crate::elimination::eliminate;
use crate::remainder::is_reduced;
use crate::row::{Row, Rows};
use mono_words::VARS;
use sparse_poly::Work;
use std::alloc::{AllocError, Global};

/// The sparse pseudo-remainders of `f` by the rows of `by` in their main variables, the last row
/// first; `None` where a product on the way doesn't fit the width.
pub fn reduce_rows(alloc: Global, w: Work, f: Row, by: &Rows) -> Result<Option<Row>, AllocError>
    requires row { IsPolynomialRow w.field VARS f }
    requires chain { ArePolynomialRows w.field VARS by.now }
    requires triangular { AreTriangular by.now }
    requires cofactors { EachRow (λ t. length t.cofactors ≡ length f.cofactors) by.now }
    ensures value { IfOk result (λ r. r ≡ reduction_within (operations w.field) w.width by.now f) }
    ensures over { IfOk result (λ r. IfSome r (IsPolynomialRow w.field VARS)) }
    ensures cofactors { IfOk result (λ r. IfSome r (λ h. length h.cofactors ≡ length f.cofactors)) }
    ensures combination { IfOk result (λ r. IfSome r (
        IsCombinationWhere w.field (f ∷ by.now))) }
    ensures reduced { IfOk result (λ r. IfSome r (λ h. EachRow (HasLessDegree h.first) by.now)) }
{
    w.field.facts();
    reduced(alloc, w, f, by)
}

/// The sparse pseudo-remainders by the rows in turn.
fn reduced(alloc: Global, w: Work, f: Row, by: &Rows) -> Result<Option<Row>, AllocError>
    requires row { IsPolynomialRow w.field VARS f }
    requires chain { ArePolynomialRows w.field VARS by.now }
    requires triangular { AreTriangular by.now }
    requires cofactors { EachRow (λ t. length t.cofactors ≡ length f.cofactors) by.now }
    ensures value { IfOk result (λ r. r ≡ reduction_within (operations w.field) w.width by.now f) }
    ensures over { IfOk result (λ r. IfSome r (IsPolynomialRow w.field VARS)) }
    ensures cofactors { IfOk result (λ r. IfSome r (λ h. length h.cofactors ≡ length f.cofactors)) }
{
    let mut row = f;
    let mut i = by.count();
    while i > 0 {
        i -= 1;
        let t = by.at(i);
        match sparse_remainder(alloc, &w, row, t)? {
            None => return Ok(None),
            Some(next) => row = next,
        }
    }
    Ok(Some(row))
}

/// Eliminations of `f` by `g` in its main variable, until none is left.
fn sparse_remainder(alloc: Global, w: &Work, f: Row, g: &Row) -> Result<Option<Row>, AllocError>
    requires left { IsPolynomialRow w.now.field VARS f }
    requires right { IsPolynomialRow w.now.field VARS g.now }
    requires variable { variable_or_zero (main_var g.now.first) < VARS }
    requires occurs { 1 ≤ degree_in (variable_or_zero (main_var g.now.first)) g.now.first }
    requires cofactors { length f.cofactors ≡ length g.now.cofactors }
    ensures value { IfOk result (λ r. r ≡ sparse_remainder_within (operations w.now.field) w.now.width
        (variable_or_zero (main_var g.now.first)) f g.now) }
    ensures over { IfOk result (λ r. IfSome r (IsPolynomialRow w.now.field VARS)) }
    ensures cofactors { IfOk result (λ r. IfSome r (λ h. length h.cofactors ≡ length g.now.cofactors)) }
{
    let v = match g.first.main_var() {
        None => 0,
        Some(v) => v,
    };
    let count = count_turns(&f, g, v);
    eliminated(alloc, w, f, g, v, count)
}

/// One more than the degrees in `v` differ.
fn count_turns(f: &Row, g: &Row, v: usize) -> u32
    requires { v < VARS }
    ensures { result ≡ suc (degree_in v f.now.first - degree_in v g.now.first) }
{
    f.first.degree_in(v).saturating_sub(g.first.degree_in(v)) as u32 + 1
}

/// At most as many eliminations of `f` by `g` in `v` as `count` says, until none is left.
fn eliminated(
    alloc: Global,
    w: &Work,
    f: Row,
    g: &Row,
    v: usize,
    count: u32,
) -> Result<Option<Row>, AllocError>
    requires variable { v < VARS }
    requires left { IsPolynomialRow w.now.field VARS f }
    requires right { IsPolynomialRow w.now.field VARS g.now }
    requires occurs { 1 ≤ degree_in v g.now.first }
    requires cofactors { length f.cofactors ≡ length g.now.cofactors }
    ensures value { IfOk result (λ r. r ≡ sparse_remainder_by_within
        (operations w.now.field) w.now.width v g.now count f) }
    ensures over { IfOk result (λ r. IfSome r (IsPolynomialRow w.now.field VARS)) }
    ensures cofactors { IfOk result (λ r. IfSome r (λ h. length h.cofactors ≡ length g.now.cofactors)) }
{
    let mut row = f;
    for _ in 0..count {
        if is_reduced(w, &row, g, v) {
            return Ok(Some(row));
        }
        match eliminate(alloc, *w, &row, g, v)? {
            None => return Ok(None),
            Some(next) => row = next,
        }
    }
    Ok(Some(row))
}
