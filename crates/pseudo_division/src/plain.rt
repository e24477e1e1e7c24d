ghost use Rattle.std.specs.Prelude.{◌≡◌, ◌<◌, ◌≤◌, ◌-◌, suc, drop, length, Some, false, IfOk, IfSome, option_map};
ghost use Rattle.polynomials.specs.Polynomials.{Polynomial, IsPolynomial, ArePolynomials};
ghost use Rattle.polynomials.specs.Views.{degree_in, main_var};
ghost use Rattle.division_rules.specs.Chains.{EachRow};
ghost use Rattle.division_rules.specs.Lists.{variable_or_zero};
ghost use Rattle.division_rules.specs.Rows.{Row, plain, plains, is_reduced_by};
ghost use Rattle.division_rules.specs.Triangular.{AreTriangular, HasLessDegree};
ghost use Rattle.division_rules.specs.Within.{elimination_within, sparse_remainder_by_within, sparse_remainder_within, reduction_within};
ghost use Rattle.pseudo_division.specs.FieldOperations.{operations, first_of};

use crate::leads::{lead, shifted_lead};
use mono_words::VARS;
use recursive_poly::cross_leads;
use sparse_poly::{Poly, Polys, Work};
use std::alloc::AllocError;

/// The sparse pseudo-remainders of `f` by the polynomials of `by` in their main variables, the
/// last one first; `None` where a product on the way doesn't fit the width.
pub fn reduce(w: Work, f: &Poly, by: &Polys) -> Result<Option<Poly>, AllocError>
    requires over { IsPolynomial w.field VARS f.now }
    requires chain { ArePolynomials w.field VARS by.now }
    requires triangular { AreTriangular (plains by.now) }
    ensures value { IfOk result (λ r. r ≡ first_of
        (reduction_within (operations w.field) w.width (plains by.now) (plain f.now))) }
    ensures over { IfOk result (λ r. IfSome r (IsPolynomial w.field VARS)) }
    ensures reduced { IfOk result (λ r. IfSome r (λ h. EachRow (HasLessDegree h) (plains by.now))) }
{
    w.field.facts();
    reduced(&w, f, by)
}

/// The sparse pseudo-remainders by the polynomials in turn.
fn reduced(w: &Work, f: &Poly, by: &Polys) -> Result<Option<Poly>, AllocError>
    requires over { IsPolynomial w.now.field VARS f.now }
    requires chain { ArePolynomials w.now.field VARS by.now }
    requires triangular { AreTriangular (plains by.now) }
    ensures value { IfOk result (λ r. option_map plain r ≡ reduction_within
        (operations w.now.field) w.now.width (plains by.now) (plain f.now)) }
    ensures over { IfOk result (λ r. IfSome r (IsPolynomial w.now.field VARS)) }
{
    let left = members_left(w, f, by);
    if left == 0 {
        return Ok(Some(f.copy()?));
    }
    let t = by.at(left - 1);
    match first_remainder(w, f, t)? {
        None => Ok(None),
        Some(h) => reduced_further(w, h, by, left - 1),
    }
}

/// How many polynomials are left once those are passed over that eliminate nothing.
fn members_left(w: &Work, f: &Poly, by: &Polys) -> usize
    requires chain { ArePolynomials w.now.field VARS by.now }
    requires triangular { AreTriangular (plains by.now) }
    ensures most { result ≤ length by.now }
    ensures same { reduction_within (operations w.now.field) w.now.width
        (drop result (plains by.now)) (plain f.now) ≡ Some (plain f.now) }
{
    let mut i = by.count();
    while i > 0 {
        let t = by.at(i - 1);
        if !is_reduced(w, f, t, main_variable(t)) {
            return i;
        }
        i -= 1;
    }
    0
}

/// The sparse pseudo-remainders by the first polynomials, where the others are done.
fn reduced_further(w: &Work, f: Poly, by: &Polys, left: usize) -> Result<Option<Poly>, AllocError>
    requires over { IsPolynomial w.now.field VARS f }
    requires chain { ArePolynomials w.now.field VARS by.now }
    requires triangular { AreTriangular (plains by.now) }
    requires most { left ≤ length by.now }
    // For whatever has come to f by the others.
    ensures value { (g : Row Polynomial) → reduction_within (operations w.now.field) w.now.width
        (drop left (plains by.now)) g ≡ Some (plain f) → IfOk result (λ r. option_map plain r
        ≡ reduction_within (operations w.now.field) w.now.width (plains by.now) g) }
    ensures over { IfOk result (λ r. IfSome r (IsPolynomial w.now.field VARS)) }
{
    let mut h = f;
    let mut i = left;
    while i > 0 {
        i -= 1;
        let t = by.at(i);
        match sparse_remainder(w, h, t)? {
            None => return Ok(None),
            Some(next) => h = next,
        }
    }
    Ok(Some(h))
}

/// The main variable, and 0 for a constant.
fn main_variable(t: &Poly) -> usize
    ensures { result ≡ variable_or_zero (main_var t.now) }
{
    match t.main_var() {
        None => 0,
        Some(v) => v,
    }
}

/// Whether no elimination of `f` by `g` in `v` is left.
fn is_reduced(w: &Work, f: &Poly, g: &Poly, v: usize) -> bool
    requires { v < VARS }
    ensures { result ≡ is_reduced_by (operations w.now.field) v (plain g.now) (plain f.now) }
{
    f.is_zero() || f.degree_in(v) < g.degree_in(v)
}

/// Eliminations of `f` by `g` in its main variable, until none is left.
fn first_remainder(w: &Work, f: &Poly, g: &Poly) -> Result<Option<Poly>, AllocError>
    requires left { IsPolynomial w.now.field VARS f.now }
    requires right { IsPolynomial w.now.field VARS g.now }
    requires variable { variable_or_zero (main_var g.now) < VARS }
    requires occurs { 1 ≤ degree_in (variable_or_zero (main_var g.now)) g.now }
    ensures value { IfOk result (λ r. option_map plain r ≡ sparse_remainder_within
        (operations w.now.field) w.now.width (variable_or_zero (main_var g.now)) (plain f.now) (plain g.now)) }
    ensures over { IfOk result (λ r. IfSome r (IsPolynomial w.now.field VARS)) }
{
    let v = main_variable(g);
    if is_reduced(w, f, g, v) {
        return Ok(Some(f.copy()?));
    }
    let further = f.degree_in(v) - g.degree_in(v);
    match eliminated(w, f, g, v)? {
        None => Ok(None),
        Some(h) => eliminated_further(w, h, g, v, further as u32),
    }
}

/// The same of a polynomial that isn't needed any more.
fn sparse_remainder(w: &Work, f: Poly, g: &Poly) -> Result<Option<Poly>, AllocError>
    requires left { IsPolynomial w.now.field VARS f }
    requires right { IsPolynomial w.now.field VARS g.now }
    requires variable { variable_or_zero (main_var g.now) < VARS }
    requires occurs { 1 ≤ degree_in (variable_or_zero (main_var g.now)) g.now }
    ensures value { IfOk result (λ r. option_map plain r ≡ sparse_remainder_within
        (operations w.now.field) w.now.width (variable_or_zero (main_var g.now)) (plain f) (plain g.now)) }
    ensures over { IfOk result (λ r. IfSome r (IsPolynomial w.now.field VARS)) }
{
    let v = main_variable(g);
    let count = count_turns(&f, g, v);
    eliminated_further(w, f, g, v, count)
}

/// One more than the degrees in `v` differ.
fn count_turns(f: &Poly, g: &Poly, v: usize) -> u32
    requires { v < VARS }
    ensures { result ≡ suc (degree_in v f.now - degree_in v g.now) }
{
    f.degree_in(v).saturating_sub(g.degree_in(v)) as u32 + 1
}

/// At most as many eliminations as `count` says, until none is left.
fn eliminated_further(
    w: &Work,
    f: Poly,
    g: &Poly,
    v: usize,
    count: u32,
) -> Result<Option<Poly>, AllocError>
    requires variable { v < VARS }
    requires left { IsPolynomial w.now.field VARS f }
    requires right { IsPolynomial w.now.field VARS g.now }
    requires occurs { 1 ≤ degree_in v g.now }
    ensures value { IfOk result (λ r. option_map plain r ≡ sparse_remainder_by_within
        (operations w.now.field) w.now.width v (plain g.now) count (plain f)) }
    ensures over { IfOk result (λ r. IfSome r (IsPolynomial w.now.field VARS)) }
{
    let mut h = f;
    for _ in 0..count {
        if is_reduced(w, &h, g, v) {
            return Ok(Some(h));
        }
        match eliminated(w, &h, g, v)? {
            None => return Ok(None),
            Some(next) => h = next,
        }
    }
    Ok(Some(h))
}

/// One elimination.
fn eliminated(w: &Work, f: &Poly, g: &Poly, v: usize) -> Result<Option<Poly>, AllocError>
    requires variable { v < VARS }
    requires left { IsPolynomial w.now.field VARS f.now }
    requires right { IsPolynomial w.now.field VARS g.now }
    requires more { is_reduced_by (operations w.now.field) v (plain g.now) (plain f.now) ≡ false }
    ensures value { IfOk result (λ r. option_map plain r ≡ elimination_within
        (operations w.now.field) w.now.width v (plain f.now) (plain g.now)) }
    ensures over { IfOk result (λ r. IfSome r (IsPolynomial w.now.field VARS)) }
{
    w.field.facts();
    let l = lead(w, g, v)?;
    let m = shifted_lead(w, f, g, v)?;
    cross_leads(w, &l, &m, f, g, v)
}
