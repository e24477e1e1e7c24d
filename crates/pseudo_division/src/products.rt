ghost use Rattle.std.specs.Prelude.{◌≡◌, ◌<◌, ◌≤◌, length, IfOk, IfSome};
ghost use Rattle.polynomials.specs.Polynomials.{IsPolynomial, ArePolynomials};
ghost use Rattle.division_rules.specs.Within.{times_within, cross_all_within, times_all_within};
ghost use Rattle.pseudo_division.specs.FieldOperations.{operations};

use mono_words::VARS;
use recursive_poly::cross;
use sparse_poly::{Poly, Polys, Work};
use std::alloc::{AllocError, Global};

/// The product, and `None` where it doesn't fit the width.
pub fn times(w: &Work, a: &Poly, b: &Poly) -> Result<Option<Poly>, AllocError>
    requires left { IsPolynomial w.now.field VARS a.now }
    requires right { IsPolynomial w.now.field VARS b.now }
    ensures value { IfOk result (λ r. r ≡ times_within (operations w.now.field) w.now.width a.now b.now) }
    ensures over { IfOk result (λ r. IfSome r (IsPolynomial w.now.field VARS)) }
{
    a.mul(*w, b)
}

/// The differences `l a - m b` of each pair of entries, and `None` where a product doesn't fit.
pub fn cross_all(
    alloc: Global,
    w: &Work,
    l: &Poly,
    m: &Poly,
    left: &Polys,
    right: &Polys,
) -> Result<Option<Polys>, AllocError>
    requires first { IsPolynomial w.now.field VARS l.now }
    requires second { IsPolynomial w.now.field VARS m.now }
    requires left { ArePolynomials w.now.field VARS left.now }
    requires right { ArePolynomials w.now.field VARS right.now }
    requires pairs { length left.now ≡ length right.now }
    ensures value { IfOk result (λ r.
        r ≡ cross_all_within (operations w.now.field) w.now.width l.now m.now left.now right.now) }
    ensures count { IfOk result (λ r. IfSome r (λ xs. length xs ≡ length left.now)) }
{
    let mut entries = Polys::new(alloc);
    for i in 0..left.count() {
        let (a, b) = (left.at(i), right.at(i));
        match cross(w, l, m, a, b)? {
            None => return Ok(None),
            Some(entry) => entries.push(entry)?,
        }
    }
    Ok(Some(entries))
}

/// Each entry times `l`, and `None` where a product doesn't fit.
pub fn times_all(
    alloc: Global,
    w: &Work,
    l: &Poly,
    list: &Polys,
) -> Result<Option<Polys>, AllocError>
    requires factor { IsPolynomial w.now.field VARS l.now }
    requires over { ArePolynomials w.now.field VARS list.now }
    ensures value { IfOk result (λ r. r ≡ times_all_within (operations w.now.field) w.now.width l.now list.now) }
    ensures over { IfOk result (λ r. IfSome r (ArePolynomials w.now.field VARS)) }
    ensures count { IfOk result (λ r. IfSome r (λ xs. length xs ≡ length list.now)) }
{
    let mut entries = Polys::new(alloc);
    for i in 0..list.count() {
        let a = list.at(i);
        match times(w, l, a)? {
            None => return Ok(None),
            Some(entry) => entries.push(entry)?,
        }
    }
    Ok(Some(entries))
}
