ghost use Rattle.std.specs.Prelude.{◌≡◌, ◌≢◌, ◌↔◌, [], IfOk, IsTrue, unwrap_or};
ghost use Rattle.polynomials.specs.Polynomials.{IsPolynomial, ArePolynomials, one_of};
ghost use Rattle.division_rules.specs.PolynomialRows.{IsPolynomialRow};
ghost use Rattle.division_rules.specs.RemainderRows.{quotients, divided};
ghost use Rattle.pseudo_division.specs.FieldOperations.{operations};

use mono_words::VARS;
use poly_quotient::quo;
use pseudo_division::Row;
use sparse_poly::{Poly, Polys, Work};
use std::alloc::{AllocError, Global};

/// The row divided by `b`, and the row itself where an entry has no quotient.
pub fn divided(alloc: Global, w: &Work, row: Row, b: &Poly) -> Result<Row, AllocError>
    requires row { IsPolynomialRow w.now.field VARS row }
    requires divisor { IsPolynomial w.now.field VARS b.now }
    requires nonzero { b.now ≢ [] }
    ensures { IfOk result (λ r. r ≡ unwrap_or (divided (operations w.now.field) w.now.width b.now row) row) }
{
    w.field.facts();
    let whole = is_one(alloc, w, b)?;
    if whole {
        return Ok(row);
    }
    match quotient(alloc, w, &row, b)? {
        None => Ok(row),
        Some(quotient) => Ok(quotient),
    }
}

/// Whether `b` is 1, by which a quotient would be a copy.
pub fn is_one(alloc: Global, w: &Work, b: &Poly) -> Result<bool, AllocError>
    ensures { IfOk result (λ r. IsTrue r ↔ (b.now ≡ one_of VARS)) }
{
    w.field.facts();
    let one = Poly::constant(alloc, w.field, 1)?;
    Ok(*b == one)
}

/// The quotients of all entries, where each has one.
fn quotient(alloc: Global, w: &Work, row: &Row, b: &Poly) -> Result<Option<Row>, AllocError>
    requires row { IsPolynomialRow w.now.field VARS row.now }
    requires divisor { IsPolynomial w.now.field VARS b.now }
    requires nonzero { b.now ≢ [] }
    ensures { IfOk result (λ r. r ≡ divided (operations w.now.field) w.now.width b.now row.now) }
{
    match quo(alloc, *w, &row.first, b)? {
        None => Ok(None),
        Some(first) => match quotients(alloc, w, &row.cofactors, b)? {
            None => Ok(None),
            Some(cofactors) => Ok(Some(Row { first, cofactors })),
        },
    }
}

/// The quotients of a list, where each has one.
fn quotients(alloc: Global, w: &Work, list: &Polys, b: &Poly) -> Result<Option<Polys>, AllocError>
    requires over { ArePolynomials w.now.field VARS list.now }
    requires divisor { IsPolynomial w.now.field VARS b.now }
    requires nonzero { b.now ≢ [] }
    ensures { IfOk result (λ r. r ≡ quotients (operations w.now.field) w.now.width b.now list.now) }
{
    let mut entries = Polys::new(alloc);
    for i in 0..list.count() {
        let a = list.at(i);
        match quo(alloc, *w, a, b)? {
            None => return Ok(None),
            Some(entry) => entries.push(entry)?,
        }
    }
    Ok(Some(entries))
}
