ghost use Rattle.std.specs.Prelude.{◌≡◌, ◌<◌, ◌≤◌, ◌+◌, length, IfOk, IfSome};
ghost use Rattle.polynomials.specs.Polynomials.{ArePolynomials};
ghost use Rattle.division_rules.specs.PolynomialRows.{IsPolynomialRow};
ghost use Rattle.division_rules.specs.Units.{entrywise_sum};
ghost use Rattle.pseudo_division.specs.FieldOperations.{operations};
ghost use Rattle.row_laws.specs.Compositions.{spread};
ghost use Rattle.finish_rules.specs.Identities.{composed_within};
ghost use Rattle.certificates.specs.Compositions.{IsComposedWhere};

use field_table::Field;
use mono_words::VARS;
use pseudo_division::{Row, times_all};
use sparse_poly::{Poly, Polys, Work};
use std::alloc::{AllocError, Global};

/// The row `next` over c, t and the polynomials below t, where `sofar` is a row for c, as a row over
/// the generators of `sofar`, among which t has the number `place` behind the first; `None` where a
/// product by the cofactor of c doesn't fit the width.
pub fn compose(
    alloc: Global,
    w: Work,
    sofar: &Row,
    next: &Row,
    place: usize,
) -> Result<Option<Row>, AllocError>
    requires sofar { IsPolynomialRow w.field VARS sofar.now }
    requires next { IsPolynomialRow w.field VARS next.now }
    requires room { place + 1 < length sofar.now.cofactors }
    requires count { length next.now.cofactors ≡ place + 2 }
    ensures value { IfOk result (λ r. r ≡ composed_within w.field VARS w.width sofar.now next.now) }
    ensures identity { IfOk result (λ r. IfSome r (IsComposedWhere w.field sofar.now next.now)) }
{
    w.field.facts();
    composed(alloc, &w, sofar, next, place)
}

fn composed(
    alloc: Global,
    w: &Work,
    sofar: &Row,
    next: &Row,
    place: usize,
) -> Result<Option<Row>, AllocError>
    requires sofar { IsPolynomialRow w.now.field VARS sofar.now }
    requires next { IsPolynomialRow w.now.field VARS next.now }
    requires room { place + 1 < length sofar.now.cofactors }
    requires count { length next.now.cofactors ≡ place + 2 }
    ensures { IfOk result (λ r.
        r ≡ composed_within w.now.field VARS w.now.width sofar.now next.now) }
{
    match times_all(alloc, w, next.cofactors.at(0), &sofar.cofactors)? {
        None => Ok(None),
        Some(multiplied) => {
            let places = spread(alloc, sofar.cofactors.count(), &next.cofactors)?;
            let cofactors = sums(alloc, w.field, &multiplied, &places)?;
            Ok(Some(Row {
                first: next.first.copy()?,
                cofactors,
            }))
        }
    }
}

/// Cofactors of c, t and the polynomials below t at their places among so many generators.
fn spread(alloc: Global, count: usize, cofactors: &Polys) -> Result<Polys, AllocError>
    requires two { 2 ≤ length cofactors.now }
    requires room { length cofactors.now ≤ count }
    ensures { IfOk result (λ r. r ≡ spread count cofactors.now) }
{
    let mut places = Polys::new(alloc);
    places.push(Poly::zero(alloc))?;
    for i in 2..cofactors.count() {
        let a = cofactors.at(i);
        places.push(a.copy()?)?;
    }
    let b = cofactors.at(1);
    places.push(b.copy()?)?;
    for _j in cofactors.count()..count {
        places.push(Poly::zero(alloc))?;
    }
    Ok(places)
}

/// The sums of the entries at the same places.
fn sums(alloc: Global, f: Field, left: &Polys, right: &Polys) -> Result<Polys, AllocError>
    requires left { ArePolynomials f VARS left.now }
    requires right { ArePolynomials f VARS right.now }
    requires pairs { length left.now ≡ length right.now }
    ensures { IfOk result (λ r. r ≡ entrywise_sum (operations f) left.now right.now) }
{
    let mut entries = Polys::new(alloc);
    for i in 0..left.count() {
        let (a, b) = (left.at(i), right.at(i));
        entries.push(a.add(f, b)?)?;
    }
    Ok(entries)
}
