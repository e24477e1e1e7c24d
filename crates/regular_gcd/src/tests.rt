ghost use Rattle.std.specs.Prelude.{IfOk, IfSome};
ghost use Rattle.polynomials.specs.Polynomials.{IsPolynomial};
ghost use Rattle.division_rules.specs.PolynomialRows.{IsPolynomialRow};
ghost use Rattle.subresultants.specs.Ends.{HasLeads};

use super::*;
use chains::NonZero;
use field_table::Field;
use mono_words::{Mono, VARS};
use sparse_poly::{Poly, Polys, Work};
use std::alloc::{AllocError, Global};
use std::test::Fail;
use subresultants::{Remainders, RowEnds, remainder_rows};

/// The place of x among the variables a and x.
const X: usize = 1;

/// A term `c a^d x^k`.
type Term = (u32, u16, u16);

/// The polynomial with these terms.
fn poly(alloc: Global, f: Field, terms: &[Term]) -> Result<Poly, AllocError>
    ensures { IfOk result (IsPolynomial f VARS) }
{
    let mut list = Vec::new(alloc);
    for (c, d, k) in terms {
        let a = Mono::power(0, *d);
        let x = Mono::power(X, *k);
        if *c < f.prime() {
            list.push((a.max_exponents(x), *c))?;
        }
    }
    Poly::from_terms(alloc, f, &list)
}

/// The remainder rows of `t` and `c` in x, where they start rows.
fn rows_of(alloc: Global, w: Work, t: &Poly, c: &Poly) -> Result<Option<RowEnds>, AllocError>
    requires first { IsPolynomial w.field VARS t.now }
    requires second { IsPolynomial w.field VARS c.now }
    ensures last { IfOk result (λ o. IfSome o (λ r. IsPolynomialRow w.field VARS r.last)) }
    ensures leads { IfOk result (λ o. IfSome o (HasLeads w.field)) }
{
    let below = Polys::new(alloc);
    if c.degree_in(X) < 1 || c.degree_in(X) >= t.degree_in(X) {
        return Ok(None);
    }
    match remainder_rows(alloc, w, t, c, X, &below, false)? {
        Remainders::TooWide => Ok(None),
        Remainders::Coprime(rows) => Ok(Some(rows)),
        Remainders::Common(rows, _zero) => Ok(Some(rows)),
    }
}

fn places_are(places: &Places, expected: &[usize]) -> bool {
    for (i, place) in expected.iter().enumerate() {
        if i >= places.count() || places.at(i) != place {
            return false;
        }
    }
    places.count() == expected.len()
}

/// Whether the rows of two polynomials modulo 5 have these lead cases, where a third one doesn't vanish,
/// and this last row without the leads.
fn gives(
    alloc: Global,
    starts: [&[Term]; 2],
    known: &[Term],
    places: &[usize],
    divisor: &[Term],
) -> Result<bool, Fail> {
    let field = Field::of(5)?;
    let w = Work { field, width: 1000 };
    let t = poly(alloc, field, starts[0])?;
    let c = poly(alloc, field, starts[1])?;
    let h = poly(alloc, field, known)?;
    let mut nonzero = NonZero::empty(alloc);
    if !h.is_zero() {
        nonzero.add(field, &h)?;
    }
    match rows_of(alloc, w, &t, &c)? {
        None => Ok(false),
        Some(rows) => {
            let cases = lead_cases(alloc, field, &rows, &nonzero)?;
            let last = common(alloc, w, &rows)?;
            Ok(places_are(&cases, places) && last == poly(alloc, field, divisor)?)
        }
    }
}

#[test]
fn leads_are_those_of_an_independent_program(rt: HostRuntime) -> Result<(), Fail> {
    let alloc = rt.alloc();
    // x^2 + 4a and x: the lead 4a has a case, unless a doesn't vanish.
    let starts: [&[Term]; 2] = [&[(1, 0, 2), (4, 1, 0)], &[(1, 0, 1)]];
    assert!(rt; gives(alloc, starts, &[], &[2], &[(1, 0, 0)])?);
    assert!(rt; gives(alloc, starts, &[(3, 1, 0)], &[], &[(1, 0, 0)])?);
    // x + 4 divides x^2 + 4.
    let starts: [&[Term]; 2] = [&[(1, 0, 2), (4, 0, 0)], &[(1, 0, 1), (4, 0, 0)]];
    assert!(rt; gives(alloc, starts, &[], &[], &[(1, 0, 1), (4, 0, 0)])?);
    Ok(())
}

#[test]
fn the_last_row_loses_its_leads(rt: HostRuntime) -> Result<(), Fail> {
    let alloc = rt.alloc();
    // (x + 1) (x^2 + a) and (x + 1) (2 a x + 1).
    let starts: [&[Term]; 2] = [
        &[(1, 0, 3), (1, 0, 2), (1, 1, 1), (1, 1, 0)],
        &[(2, 1, 2), (2, 1, 1), (1, 0, 1), (1, 0, 0)],
    ];
    let divisor: &[Term] = &[(1, 0, 1), (1, 0, 0)];
    assert!(rt; gives(alloc, starts, &[(1, 1, 0)], &[2], divisor)?);
    assert!(rt; gives(alloc, starts, &[(1, 3, 0), (4, 0, 0)], &[], divisor)?);
    Ok(())
}

fn crosses<T: Send + Sync>(_: &T) {}

#[test]
fn places_move_between_threads_and_are_shared(rt: HostRuntime) -> Result<(), Fail> {
    let mut places = Places::new(rt.alloc());
    places.push(2)?;
    crosses(&places);
    assert!(rt; places_are(&places, &[2]));
    Ok(())
}
