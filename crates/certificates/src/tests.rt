ghost use Rattle.std.specs.Prelude.{◌≡◌, length, IfOk};
ghost use Rattle.polynomials.specs.Polynomials.{IsPolynomial, ArePolynomials};
ghost use Rattle.zero_sets.specs.Certificates.{IsCertificateOver};
ghost use Rattle.division_rules.specs.PolynomialRows.{IsPolynomialRow};

use super::*;
use chains::Chain;
use field_table::Field;
use mono_words::{Mono, VARS};
use pseudo_division::Row;
use sparse_poly::{Poly, Polys, Work};
use std::alloc::{AllocError, Global};
use std::test::Fail;

/// Terms `c a^d x^e y^g`, as `(c, d, e, g)`.
type Terms<'a> = &'a [(u32, u16, u16, u16)];

/// A first entry, and its cofactors.
type Entries<'a> = (Terms<'a>, &'a [Terms<'a>]);

/// A main variable, a cofactor of the initial, those of the polynomials below, and the value.
type Parts<'a> = (usize, Terms<'a>, &'a [Terms<'a>], Terms<'a>);

/// The polynomial with these terms.
fn poly(alloc: Global, f: Field, terms: Terms<'_>) -> Result<Poly, AllocError>
    ensures { IfOk result (IsPolynomial f VARS) }
{
    let mut list = Vec::new(alloc);
    for (c, d, e, g) in terms {
        let a = Mono::power(0, *d);
        let x = Mono::power(1, *e);
        let y = Mono::power(2, *g);
        if *c < f.prime() {
            list.push((a.max_exponents(x).max_exponents(y), *c))?;
        }
    }
    Poly::from_terms(alloc, f, &list)
}

fn polys(alloc: Global, f: Field, all: &[Terms<'_>]) -> Result<Polys, AllocError>
    ensures { IfOk result (ArePolynomials f VARS) }
{
    let mut list = Polys::new(alloc);
    for terms in all {
        list.push(poly(alloc, f, terms)?)?;
    }
    Ok(list)
}

fn row(alloc: Global, f: Field, entries: Entries<'_>) -> Result<Row, AllocError>
    ensures { IfOk result (IsPolynomialRow f VARS) }
{
    Ok(Row {
        first: poly(alloc, f, entries.0)?,
        cofactors: polys(alloc, f, entries.1)?,
    })
}

fn chain(alloc: Global, f: Field, all: &[Terms<'_>]) -> Result<Chain, AllocError>
    ensures { IfOk result (ArePolynomials f VARS) }
{
    let mut chain = Chain::empty(alloc);
    for terms in all {
        chain = chain.with_poly(alloc, poly(alloc, f, terms)?)?;
    }
    Ok(chain)
}

fn certificate(alloc: Global, f: Field, parts: Parts<'_>) -> Result<Certificate, AllocError>
    ensures { IfOk result (IsCertificateOver f VARS) }
{
    let (of, cofactor, below, value) = parts;
    Ok(Certificate::new(
        of,
        poly(alloc, f, cofactor)?,
        polys(alloc, f, below)?,
        poly(alloc, f, value)?,
    ))
}

/// Whether the row has these entries; none are due where there is no row.
fn is_row(
    alloc: Global,
    f: Field,
    found: Option<Row>,
    due: Option<Entries<'_>>,
) -> Result<bool, AllocError> {
    match (found, due) {
        (None, None) => Ok(true),
        (Some(found), Some(due)) => {
            let due = row(alloc, f, due)?;
            Ok(found.first == due.first && have_same(&found.cofactors, &due.cofactors))
        }
        _ => Ok(false),
    }
}

fn have_same(list: &Polys, due: &Polys) -> bool {
    if list.count() != due.count() {
        return false;
    }
    for i in 0..list.count() {
        if i < due.count() && list.at(i) != due.at(i) {
            return false;
        }
    }
    true
}

/// Whether two rows modulo 5 are composed to `due`; false where they can't be.
fn composes(
    alloc: Global,
    width: u32,
    sofar: Entries<'_>,
    next: Entries<'_>,
    due: Option<Entries<'_>>,
) -> Result<bool, Fail> {
    let field = Field::of(5)?;
    let sofar = row(alloc, field, sofar)?;
    let next = row(alloc, field, next)?;
    let count = next.cofactors.count();
    if count < 2 || count > sofar.cofactors.count() {
        return Ok(false);
    }
    let found = compose(alloc, Work { field, width }, &sofar, &next, count - 2)?;
    Ok(is_row(alloc, field, found, due)?)
}

#[test]
fn an_identity_is_composed_with_a_row(rt: HostRuntime) -> Result<(), Fail> {
    let alloc = rt.alloc();
    let one: Terms<'_> = &[(1, 0, 0, 0)];
    let x: Terms<'_> = &[(1, 0, 1, 0)];
    let four_x: Terms<'_> = &[(4, 0, 1, 0)];
    let four_a: Terms<'_> = &[(4, 1, 0, 0)];
    // x is itself, and 4a is 4x times x and x^2 + 4a.
    let next: Entries<'_> = (four_a, &[four_x, one]);
    let both: Entries<'_> = (four_a, &[four_x, one]);
    assert!(rt; composes(alloc, 1, (x, &[one, &[]]), next, Some(both))?);
    assert!(rt; composes(alloc, 0, (x, &[one, &[]]), next, None)?);
    Ok(())
}

#[test]
fn cofactors_are_added_at_their_places(rt: HostRuntime) -> Result<(), Fail> {
    let alloc = rt.alloc();
    let one: Terms<'_> = &[(1, 0, 0, 0)];
    let two: Terms<'_> = &[(2, 0, 0, 0)];
    let three: Terms<'_> = &[(3, 0, 0, 0)];
    let a: Terms<'_> = &[(1, 1, 0, 0)];
    let x: Terms<'_> = &[(1, 0, 1, 0)];
    // Among the initial and three polynomials, of which the second or the third is t.
    let sofar: Entries<'_> = (a, &[one, two, three, x]);
    let next: Entries<'_> = (x, &[a, one, two]);
    let due: Entries<'_> = (
        x,
        &[
            a,
            &[(2, 1, 0, 0), (2, 0, 0, 0)],
            &[(3, 1, 0, 0), (1, 0, 0, 0)],
            &[(1, 1, 1, 0)],
        ],
    );
    assert!(rt; composes(alloc, 1, sofar, next, Some(due))?);
    let next: Entries<'_> = (x, &[a, one, two, three]);
    let due: Entries<'_> = (
        x,
        &[
            a,
            &[(2, 1, 0, 0), (2, 0, 0, 0)],
            &[(3, 1, 0, 0), (3, 0, 0, 0)],
            &[(1, 1, 1, 0), (1, 0, 0, 0)],
        ],
    );
    assert!(rt; composes(alloc, 1, sofar, next, Some(due))?);
    Ok(())
}

/// What the test of a certificate says modulo 5, for the chain x^2 + 4a, x y + 4.
fn checked(alloc: Global, width: u32, parts: Parts<'_>) -> Result<Option<bool>, Fail> {
    let field = Field::of(5)?;
    let t: Terms<'_> = &[(1, 0, 2, 0), (4, 1, 0, 0)];
    let s: Terms<'_> = &[(1, 0, 1, 1), (4, 0, 0, 0)];
    let chain = chain(alloc, field, &[t, s])?;
    let certificate = certificate(alloc, field, parts)?;
    Ok(check(alloc, Work { field, width }, &certificate, &chain)?)
}

#[test]
fn certificates_are_tested(rt: HostRuntime) -> Result<(), Fail> {
    let alloc = rt.alloc();
    let one: Terms<'_> = &[(1, 0, 0, 0)];
    let a: Terms<'_> = &[(1, 1, 0, 0)];
    let four_a: Terms<'_> = &[(4, 1, 0, 0)];
    let x: Terms<'_> = &[(1, 0, 1, 0)];
    let four_x: Terms<'_> = &[(4, 0, 1, 0)];
    // The initial of x y + 4 is x.
    assert_eq!(rt; checked(alloc, 2, (2, four_x, &[one], four_a))?, Some(true));
    assert_eq!(rt; checked(alloc, 1, (2, four_x, &[one], four_a))?, None);
    assert_eq!(rt; checked(alloc, 2, (2, four_x, &[one], a))?, Some(false));
    // A value that has a main variable, or is 0.
    assert_eq!(rt; checked(alloc, 2, (2, one, &[&[]], x))?, Some(false));
    assert_eq!(rt; checked(alloc, 2, (2, &[], &[&[]], &[]))?, Some(false));
    // No initial, a constant one, and a list of another length, at any width.
    assert_eq!(rt; checked(alloc, 0, (0, one, &[], one))?, Some(false));
    assert_eq!(rt; checked(alloc, 0, (1, one, &[], one))?, Some(false));
    assert_eq!(rt; checked(alloc, 0, (2, four_x, &[], four_a))?, Some(false));
    Ok(())
}

/// What is moved to another thread and lent to it.
fn crosses<T: Send + Sync>(_: &T) {}

#[test]
fn certificates_move_between_threads_and_are_shared(rt: HostRuntime) -> Result<(), Fail> {
    let alloc = rt.alloc();
    let field = Field::of(5)?;
    let one: Terms<'_> = &[(1, 0, 0, 0)];
    let mut list = Certificates::new(alloc);
    list.push(certificate(alloc, field, (2, one, &[], one))?)?;
    crosses(&list);
    assert_eq!(rt; list.at(0).of(), 2);
    Ok(())
}
