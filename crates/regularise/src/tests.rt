ghost use Rattle.std.specs.Prelude.{IfOk};
ghost use Rattle.polynomials.specs.Polynomials.{IsPolynomial, ArePolynomials};

use super::*;
use chains::{Chain, NonZero};
use field_table::Field;
use mono_words::{Mono, VARS};
use sparse_poly::{Poly, Polys, Work};
use std::alloc::{AllocError, Global};
use std::test::Fail;

/// Terms `c x^d y^e z^g`, as `(c, d, e, g)`.
type Terms<'a> = &'a [(u32, u16, u16, u16)];

/// What is due: the cofactor of the initial, those of the polynomials below, and the value, or
/// polynomials one of which vanishes, or a step that is too wide.
#[derive(Clone, Copy)]
enum Due<'a> {
    Certified(Terms<'a>, &'a [Terms<'a>], Terms<'a>),
    Vanishing(&'a [Terms<'a>]),
    TooWide,
}

/// The polynomial with these terms.
fn poly(alloc: Global, f: Field, terms: Terms<'_>) -> Result<Poly, AllocError>
    ensures { IfOk result (IsPolynomial f VARS) }
{
    let mut list = Vec::new(alloc);
    for (c, d, e, g) in terms {
        let x = Mono::power(0, *d);
        let y = Mono::power(1, *e);
        let z = Mono::power(2, *g);
        if *c < f.prime() {
            list.push((x.max_exponents(y).max_exponents(z), *c))?;
        }
    }
    Poly::from_terms(alloc, f, &list)
}

fn chain(alloc: Global, f: Field, all: &[Terms<'_>]) -> Result<Chain, AllocError>
    ensures { IfOk result (ArePolynomials f VARS) }
{
    let mut chain = Chain::empty(alloc);
    for terms in all {
        chain = chain.with_poly(alloc, poly(alloc, f, terms)?)?;
    }
    Ok(chain)
}

fn nonzero(alloc: Global, f: Field, terms: Terms<'_>) -> Result<NonZero, AllocError> {
    let mut known = NonZero::empty(alloc);
    let h = poly(alloc, f, terms)?;
    if !h.is_zero() {
        known.add(f, &h)?;
    }
    Ok(known)
}

/// Whether these are the polynomials of a list.
fn are(alloc: Global, f: Field, list: &Polys, all: &[Terms<'_>]) -> Result<bool, AllocError> {
    for (i, terms) in all.iter().enumerate() {
        if i >= list.count() || *list.at(i) != poly(alloc, f, terms)? {
            return Ok(false);
        }
    }
    Ok(list.count() == all.len())
}

fn is_due(
    alloc: Global,
    f: Field,
    v: usize,
    found: &Regular,
    due: &Due<'_>,
) -> Result<bool, AllocError> {
    match (found, due) {
        (Regular::TooWide, Due::TooWide) => Ok(true),
        (Regular::Gone, Due::Vanishing(all)) => Ok(all.is_empty()),
        (Regular::Kids(list), Due::Vanishing(all)) => are(alloc, f, list, all),
        (Regular::Certified(c), Due::Certified(cofactor, below, value)) => Ok(
            c.of() == v
                && *c.cofactor() == poly(alloc, f, cofactor)?
                && are(alloc, f, c.below(), below)?
                && *c.value() == poly(alloc, f, value)?,
        ),
        _ => Ok(false),
    }
}

/// What is moved to another thread and lent to it.
fn crosses<T: Send + Sync>(_: &T) {}

/// Whether the initial at `v` becomes what is due, where a polynomial doesn't vanish.
fn becomes(
    alloc: Global,
    work: (u64, u32),
    list: &[Terms<'_>],
    known: Terms<'_>,
    v: usize,
    due: Due<'_>,
) -> Result<bool, Fail> {
    let field = Field::of(work.0)?;
    let w = Work {
        field,
        width: work.1,
    };
    let chain = chain(alloc, field, list)?;
    let nonzero = nonzero(alloc, field, known)?;
    if chain.at(v).is_none() {
        return Ok(false);
    }
    let found = regularise(alloc, w, &chain, &nonzero, v)?;
    crosses(&found);
    Ok(is_due(alloc, field, v, &found, &due)?)
}

#[test]
fn a_coprime_end_makes_a_certificate(rt: HostRuntime) -> Result<(), Fail> {
    let alloc = rt.alloc();
    let one: Terms<'_> = &[(1, 0, 0, 0)];
    // y^2 + 4x, y z + 4.
    let t: Terms<'_> = &[(1, 0, 2, 0), (4, 1, 0, 0)];
    let s: Terms<'_> = &[(1, 0, 1, 1), (4, 0, 0, 0)];
    let due = Due::Certified(&[(4, 0, 1, 0)], &[one], &[(4, 1, 0, 0)]);
    assert!(rt; becomes(alloc, (5, 1000), &[t, s], &[], 2, due)?);
    assert!(rt; becomes(alloc, (5, 1), &[t, s], &[], 2, Due::TooWide)?);
    // x y + 1, whose initial has no main variable.
    let due = Due::Certified(one, &[], &[(1, 1, 0, 0)]);
    assert!(rt; becomes(alloc, (5, 0), &[&[(1, 1, 1, 0), (1, 0, 0, 0)]], &[], 1, due)?);
    Ok(())
}

#[test]
fn turns_go_on_below(rt: HostRuntime) -> Result<(), Fail> {
    let alloc = rt.alloc();
    let one: Terms<'_> = &[(1, 0, 0, 0)];
    // x^2 + 1, x y^2 + 1, x y z.
    let t: Terms<'_> = &[(1, 2, 0, 0), (1, 0, 0, 0)];
    let s: Terms<'_> = &[(1, 1, 2, 0), (1, 0, 0, 0)];
    let q: Terms<'_> = &[(1, 1, 1, 1)];
    let due = Due::Certified(&[(1, 2, 1, 0)], &[one, &[(1, 2, 0, 0)]], one);
    assert!(rt; becomes(alloc, (2, 1000), &[t, s, q], &[], 2, due)?);
    // x^2 + 2, y^2 + x, x z + 1: the initial has no y.
    let t: Terms<'_> = &[(1, 2, 0, 0), (2, 0, 0, 0)];
    let s: Terms<'_> = &[(1, 0, 2, 0), (1, 1, 0, 0)];
    let q: Terms<'_> = &[(1, 1, 0, 1), (1, 0, 0, 0)];
    let due = Due::Certified(&[(4, 1, 0, 0)], &[one, &[]], &[(2, 0, 0, 0)]);
    assert!(rt; becomes(alloc, (5, 1000), &[t, s, q], &[], 2, due)?);
    Ok(())
}

#[test]
fn a_zero_row_shows_what_vanishes(rt: HostRuntime) -> Result<(), Fail> {
    let alloc = rt.alloc();
    // x^2 + 4x, x y + 4.
    let t: Terms<'_> = &[(1, 2, 0, 0), (4, 1, 0, 0)];
    let s: Terms<'_> = &[(1, 1, 1, 0), (4, 0, 0, 0)];
    let due = Due::Vanishing(&[&[(4, 1, 0, 0), (1, 0, 0, 0)]]);
    assert!(rt; becomes(alloc, (5, 1000), &[t, s], &[], 1, due)?);
    // x^2 + x, y^3 + 1, x y^2 z: a row was composed before.
    let t: Terms<'_> = &[(1, 2, 0, 0), (1, 1, 0, 0)];
    let s: Terms<'_> = &[(1, 0, 3, 0), (1, 0, 0, 0)];
    let q: Terms<'_> = &[(1, 1, 2, 1)];
    let due = Due::Vanishing(&[&[(1, 1, 0, 0), (1, 0, 0, 0)], &[(2, 1, 0, 0)]]);
    assert!(rt; becomes(alloc, (3, 1000), &[t, s, q], &[], 2, due)?);
    // x^2, y^3, x y^2 z: none was.
    let t: Terms<'_> = &[(1, 2, 0, 0)];
    let s: Terms<'_> = &[(1, 0, 3, 0)];
    let due = Due::Vanishing(&[&[(2, 1, 1, 0)]]);
    assert!(rt; becomes(alloc, (3, 1000), &[t, s, q], &[], 2, due)?);
    Ok(())
}

#[test]
fn leads_vanish_where_the_cofactor_reduces_to_0(rt: HostRuntime) -> Result<(), Fail> {
    let alloc = rt.alloc();
    let x: Terms<'_> = &[(1, 1, 0, 0)];
    // x^2, y^3, (x y^2 + 1) z.
    let t: Terms<'_> = &[(1, 2, 0, 0)];
    let s: Terms<'_> = &[(1, 0, 3, 0)];
    let q: Terms<'_> = &[(1, 1, 2, 1), (1, 0, 0, 1)];
    let due = Due::Vanishing(&[x, x]);
    assert!(rt; becomes(alloc, (3, 1000), &[t, s, q], &[], 2, due)?);
    // Where x is known not to vanish, no points are left.
    assert!(rt; becomes(alloc, (2, 1000), &[t, s, q], x, 2, Due::Vanishing(&[]))?);
    Ok(())
}

#[test]
fn no_points_are_left_where_the_initial_reduces_to_0(rt: HostRuntime) -> Result<(), Fail> {
    let alloc = rt.alloc();
    // x, x y.
    let x: Terms<'_> = &[(1, 1, 0, 0)];
    let s: Terms<'_> = &[(1, 1, 1, 0)];
    assert!(rt; becomes(alloc, (2, 1000), &[x, s], &[], 1, Due::Vanishing(&[]))?);
    Ok(())
}
