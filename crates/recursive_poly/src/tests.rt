ghost use Rattle.std.specs.Prelude.{◌≡◌, ◌<◌, ◌≤◌, IfOk, IsTrue};
ghost use Rattle.polynomials.specs.Polynomials.{IsPolynomial};
ghost use Rattle.polynomials.specs.Views.{degree_in};
ghost use Rattle.recursive_poly.specs.Recursive.{whole};

use super::*;
use field_table::Field;
use mono_words::{Mono, VARS};
use sparse_poly::{Poly, Work};
use std::alloc::{AllocError, Global};
use std::test::Fail;

/// Terms `c a^d x^e`, as `(d, e, c)`.
type Terms<'a> = &'a [(u16, u16, u32)];

/// The variables.
const A: usize = 0;

const X: usize = 1;

/// The polynomial with the terms of a list.
fn poly(alloc: Global, f: Field, terms: Terms<'_>) -> Result<Poly, AllocError>
    ensures { IfOk result (IsPolynomial f VARS) }
{
    let mut list = Vec::new(alloc);
    for (d, e, c) in terms {
        let a = Mono::power(A, *d);
        let x = Mono::power(X, *e);
        if *c < f.prime() {
            list.push((a.max_exponents(x), *c))?;
        }
    }
    Poly::from_terms(alloc, f, &list)
}

/// Whether an elimination may be asked for.
fn may_eliminate(f: &RecPoly, g: &RecPoly) -> bool
    ensures degrees { IsTrue result → degree_in g.now.variable (whole g.now)
        ≤ degree_in f.now.variable (whole f.now) }
    ensures occurs { IsTrue result → 1 ≤ degree_in g.now.variable (whole g.now) }
{
    1 <= g.degree() && g.degree() <= f.degree()
}

/// Whether the elimination in `v` modulo 5 gives `due`, nothing where that is `None`; false where no
/// elimination may be asked for.
fn eliminates(
    alloc: Global,
    width: u32,
    v: usize,
    f: Terms<'_>,
    g: Terms<'_>,
    due: Option<Terms<'_>>,
) -> Result<bool, Fail>
    requires { v < VARS }
{
    let field = Field::of(5)?;
    let f = RecPoly::of(&poly(alloc, field, f)?, v)?;
    let g = RecPoly::of(&poly(alloc, field, g)?, v)?;
    if !may_eliminate(&f, &g) {
        return Ok(false);
    }
    match (eliminate_rec(Work { field, width }, &f, &g)?, due) {
        (None, None) => Ok(true),
        (Some(h), Some(due)) => Ok(h.poly()? == poly(alloc, field, due)?),
        _ => Ok(false),
    }
}

#[test]
fn a_polynomial_is_given_back(rt: HostRuntime) -> Result<(), Fail> {
    let alloc = rt.alloc();
    let field = Field::of(5)?;
    let lists: [Terms<'_>; 4] = [
        &[],
        &[(0, 0, 3)],
        &[(1, 2, 1), (0, 1, 1), (0, 0, 1)],
        &[(65535, 0, 1), (0, 65535, 1)],
    ];
    for terms in lists {
        let f = poly(alloc, field, terms)?;
        for v in [A, X, VARS - 1] {
            let r = RecPoly::of(&f, v)?;
            assert!(rt; r.variable() == v);
            assert!(rt; r.degree() == f.degree_in(v));
            assert!(rt; r.lead()? == f.lead_in(v)?);
            assert!(rt; r.poly()? == f);
        }
    }
    Ok(())
}

// Differences by hand: the lead of g times f, less the multiple of g with the same lead.
#[test]
fn leads_of_one_term_are_eliminated(rt: HostRuntime) -> Result<(), Fail> {
    let alloc = rt.alloc();
    let x: Terms<'_> = &[(0, 1, 1)];
    // x^2 + 4 a by x is 4 a.
    let f: Terms<'_> = &[(0, 2, 1), (1, 0, 4)];
    assert!(rt; eliminates(alloc, 2, X, f, x, Some(&[(1, 0, 4)]))?);
    assert!(rt; eliminates(alloc, 1, X, f, x, None)?);
    // a x^2 + x + 1 by itself is 0.
    let f: Terms<'_> = &[(1, 2, 1), (0, 1, 1), (0, 0, 1)];
    assert!(rt; eliminates(alloc, 3, X, f, f, Some(&[]))?);
    assert!(rt; eliminates(alloc, 2, X, f, f, None)?);
    // a x^3 + x^2 + 2 by 2 x^2 + a x + 3 is (2 - a^2) x^2 - 3 a x + 4.
    let f: Terms<'_> = &[(1, 3, 1), (0, 2, 1), (0, 0, 2)];
    let g: Terms<'_> = &[(0, 2, 2), (1, 1, 1), (0, 0, 3)];
    let due: Terms<'_> = &[(2, 2, 4), (0, 2, 2), (1, 1, 2), (0, 0, 4)];
    assert!(rt; eliminates(alloc, 3, X, f, g, Some(due))?);
    Ok(())
}

#[test]
fn leads_of_several_terms_are_eliminated(rt: HostRuntime) -> Result<(), Fail> {
    let alloc = rt.alloc();
    // (a + 1) x^2 + x by (a + 2) x + 1 is x.
    let f: Terms<'_> = &[(1, 2, 1), (0, 2, 1), (0, 1, 1)];
    let g: Terms<'_> = &[(1, 1, 1), (0, 1, 2), (0, 0, 1)];
    assert!(rt; eliminates(alloc, 6, X, f, g, Some(&[(0, 1, 1)]))?);
    assert!(rt; eliminates(alloc, 5, X, f, g, None)?);
    Ok(())
}

#[test]
fn a_smaller_variable_is_eliminated(rt: HostRuntime) -> Result<(), Fail> {
    let alloc = rt.alloc();
    // a^2 x + x^2 by a + x in a is x^2 - a x^2.
    let f: Terms<'_> = &[(2, 1, 1), (0, 2, 1)];
    let g: Terms<'_> = &[(1, 0, 1), (0, 1, 1)];
    let due: Terms<'_> = &[(0, 2, 1), (1, 2, 4)];
    assert!(rt; eliminates(alloc, 2, A, f, g, Some(due))?);
    assert!(rt; eliminates(alloc, 1, A, f, g, None)?);
    Ok(())
}

#[test]
fn the_greatest_exponent_is_reached_and_not_passed(rt: HostRuntime) -> Result<(), Fail> {
    let alloc = rt.alloc();
    let x: Terms<'_> = &[(0, 1, 1)];
    assert!(rt; eliminates(alloc, 1, X, &[(0, 65535, 1)], x, Some(&[]))?);
    // The lead a times a^65535 x.
    let g: Terms<'_> = &[(1, 1, 1), (0, 0, 1)];
    assert!(rt; eliminates(alloc, 9, X, &[(65535, 1, 1)], g, None)?);
    assert!(rt; eliminates(alloc, 9, X, &[(65534, 1, 1)], g, Some(&[(65534, 0, 4)]))?);
    Ok(())
}
