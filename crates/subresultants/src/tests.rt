ghost use Rattle.std.specs.Prelude.{IfOk};
ghost use Rattle.polynomials.specs.Polynomials.{IsPolynomial};

use super::*;
use field_table::Field;
use mono_words::{Mono, VARS};
use sparse_poly::{Poly, Polys, Work};
use std::alloc::{AllocError, Global};
use std::test::Fail;

/// The place of x among the variables a, b and x.
const X: usize = 2;

/// A term `c a^d b^e x^k`.
type Term = (u16, u16, u16, u32);

/// The polynomial with the terms of a list.
fn poly(alloc: Global, f: Field, terms: &[Term]) -> Result<Poly, AllocError>
    ensures { IfOk result (IsPolynomial f VARS) }
{
    let mut list = Vec::new(alloc);
    for (d, e, k, c) in terms {
        let a = Mono::power(0, *d);
        let b = Mono::power(1, *e);
        let x = Mono::power(X, *k);
        if *c < f.prime() {
            list.push((a.max_exponents(b).max_exponents(x), *c))?;
        }
    }
    Poly::from_terms(alloc, f, &list)
}

/// The remainder rows in x of `t` and `c` below `b`, or below nothing where `b` is 0; `None` where
/// they can't start.
fn found(
    alloc: Global,
    w: Work,
    t: &Poly,
    c: &Poly,
    b: Poly,
    cofactors: bool,
) -> Result<Option<Remainders>, AllocError>
    requires first { IsPolynomial w.field VARS t.now }
    requires second { IsPolynomial w.field VARS c.now }
    requires chain { IsPolynomial w.field VARS b }
{
    let mut below = Polys::new(alloc);
    if c.degree_in(X) < 1 || c.degree_in(X) >= t.degree_in(X) {
        return Ok(None);
    }
    match b.main_var() {
        None => Ok(Some(remainder_rows(alloc, w, t, c, X, &below, cofactors)?)),
        Some(u) => {
            if u >= X || c.degree_in(u) >= b.degree_in(u) {
                return Ok(None);
            }
            below.push(b)?;
            Ok(Some(remainder_rows(alloc, w, t, c, X, &below, cofactors)?))
        }
    }
}

/// Whether polynomials have these terms.
fn polys_are(alloc: Global, f: Field, list: &Polys, terms: &[&[Term]]) -> Result<bool, AllocError> {
    for (i, expected) in terms.iter().enumerate() {
        if i >= list.count() || *list.at(i) != poly(alloc, f, expected)? {
            return Ok(false);
        }
    }
    Ok(list.count() == terms.len())
}

/// Whether the remainder rows without cofactors end as is expected, with this first entry of the last
/// row and these leads.
fn ends(
    alloc: Global,
    p: u64,
    starts: [&[Term]; 3],
    common: bool,
    last: &[Term],
    leads: &[&[Term]],
) -> Result<bool, Fail> {
    let field = Field::of(p)?;
    let w = Work { field, width: 1000 };
    let t = poly(alloc, field, starts[0])?;
    let c = poly(alloc, field, starts[1])?;
    let b = poly(alloc, field, starts[2])?;
    let (is_common, rows) = match found(alloc, w, &t, &c, b, false)? {
        Some(Remainders::Coprime(rows)) => (false, rows),
        Some(Remainders::Common(rows, _zero)) => (true, rows),
        _ => return Ok(false),
    };
    Ok(
        is_common == common
            && rows.last.first == poly(alloc, field, last)?
            && polys_are(alloc, field, &rows.leads, leads)?,
    )
}

#[test]
fn rows_are_those_of_an_independent_program(rt: HostRuntime) -> Result<(), Fail> {
    let alloc = rt.alloc();
    // x divides neither x^2 - a nor its remainder.
    assert!(rt;
        ends(
            alloc,
            5,
            [&[(0, 0, 2, 1), (1, 0, 0, 4)], &[(0, 0, 1, 1)], &[]],
            false,
            &[(1, 0, 0, 4)],
            &[&[(0, 0, 0, 1)], &[(1, 0, 0, 4)]]
        )?
    );
    assert!(rt;
        ends(
            alloc,
            5,
            [
                &[(0, 0, 2, 1), (0, 0, 0, 4)],
                &[(0, 0, 1, 1), (0, 0, 0, 4)],
                &[]
            ],
            true,
            &[(0, 0, 1, 1), (0, 0, 0, 4)],
            &[&[(0, 0, 0, 1)]]
        )?
    );
    // The square of the lead is 0 below a^2.
    assert!(rt;
        ends(
            alloc,
            5,
            [
                &[(0, 0, 3, 1), (0, 0, 2, 4)],
                &[(1, 0, 2, 1), (0, 0, 1, 1), (0, 0, 0, 4)],
                &[(2, 0, 0, 1)]
            ],
            true,
            &[(1, 0, 1, 2), (0, 0, 1, 1), (1, 0, 0, 4), (0, 0, 0, 4)],
            &[&[(1, 0, 0, 1)], &[(1, 0, 0, 2), (0, 0, 0, 1)]]
        )?
    );
    // A non-monic polynomial below, and a last row that beta doesn't divide.
    assert!(rt;
        ends(
            alloc,
            3,
            [
                &[(0, 0, 4, 1)],
                &[(1, 1, 3, 1), (0, 1, 1, 2)],
                &[(1, 2, 0, 1), (0, 1, 0, 2)]
            ],
            true,
            &[(2, 1, 1, 2)],
            &[&[(1, 1, 0, 1)], &[(1, 1, 0, 1)], &[(2, 1, 0, 2)]]
        )?
    );
    assert!(rt;
        ends(
            alloc,
            2,
            [
                &[(0, 2, 4, 1), (0, 0, 2, 1)],
                &[(0, 1, 3, 1), (0, 1, 0, 1)],
                &[(2, 0, 0, 1)]
            ],
            false,
            &[(0, 10, 0, 1), (0, 4, 0, 1)],
            &[
                &[(0, 1, 0, 1)],
                &[(0, 2, 0, 1)],
                &[(0, 7, 0, 1)],
                &[(0, 10, 0, 1), (0, 4, 0, 1)]
            ]
        )?
    );
    // A degree falls by 2.
    assert!(rt;
        ends(
            alloc,
            32003,
            [&[(2, 2, 4, 21686)], &[(0, 1, 3, 5276), (0, 1, 0, 390)], &[]],
            false,
            &[(6, 10, 0, 22912)],
            &[
                &[(0, 1, 0, 5276)],
                &[(2, 4, 0, 25881)],
                &[(6, 10, 0, 22912)]
            ]
        )?
    );
    Ok(())
}

/// Whether the last row, or the zero row where there is one, has this first entry and these
/// cofactors over `c` and `t`.
fn ends_with(
    alloc: Global,
    starts: [&[Term]; 2],
    first: &[Term],
    cofactors: &[&[Term]],
) -> Result<bool, Fail> {
    let field = Field::of(5)?;
    let w = Work { field, width: 1000 };
    let t = poly(alloc, field, starts[0])?;
    let c = poly(alloc, field, starts[1])?;
    let row = match found(alloc, w, &t, &c, Poly::zero(alloc), true)? {
        Some(Remainders::Common(_rows, zero)) => Some(zero),
        Some(Remainders::Coprime(rows)) => Some(rows.last),
        _ => None,
    };
    match row {
        None => Ok(false),
        Some(row) => Ok(
            row.first == poly(alloc, field, first)?
                && polys_are(alloc, field, &row.cofactors, cofactors)?,
        ),
    }
}

#[test]
fn cofactors_stand_in_the_order_of_the_generators(rt: HostRuntime) -> Result<(), Fail> {
    let alloc = rt.alloc();
    // 4x times x, and once x^2 - a, have the sum 4a.
    assert!(rt;
        ends_with(
            alloc,
            [&[(0, 0, 2, 1), (1, 0, 0, 4)], &[(0, 0, 1, 1)]],
            &[(1, 0, 0, 4)],
            &[&[(0, 0, 1, 4)], &[(0, 0, 0, 1)]]
        )?
    );
    assert!(rt;
        ends_with(
            alloc,
            [&[(0, 0, 2, 1), (0, 0, 0, 4)], &[(0, 0, 1, 1), (0, 0, 0, 4)]],
            &[],
            &[&[(0, 0, 1, 4), (0, 0, 0, 4)], &[(0, 0, 0, 1)]]
        )?
    );
    Ok(())
}
