ghost use Rattle.std.specs.Prelude.{IfOk};
ghost use Rattle.polynomials.specs.Polynomials.{IsPolynomial};

use super::*;
use field_table::Field;
use mono_words::{Mono, VARS};
use sparse_poly::{Poly, Polys, Work};
use std::alloc::{AllocError, Global};
use std::test::Fail;

/// The polynomial with the terms `c x^d y^e` of a list.
fn poly(alloc: Global, f: Field, terms: &[(u16, u16, u32)]) -> Result<Poly, AllocError>
    ensures { IfOk result (IsPolynomial f VARS) }
{
    let mut list = Vec::new(alloc);
    for (d, e, c) in terms {
        let x = Mono::power(0, *d);
        let y = Mono::power(1, *e);
        if x.fits(y) && *c < f.prime() {
            list.push((x.product(y), *c))?;
        }
    }
    Poly::from_terms(alloc, f, &list)
}

/// Whether the quotient of `a` by `b` is `q`, or whether there is none.
fn gives(
    alloc: Global,
    w: Work,
    a: &[(u16, u16, u32)],
    b: &[(u16, u16, u32)],
    q: Option<&[(u16, u16, u32)]>,
) -> Result<bool, AllocError> {
    let (a, b) = (poly(alloc, w.field, a)?, poly(alloc, w.field, b)?);
    if b.is_zero() {
        return Ok(false);
    }
    let found = quo(alloc, w, &a, &b)?;
    match (found, q) {
        (Some(found), Some(q)) => Ok(found == poly(alloc, w.field, q)?),
        (None, None) => Ok(true),
        _ => Ok(false),
    }
}

#[test]
fn quotients_modulo_5_are_those_done_by_hand(rt: HostRuntime) -> Result<(), Fail> {
    let alloc = rt.alloc();
    let w = Work {
        field: Field::of(5)?,
        width: 100,
    };
    let x = [(1, 0, 1)];
    let x_plus_one = [(1, 0, 1), (0, 0, 1)];
    let x_plus_two = [(1, 0, 1), (0, 0, 2)];
    let x_plus_four = [(1, 0, 1), (0, 0, 4)];
    let y_plus_x = [(0, 1, 1), (1, 0, 1)];
    let y_plus_four_x = [(0, 1, 1), (1, 0, 4)];

    assert!(rt; gives(alloc, w, &[], &x, Some(&[]))?);
    assert!(rt; gives(alloc, w, &[(2, 0, 1), (1, 0, 4)], &x, Some(&x_plus_four))?);
    assert!(rt;
        gives(
            alloc,
            w,
            &[(2, 0, 1), (0, 0, 4)],
            &x_plus_one,
            Some(&x_plus_four)
        )?
    );
    assert!(rt;
        gives(
            alloc,
            w,
            &[(0, 2, 1), (2, 0, 4)],
            &y_plus_x,
            Some(&y_plus_four_x)
        )?
    );
    // A constant divisor, and a coefficient other than 1 in front.
    assert!(rt;
        gives(
            alloc,
            w,
            &[(1, 0, 2), (0, 0, 4)],
            &[(0, 0, 2)],
            Some(&x_plus_two)
        )?
    );
    assert!(rt; gives(alloc, w, &[(1, 0, 3)], &[(1, 0, 2)], Some(&[(0, 0, 4)]))?);
    assert!(rt; gives(alloc, w, &x_plus_one, &x, None)?);
    assert!(rt; gives(alloc, w, &x, &[(2, 0, 1)], None)?);
    // The first two terms are multiples of x, the last isn't.
    assert!(rt; gives(alloc, w, &[(1, 1, 1), (1, 0, 1), (0, 0, 1)], &x, None)?);
    Ok(())
}

#[test]
fn quotients_fit_up_to_the_width(rt: HostRuntime) -> Result<(), Fail> {
    let alloc = rt.alloc();
    let field = Field::of(5)?;
    // Five terms by two terms make x^5 + 4.
    let power = [(5, 0, 1), (0, 0, 4)];
    let x_plus_four = [(1, 0, 1), (0, 0, 4)];
    let powers = [(4, 0, 1), (3, 0, 1), (2, 0, 1), (1, 0, 1), (0, 0, 1)];
    let multiple = [(2, 0, 1), (1, 0, 4)];
    let x = [(1, 0, 1)];

    assert!(rt;
        gives(
            alloc,
            Work { field, width: 10 },
            &power,
            &x_plus_four,
            Some(&powers)
        )?
    );
    assert!(rt; gives(alloc, Work { field, width: 9 }, &power, &x_plus_four, None)?);
    assert!(rt;
        gives(
            alloc,
            Work { field, width: 2 },
            &multiple,
            &x,
            Some(&x_plus_four)
        )?
    );
    assert!(rt; gives(alloc, Work { field, width: 1 }, &multiple, &x, None)?);
    assert!(rt; gives(alloc, Work { field, width: 0 }, &[], &x, Some(&[]))?);
    Ok(())
}

#[test]
fn products_that_cancel_leave_no_term(rt: HostRuntime) -> Result<(), Fail> {
    let alloc = rt.alloc();
    let field = Field::of(5)?;
    // The two products with the monomial x^2*y are opposite, and the dividend doesn't have it.
    let cubes = [(0, 3, 1), (3, 0, 4)];
    let squares = [(0, 2, 1), (1, 1, 1), (2, 0, 1)];
    let y_plus_four_x = [(0, 1, 1), (1, 0, 4)];
    let w = Work { field, width: 100 };
    assert!(rt; gives(alloc, w, &cubes, &squares, Some(&y_plus_four_x))?);
    assert!(rt; gives(alloc, w, &cubes, &y_plus_four_x, Some(&squares))?);
    Ok(())
}

#[test]
fn there_is_no_quotient_where_the_last_monomial_does_not_divide(
    rt: HostRuntime,
) -> Result<(), Fail> {
    let alloc = rt.alloc();
    let w = Work {
        field: Field::of(5)?,
        width: 10000,
    };
    // By the first terms alone division goes on for 39 terms.
    let power = [(40, 0, 1), (0, 0, 4)];
    assert!(rt; gives(alloc, w, &power, &[(2, 0, 1), (1, 0, 4)], None)?);
    let y_plus_x = [(0, 1, 1), (1, 0, 1)];
    assert!(rt;
        gives(
            alloc,
            w,
            &[(0, 40, 1), (40, 1, 1), (0, 0, 4)],
            &y_plus_x,
            None
        )?
    );
    // The last monomial x*y has the greater exponent of y.
    let y_times_y_plus_x = [(0, 2, 1), (1, 1, 1)];
    assert!(rt; gives(alloc, w, &[(0, 40, 1), (40, 0, 1)], &y_times_y_plus_x, None)?);
    Ok(())
}

#[test]
fn last_monomials_that_divide_do_not_make_a_quotient(rt: HostRuntime) -> Result<(), Fail> {
    let alloc = rt.alloc();
    let w = Work {
        field: Field::of(5)?,
        width: 10000,
    };
    let x_plus_four = [(1, 0, 1), (0, 0, 4)];
    let y_plus_x = [(0, 1, 1), (1, 0, 1)];
    // At x = 1 the dividend is 2, and at y = 4*x it is 2*x^2.
    assert!(rt; gives(alloc, w, &[(40, 0, 1), (0, 0, 1)], &x_plus_four, None)?);
    assert!(rt; gives(alloc, w, &[(0, 2, 1), (2, 0, 1)], &y_plus_x, None)?);
    // Both last monomials have x, and here there is a quotient.
    let product = [(2, 1, 1), (1, 1, 1), (3, 0, 1), (2, 0, 1)];
    assert!(rt; gives(alloc, w, &product, &y_plus_x, Some(&[(2, 0, 1), (1, 0, 1)]))?);
    Ok(())
}

#[test]
fn a_quotient_may_have_many_more_terms(rt: HostRuntime) -> Result<(), Fail> {
    let alloc = rt.alloc();
    let field = Field::of(5)?;
    // The powers of x below the 40th, times x + 4, make x^40 + 4.
    let mut powers = Vec::new(alloc);
    for e in 0..40 {
        powers.push((e, 0, 1))?;
    }
    let power = [(40, 0, 1), (0, 0, 4)];
    let x_plus_four = [(1, 0, 1), (0, 0, 4)];
    let w = Work { field, width: 80 };
    assert!(rt; gives(alloc, w, &power, &x_plus_four, Some(&powers))?);
    let w = Work { field, width: 79 };
    assert!(rt; gives(alloc, w, &power, &x_plus_four, None)?);
    Ok(())
}

#[test]
fn exponents_reach_the_greatest_one(rt: HostRuntime) -> Result<(), Fail> {
    let alloc = rt.alloc();
    let field = Field::of(5)?;
    let w = Work { field, width: 100 };
    let greatest = [(65535, 0, 1)];
    let x_plus_one = [(1, 0, 1), (0, 0, 1)];
    let y_plus_one = [(0, 1, 1), (0, 0, 1)];
    let both = [(65535, 1, 1), (65535, 0, 1)];
    assert!(rt; gives(alloc, w, &greatest, &greatest, Some(&[(0, 0, 1)]))?);
    assert!(rt; gives(alloc, w, &both, &y_plus_one, Some(&greatest))?);
    assert!(rt; gives(alloc, w, &both, &greatest, Some(&y_plus_one))?);
    let multiple = [(65535, 0, 1), (65534, 0, 1)];
    assert!(rt; gives(alloc, w, &multiple, &x_plus_one, Some(&[(65534, 0, 1)]))?);
    // The quotient has 65,535 terms.
    assert!(rt; gives(alloc, w, &[(65535, 0, 1), (0, 0, 1)], &x_plus_one, None)?);
    // The first terms divide, but the divisor has a greater degree in x.
    assert!(rt; gives(alloc, w, &[(0, 2, 1)], &[(0, 1, 1), (65535, 0, 1)], None)?);
    Ok(())
}

/// Whether `a` without two factors is `rest`.
fn leaves(
    alloc: Global,
    a: &[(u16, u16, u32)],
    first: &[(u16, u16, u32)],
    second: &[(u16, u16, u32)],
    rest: &[(u16, u16, u32)],
) -> Result<bool, Fail> {
    let field = Field::of(5)?;
    let mut list = Polys::new(alloc);
    list.push(poly(alloc, field, first)?)?;
    list.push(poly(alloc, field, second)?)?;
    let a = poly(alloc, field, a)?;
    let left = strip(alloc, Work { field, width: 100 }, &a, &list)?;
    Ok(left == poly(alloc, field, rest)?)
}

#[test]
fn factors_are_removed_as_often_as_they_divide(rt: HostRuntime) -> Result<(), Fail> {
    let alloc = rt.alloc();
    let three = [(0, 0, 3)];
    let x = [(1, 0, 1)];
    let x_plus_one = [(1, 0, 1), (0, 0, 1)];
    let x_plus_two = [(1, 0, 1), (0, 0, 2)];

    assert!(rt; leaves(alloc, &[(2, 0, 1)], &three, &x, &[(0, 0, 1)])?);
    assert!(rt; leaves(alloc, &[], &x, &three, &[])?);
    assert!(rt; leaves(alloc, &[(3, 0, 1), (2, 0, 1)], &x, &x_plus_two, &x_plus_one)?);
    assert!(rt;
        leaves(
            alloc,
            &[(2, 0, 1), (1, 0, 1)],
            &x_plus_one,
            &x,
            &[(0, 0, 1)]
        )?
    );
    assert!(rt; leaves(alloc, &[(2, 0, 1), (1, 0, 1)], &x_plus_one, &x_plus_two, &x)?);
    assert!(rt; leaves(alloc, &[(1, 0, 2)], &three, &three, &[(1, 0, 2)])?);
    Ok(())
}

#[test]
fn a_factor_stays_where_its_quotient_is_too_wide(rt: HostRuntime) -> Result<(), Fail> {
    let alloc = rt.alloc();
    let field = Field::of(5)?;
    let mut list = Polys::new(alloc);
    list.push(poly(alloc, field, &[(1, 0, 1)])?)?;
    let a = poly(alloc, field, &[(2, 0, 1), (1, 0, 4)])?;
    let left = strip(alloc, Work { field, width: 1 }, &a, &list)?;
    assert!(rt; left == a);
    Ok(())
}

/// Terms in two variables whose exponents, below the side, and coefficients come from a sequence.
fn scattered(alloc: Global, f: Field, count: u32, side: u32) -> Result<Poly, AllocError>
    ensures { IfOk result (IsPolynomial f VARS) }
{
    let mut list = Vec::new(alloc);
    let mut state = count;
    for _ in 0..count {
        let mut numbers = [0; 3];
        for number in numbers.iter_mut() {
            state = state.wrapping_mul(1_664_525).wrapping_add(1_013_904_223);
            *number = state >> 8;
        }
        let [d, e, c] = numbers;
        let side = side.clamp(1, 1000);
        list.push((
            (d % side) as u16,
            (e % side) as u16,
            f.residue((c >> 8) as u64),
        ))?;
    }
    poly(alloc, f, &list)
}

/// Whether the quotient of the product of `q` and `b` by `b` is `q`, and whether there is none where
/// `less` is taken from the product.
fn recovers(alloc: Global, w: Work, q: &Poly, b: &Poly, less: &Poly) -> Result<bool, AllocError>
    requires left { IsPolynomial w.field VARS q.now }
    requires right { IsPolynomial w.field VARS b.now }
    requires less { IsPolynomial w.field VARS less.now }
{
    if b.is_zero() {
        return Ok(false);
    }
    let Work { field, width } = w;
    let Some(product) = q.mul(Work { field, width }, b)? else {
        return Ok(false);
    };
    let Some(found) = quo(alloc, Work { field, width }, &product, b)? else {
        return Ok(false);
    };
    let other = product.sub(field, less)?;
    Ok(found == *q && quo(alloc, Work { field, width }, &other, b)?.is_none())
}

#[test]
fn a_product_has_both_factors_as_quotients(rt: HostRuntime) -> Result<(), Fail> {
    let alloc = rt.alloc();
    for (p, side) in [(2, 12), (2, 1000), (65521, 12), (65521, 1000)] {
        let field = Field::of(p)?;
        let w = Work {
            field,
            width: 100_000,
        };
        let many = scattered(alloc, field, 80, side)?;
        let few = scattered(alloc, field, 20, side)?;
        let less = poly(alloc, field, &[(side as u16, 3, 1)])?;
        assert!(rt; recovers(alloc, w, &many, &few, &less)?, "{p}, by few");
        assert!(rt; recovers(alloc, w, &few, &many, &less)?, "{p}, by many");
    }
    Ok(())
}

#[test]
fn most_products_may_cancel(rt: HostRuntime) -> Result<(), Fail> {
    let alloc = rt.alloc();
    let field = Field::of(5)?;
    let w = Work {
        field,
        width: 100_000,
    };
    // The powers of x below the 40th, times x + 4, make x^40 + 4.
    let mut list = Vec::new(alloc);
    for e in 0..40 {
        list.push((e, 0, 1))?;
    }
    let powers = poly(alloc, field, &list)?;
    let x_plus_four = poly(alloc, field, &[(1, 0, 1), (0, 0, 4)])?;
    let (first, second) = (
        scattered(alloc, field, 8, 1000)?,
        scattered(alloc, field, 9, 1000)?,
    );
    let less = poly(alloc, field, &[(1000, 3, 1)])?;
    let (Some(many), Some(few)) = (first.mul(w, &powers)?, second.mul(w, &x_plus_four)?) else {
        assert!(rt; false);
        return Ok(());
    };
    assert!(rt; recovers(alloc, w, &many, &few, &less)?);
    assert!(rt; recovers(alloc, w, &few, &many, &less)?);
    assert!(rt; recovers(alloc, w, &powers, &x_plus_four, &less)?);
    Ok(())
}
