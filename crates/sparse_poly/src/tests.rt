ghost use Rattle.std.specs.Prelude.{◌<◌, IfOk};
ghost use Rattle.polynomials.specs.Polynomials.{IsPolynomial};

use super::*;
use field_table::Field;
use mono_words::{Mono, VARS};
use std::alloc::{AllocError, Global};
use std::test::Fail;

/// The polynomial with the terms `c x^d y^e z^g` of a list.
fn poly(alloc: Global, f: Field, terms: &[(u32, u16, u16, u16)]) -> Result<Poly, AllocError>
    ensures { IfOk result (IsPolynomial f VARS) }
{
    let mut list = Vec::new(alloc);
    for (c, d, e, g) in terms {
        let x = Mono::power(0, *d);
        let y = Mono::power(1, *e);
        let z = Mono::power(2, *g);
        if *c < f.prime() {
            list.push((x.max_exponents(y).max_exponents(z), *c))?;
        }
    }
    Poly::from_terms(alloc, f, &list)
}

#[test]
fn operations_agree_with_sums_done_by_hand(rt: HostRuntime) -> Result<(), Fail> {
    let alloc = rt.alloc();
    let f = Field::of(5)?;
    let curve = poly(alloc, f, &[(1, 1, 2, 0), (1, 0, 1, 0), (1, 0, 0, 0)])?;
    let x = poly(
        alloc,
        f,
        &[(3, 1, 0, 0), (2, 0, 0, 0), (3, 1, 0, 0), (3, 0, 0, 0)],
    )?;
    let tail = poly(alloc, f, &[(1, 0, 1, 0), (1, 0, 0, 0)])?;
    let line = poly(alloc, f, &[(1, 0, 0, 0), (4, 1, 0, 0)])?;
    let other = poly(alloc, f, &[(4, 0, 0, 0), (1, 1, 0, 0)])?;
    let difference = poly(alloc, f, &[(3, 1, 0, 0), (2, 0, 0, 0)])?;
    let three = poly(alloc, f, &[(3, 0, 0, 0)])?;

    assert!(rt; curve.lead_in(1)? == x);
    assert!(rt; curve.tail_in(1)? == tail);
    assert!(rt; line.monic(f)? == other);
    assert!(rt; Poly::constant(alloc, f, 3)? == three);
    assert!(rt; curve.copy()? == curve);
    assert!(rt; line.sub(f, &other)? == difference);
    assert!(rt; line.add(f, &other)?.is_zero());
    assert_eq!(rt; curve.main_var(), Some(1));
    assert!(rt; three.is_constant());
    assert_eq!(rt; curve.degree_in(1), 2);
    assert_eq!(rt; curve.term_count(), 3);
    Ok(())
}

/// Whether the degree, the lead and the tail in `v` are these.
fn has_views(
    alloc: Global,
    f: Field,
    whole: &[(u32, u16, u16, u16)],
    v: usize,
    degree: u16,
    lead: &[(u32, u16, u16, u16)],
    tail: &[(u32, u16, u16, u16)],
) -> Result<bool, AllocError>
    requires { v < VARS }
{
    let whole = poly(alloc, f, whole)?;
    let lead = poly(alloc, f, lead)?;
    let tail = poly(alloc, f, tail)?;
    Ok(whole.degree_in(v) == degree && whole.lead_in(v)? == lead && whole.tail_in(v)? == tail)
}

#[test]
fn views_agree_with_terms_taken_apart_by_hand(rt: HostRuntime) -> Result<(), Fail> {
    let alloc = rt.alloc();
    let f = Field::of(7)?;
    // 2 x y^2 + 3 y^2 + x^3 y + 5 x^3 + 6 x + 1, whose main variable is y
    let whole = [
        (2, 1, 2, 0),
        (3, 0, 2, 0),
        (1, 3, 1, 0),
        (5, 3, 0, 0),
        (6, 1, 0, 0),
        (1, 0, 0, 0),
    ];
    let lead_in_x = [(1, 0, 1, 0), (5, 0, 0, 0)];
    let tail_in_x = [(2, 1, 2, 0), (3, 0, 2, 0), (6, 1, 0, 0), (1, 0, 0, 0)];
    let lead_in_y = [(2, 1, 0, 0), (3, 0, 0, 0)];
    let tail_in_y = [(1, 3, 1, 0), (5, 3, 0, 0), (6, 1, 0, 0), (1, 0, 0, 0)];
    assert!(rt; has_views(alloc, f, &whole, 0, 3, &lead_in_x, &tail_in_x)?);
    assert!(rt; has_views(alloc, f, &whole, 1, 2, &lead_in_y, &tail_in_y)?);
    assert!(rt; has_views(alloc, f, &whole, 2, 0, &whole, &[])?);
    assert!(rt; has_views(alloc, f, &whole, VARS - 1, 0, &whole, &[])?);

    // x y + y + x, where another term stands between those with x
    let apart = [(1, 1, 1, 0), (1, 0, 1, 0), (1, 1, 0, 0)];
    let y_and_one = [(1, 0, 1, 0), (1, 0, 0, 0)];
    let x_and_one = [(1, 1, 0, 0), (1, 0, 0, 0)];
    assert!(rt; has_views(alloc, f, &apart, 0, 1, &y_and_one, &[(1, 0, 1, 0)])?);
    assert!(rt; has_views(alloc, f, &apart, 1, 1, &x_and_one, &[(1, 1, 0, 0)])?);

    let three = [(3, 0, 0, 0)];
    assert!(rt; has_views(alloc, f, &[], 0, 0, &[], &[])?);
    assert!(rt; has_views(alloc, f, &three, 0, 0, &three, &[])?);
    assert!(rt; has_views(alloc, f, &[(3, 0, 2, 1)], 1, 2, &[(3, 0, 0, 1)], &[])?);
    Ok(())
}

/// Whether the product of two polynomials fits the width and no smaller one, and is the third.
fn has_product(
    alloc: Global,
    f: Field,
    width: u32,
    left: &[(u32, u16, u16, u16)],
    right: &[(u32, u16, u16, u16)],
    product: &[(u32, u16, u16, u16)],
) -> Result<bool, AllocError>
    requires { 0 < width }
{
    let left = poly(alloc, f, left)?;
    let right = poly(alloc, f, right)?;
    let product = poly(alloc, f, product)?;
    let narrow = Work {
        field: f,
        width: width - 1,
    };
    let wide = Work { field: f, width };
    if left.mul(narrow, &right)?.is_some() {
        return Ok(false);
    }
    match left.mul(wide, &right)? {
        Some(made) => Ok(made == product),
        None => Ok(false),
    }
}

#[test]
fn products_agree_with_sums_done_by_hand(rt: HostRuntime) -> Result<(), Fail> {
    let alloc = rt.alloc();

    // A square modulo 2 is the sum of the squares.
    let f = Field::of(2)?;
    let line = [(1, 1, 0, 0), (1, 0, 1, 0), (1, 0, 0, 1)];
    let squares = [(1, 2, 0, 0), (1, 0, 2, 0), (1, 0, 0, 2)];
    assert!(rt; has_product(alloc, f, 9, &line, &line, &squares)?);

    // (x - y) (x + y + z)
    let f = Field::of(32003)?;
    let difference = [(1, 1, 0, 0), (32002, 0, 1, 0)];
    let product = [
        (1, 2, 0, 0),
        (1, 1, 0, 1),
        (32002, 0, 2, 0),
        (32002, 0, 1, 1),
    ];
    assert!(rt; has_product(alloc, f, 6, &difference, &line, &product)?);

    // (256 x + y z) (256 x - y z), where 256 is a root of -1
    let f = Field::of(65537)?;
    let sum = [(256, 1, 0, 0), (1, 0, 1, 1)];
    let difference = [(256, 1, 0, 0), (65536, 0, 1, 1)];
    let product = [(65536, 2, 0, 0), (65536, 0, 2, 2)];
    assert!(rt; has_product(alloc, f, 4, &sum, &difference, &product)?);
    Ok(())
}

/// Terms whose exponents scatter.
fn scattered(alloc: Global, f: Field, count: usize, seed: u32) -> Result<Poly, AllocError>
    ensures { IfOk result (IsPolynomial f VARS) }
{
    let mut terms = Vec::new(alloc);
    let mut state = seed;
    for _ in 0..count {
        state = state.wrapping_mul(1_664_525).wrapping_add(1_013_904_223);
        let [d, e, g, c] = state.to_be_bytes();
        terms.push((c as u32, d as u16, e as u16, g as u16))?;
    }
    poly(alloc, f, &terms)
}

/// The sum of the products of all pairs of terms.
fn sum_of_pairs(alloc: Global, f: Field, a: &Poly, b: &Poly) -> Result<Poly, AllocError> {
    let mut terms = Vec::new(alloc);
    for t in a.terms() {
        for u in b.terms() {
            if t.0.fits(u.0) {
                terms.push((t.0.product(u.0), f.residue(t.1 as u64 * u.1 as u64)))?;
            }
        }
    }
    Poly::from_terms(alloc, f, &terms)
}

/// Whether a product of so many scattered terms is the sum of the products of all pairs.
fn is_sum_of_pairs(alloc: Global, p: u64, few: usize, many: usize) -> Result<bool, Fail> {
    let field = Field::of(p)?;
    let a = scattered(alloc, field, few, 1)?;
    let b = scattered(alloc, field, many, 2)?;
    let sum = sum_of_pairs(alloc, field, &a, &b)?;
    let width = u32::MAX;
    Ok(
        a.mul(Work { field, width }, &b)?
            .is_some_and(|made| made == sum),
    )
}

#[test]
fn products_of_scattered_terms_are_sums_of_all_pairs(rt: HostRuntime) -> Result<(), Fail> {
    let alloc = rt.alloc();
    assert!(rt; is_sum_of_pairs(alloc, 32003, 6, 6)?);
    assert!(rt; is_sum_of_pairs(alloc, 32003, 6, 40)?);
    assert!(rt; is_sum_of_pairs(alloc, 32003, 40, 40)?);
    // So many pairs are sorted in parts.
    assert!(rt; is_sum_of_pairs(alloc, 32003, 400, 400)?);
    assert!(rt; is_sum_of_pairs(alloc, 2, 400, 4000)?);
    Ok(())
}

#[test]
fn a_square_fits_from_the_number_of_its_pairs_on(rt: HostRuntime) -> Result<(), Fail> {
    let alloc = rt.alloc();
    let field = Field::of(5)?;
    let sum = poly(alloc, field, &[(1, 1, 0, 0), (1, 0, 0, 0)])?;
    let square = poly(alloc, field, &[(1, 2, 0, 0), (2, 1, 0, 0), (1, 0, 0, 0)])?;
    assert!(rt; sum.mul(Work { field, width: 3 }, &sum)?.is_none());
    assert!(rt;
        sum.mul(Work { field, width: 4 }, &sum)?
            .is_some_and(|made| made == square)
    );
    Ok(())
}

#[test]
fn a_term_is_taken_away_or_multiplied_in(rt: HostRuntime) -> Result<(), Fail> {
    let alloc = rt.alloc();
    let f = Field::of(5)?;
    let x = poly(alloc, f, &[(1, 1, 0, 0)])?;
    let line = poly(alloc, f, &[(1, 1, 0, 0), (4, 0, 0, 0)])?;
    let shifted = poly(alloc, f, &[(1, 1, 0, 1), (4, 0, 0, 1)])?;
    let one = Poly::constant(alloc, f, 1)?;
    assert!(rt; x.sub(f, &line)? == one);
    assert!(rt; one.add(f, &line)? == x);
    assert_eq!(rt; line.degree_in(2), 0);
    assert!(rt; line.times_power(f, 2, 1)? == shifted);
    Ok(())
}

fn crosses_threads<T: Send + Sync + Drop>(_value: T) {}

#[test]
fn a_system_is_made_and_read_and_may_cross_threads(rt: HostRuntime) -> Result<(), Fail> {
    let alloc = rt.alloc();
    let field = Field::of(7)?;
    let mut names = Names::new(alloc);
    names.push(format!(in alloc; "x")?)?;
    let mut inputs = Polys::new(alloc);
    inputs.push(Poly::constant(alloc, field, 6)?)?;
    let system = System {
        field,
        names,
        inputs,
        nonzero: Polys::new(alloc),
    };
    assert_eq!(rt; system.field.prime(), 7);
    assert_eq!(rt; system.names.count(), 1);
    assert_eq!(rt; system.inputs.count(), 1);
    assert_eq!(rt; system.nonzero.count(), 0);
    crosses_threads(system);
    crosses_threads(Work { field, width: 1 });
    crosses_threads(Poly::zero(alloc));
    Ok(())
}
