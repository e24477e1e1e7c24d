ghost use Rattle.std.specs.Prelude.{◌≡◌, ◌≤◌, [], ◌∷◌, length, IfOk, IsTrue};
ghost use Rattle.polynomials.specs.Polynomials.{IsPolynomial};
ghost use Rattle.polynomials.specs.Views.{degree_in};
ghost use Rattle.division_rules.specs.Rows.{plains};
ghost use Rattle.division_rules.specs.Triangular.{AreTriangular};
ghost use Rattle.division_rules.specs.PolynomialRows.{IsPolynomialRow};

use super::*;
use field_table::Field;
use mono_words::{Mono, VARS};
use sparse_poly::{Poly, Polys, Work};
use std::alloc::{AllocError, Global};
use std::test::Fail;

/// Terms `c a^d x^e`, as `(d, e, c)`.
type Terms<'a> = &'a [(u16, u16, u32)];

/// The first entry of a row, and its three cofactors.
type Entries<'a> = (Terms<'a>, Terms<'a>, Terms<'a>, Terms<'a>);

/// The polynomial with the terms of a list.
fn poly(alloc: Global, f: Field, terms: Terms<'_>) -> Result<Poly, AllocError>
    ensures { IfOk result (IsPolynomial f VARS) }
{
    let mut list = Vec::new(alloc);
    for (d, e, c) in terms {
        let a = Mono::power(0, *d);
        let x = Mono::power(1, *e);
        if *c < f.prime() {
            list.push((a.max_exponents(x), *c))?;
        }
    }
    Poly::from_terms(alloc, f, &list)
}

/// The row with these entries.
fn row(alloc: Global, f: Field, entries: Entries<'_>) -> Result<Row, AllocError>
    ensures over { IfOk result (IsPolynomialRow f VARS) }
    ensures three { IfOk result (λ r. length r.cofactors ≡ 3) }
{
    let (first, a, b, c) = entries;
    let mut cofactors = Polys::new(alloc);
    cofactors.push(poly(alloc, f, a)?)?;
    cofactors.push(poly(alloc, f, b)?)?;
    cofactors.push(poly(alloc, f, c)?)?;
    Ok(Row {
        first: poly(alloc, f, first)?,
        cofactors,
    })
}

/// Whether the polynomial has these terms; no terms are due where there is none.
fn is_poly(
    alloc: Global,
    f: Field,
    found: Option<Poly>,
    due: Option<Terms<'_>>,
) -> Result<bool, Fail> {
    match (found, due) {
        (None, None) => Ok(true),
        (Some(found), Some(due)) => Ok(found == poly(alloc, f, due)?),
        _ => Ok(false),
    }
}

/// Whether the row has these entries; none are due where there is no row.
fn is_row(
    alloc: Global,
    f: Field,
    found: Option<Row>,
    due: Option<Entries<'_>>,
) -> Result<bool, Fail> {
    match (found, due) {
        (None, None) => Ok(true),
        (Some(found), Some(due)) => {
            let due = row(alloc, f, due)?;
            Ok(found.first == due.first && have_same(&found.cofactors, &due.cofactors))
        }
        _ => Ok(false),
    }
}

/// Whether two lists have the same three polynomials.
fn have_same(a: &Polys, b: &Polys) -> bool {
    if a.count() != 3 || b.count() != 3 {
        return false;
    }
    *a.at(0) == *b.at(0) && *a.at(1) == *b.at(1) && *a.at(2) == *b.at(2)
}

/// Whether the power of `a` is `due`.
fn powers(
    alloc: Global,
    width: u32,
    a: Terms<'_>,
    e: u16,
    due: Option<Terms<'_>>,
) -> Result<bool, Fail> {
    let field = Field::of(5)?;
    let a = poly(alloc, field, a)?;
    let found = power(alloc, Work { field, width }, &a, e)?;
    is_poly(alloc, field, found, due)
}

/// Whether an elimination in x may be asked for.
fn may_eliminate(f: &Row, g: &Row) -> bool
    ensures degrees { IsTrue result → degree_in 1 g.now.first ≤ degree_in 1 f.now.first }
    ensures occurs { IsTrue result → 1 ≤ degree_in 1 g.now.first }
{
    1 <= g.first.degree_in(1) && g.first.degree_in(1) <= f.first.degree_in(1)
}

/// Whether an elimination in x gives `due`; false where none is possible.
fn eliminates(
    alloc: Global,
    width: u32,
    f: Entries<'_>,
    g: Entries<'_>,
    due: Option<Entries<'_>>,
) -> Result<bool, Fail> {
    let field = Field::of(5)?;
    let f = row(alloc, field, f)?;
    let g = row(alloc, field, g)?;
    if !may_eliminate(&f, &g) {
        return Ok(false);
    }
    let found = eliminate(alloc, Work { field, width }, &f, &g, 1)?;
    is_row(alloc, field, found, due)
}

/// Whether the pseudo-remainder in x is `due`; false where none is possible.
fn remains(
    alloc: Global,
    width: u32,
    f: Entries<'_>,
    g: Entries<'_>,
    due: Option<Entries<'_>>,
) -> Result<bool, Fail> {
    let field = Field::of(5)?;
    let f = row(alloc, field, f)?;
    let g = row(alloc, field, g)?;
    if !may_eliminate(&f, &g) {
        return Ok(false);
    }
    let found = prem_full(alloc, Work { field, width }, &f, &g, 1)?;
    is_row(alloc, field, found, due)
}

/// Whether two polynomials have main variables, the first the lesser.
fn are_triangular(t: &Poly, s: &Poly) -> bool
    ensures { IsTrue result → AreTriangular (plains (t.now ∷ s.now ∷ [])) }
{
    match (t.main_var(), s.main_var()) {
        (Some(u), Some(v)) => u < v,
        _ => false,
    }
}

/// Whether the reduction by two polynomials is `due`; false where they aren't triangular.
fn reduces(
    alloc: Global,
    width: u32,
    f: Terms<'_>,
    t: Terms<'_>,
    s: Terms<'_>,
    due: Option<Terms<'_>>,
) -> Result<bool, Fail> {
    let field = Field::of(5)?;
    let f = poly(alloc, field, f)?;
    let t = poly(alloc, field, t)?;
    let s = poly(alloc, field, s)?;
    if !are_triangular(&t, &s) {
        return Ok(false);
    }
    let mut by = Polys::new(alloc);
    by.push(t)?;
    by.push(s)?;
    let found = reduce(Work { field, width }, &f, &by)?;
    is_poly(alloc, field, found, due)
}

/// Whether the reduction by two rows is `due`; false where they aren't triangular.
fn reduces_row(
    alloc: Global,
    width: u32,
    f: Entries<'_>,
    t: Entries<'_>,
    s: Entries<'_>,
    due: Option<Entries<'_>>,
) -> Result<bool, Fail> {
    let field = Field::of(5)?;
    let f = row(alloc, field, f)?;
    let t = row(alloc, field, t)?;
    let s = row(alloc, field, s)?;
    if !are_triangular(&t.first, &s.first) {
        return Ok(false);
    }
    let mut by = Rows::new(alloc);
    by.push(t)?;
    by.push(s)?;
    let found = reduce_rows(alloc, Work { field, width }, f, &by)?;
    is_row(alloc, field, found, due)
}

#[test]
fn a_power_fits_from_its_greatest_product_on(rt: HostRuntime) -> Result<(), Fail> {
    let alloc = rt.alloc();
    let one: Terms<'_> = &[(0, 0, 1)];
    let sum: Terms<'_> = &[(0, 1, 1), (0, 0, 1)];
    let square: Terms<'_> = &[(0, 2, 1), (0, 1, 2), (0, 0, 1)];
    assert!(rt; powers(alloc, 3, sum, 2, None)?);
    assert!(rt; powers(alloc, 4, sum, 2, Some(square))?);
    assert!(rt; powers(alloc, 3, sum, 1, Some(sum))?);
    assert!(rt; powers(alloc, 0, sum, 0, Some(one))?);
    Ok(())
}

#[test]
fn powers_of_0_of_constants_and_of_the_greatest_exponent(rt: HostRuntime) -> Result<(), Fail> {
    let alloc = rt.alloc();
    let three: Terms<'_> = &[(0, 0, 3)];
    let greatest: Terms<'_> = &[(0, 65535, 1)];
    assert!(rt; powers(alloc, 0, &[], 0, Some(&[(0, 0, 1)]))?);
    assert!(rt; powers(alloc, 0, &[], 3, Some(&[]))?);
    assert!(rt; powers(alloc, 1, three, 2, Some(&[(0, 0, 4)]))?);
    assert!(rt; powers(alloc, 0, three, 2, None)?);
    assert!(rt; powers(alloc, 1, greatest, 1, Some(greatest))?);
    assert!(rt; powers(alloc, 1, greatest, 2, None)?);
    Ok(())
}

#[test]
fn a_remainder_by_x_keeps_its_cofactors(rt: HostRuntime) -> Result<(), Fail> {
    let alloc = rt.alloc();
    let one: Terms<'_> = &[(0, 0, 1)];
    // The generators are x and x^2 + 4*a.
    let x: Entries<'_> = (&[(0, 1, 1)], one, &[], &[]);
    let square: Entries<'_> = (&[(0, 2, 1), (1, 0, 4)], &[], one, &[]);
    let four_a: Entries<'_> = (&[(1, 0, 4)], &[(0, 1, 4)], one, &[]);
    assert!(rt; remains(alloc, 2, square, x, Some(four_a))?);
    assert!(rt; eliminates(alloc, 2, square, x, Some(four_a))?);
    assert!(rt; eliminates(alloc, 1, square, x, None)?);
    Ok(())
}

#[test]
fn a_full_remainder_multiplies_further(rt: HostRuntime) -> Result<(), Fail> {
    let alloc = rt.alloc();
    let one: Terms<'_> = &[(0, 0, 1)];
    // One elimination leaves a, and a^2 has the power of the lead that is due.
    let f: Entries<'_> = (&[(1, 2, 1), (0, 1, 1), (0, 0, 1)], one, &[], &[]);
    let g: Entries<'_> = (&[(1, 1, 1), (0, 0, 1)], &[], one, &[]);
    let sparse: Entries<'_> = (&[(1, 0, 1)], &[(1, 0, 1)], &[(1, 1, 4)], &[]);
    let full: Entries<'_> = (&[(2, 0, 1)], &[(2, 0, 1)], &[(2, 1, 4)], &[]);
    assert!(rt; eliminates(alloc, 3, f, g, Some(sparse))?);
    assert!(rt; remains(alloc, 3, f, g, Some(full))?);
    // Two eliminations.
    let square: Entries<'_> = (&[(0, 2, 1)], one, &[], &[]);
    let rest: Entries<'_> = (one, &[(2, 0, 1)], &[(1, 1, 4), (0, 0, 1)], &[]);
    assert!(rt; remains(alloc, 3, square, g, Some(rest))?);
    Ok(())
}

#[test]
fn each_product_has_to_fit(rt: HostRuntime) -> Result<(), Fail> {
    let alloc = rt.alloc();
    let one: Terms<'_> = &[(0, 0, 1)];
    let a_x: Entries<'_> = (&[(1, 1, 1)], &[], one, &[]);
    let a_x_plus_one: Entries<'_> = (&[(1, 1, 1), (0, 0, 1)], &[], one, &[]);
    let square: Entries<'_> = (&[(0, 2, 1)], one, &[], &[]);
    // The first product of the first entries has two terms, then the second, then one of a cofactor.
    let sum: Entries<'_> = (&[(0, 2, 1), (1, 0, 4)], one, &[], &[]);
    let wide: Entries<'_> = (&[(0, 2, 1)], &[(1, 0, 1), (0, 0, 1)], &[], &[]);
    assert!(rt; eliminates(alloc, 1, sum, a_x, None)?);
    assert!(rt; eliminates(alloc, 1, square, a_x_plus_one, None)?);
    assert!(rt; eliminates(alloc, 1, wide, a_x, None)?);
    assert!(rt; remains(alloc, 1, square, a_x_plus_one, None)?);
    let rest: Entries<'_> = (&[], &[(2, 0, 1), (1, 0, 1)], &[(0, 1, 4)], &[]);
    assert!(rt; eliminates(alloc, 2, wide, a_x, Some(rest))?);
    Ok(())
}

#[test]
fn a_reduction_goes_from_the_greatest_variable_down(rt: HostRuntime) -> Result<(), Fail> {
    let alloc = rt.alloc();
    let one: Terms<'_> = &[(0, 0, 1)];
    let square: Terms<'_> = &[(0, 2, 1)];
    let four: Terms<'_> = &[(0, 0, 4)];
    // By x + a the square leaves a^2, and that by a^2 + 1 leaves 4.
    let t: Terms<'_> = &[(2, 0, 1), (0, 0, 1)];
    let s: Terms<'_> = &[(0, 1, 1), (1, 0, 1)];
    assert!(rt; reduces(alloc, 2, square, t, s, Some(four))?);
    assert!(rt; reduces(alloc, 1, square, t, s, None)?);
    let f: Entries<'_> = (square, one, &[], &[]);
    let rest: Entries<'_> = (four, one, four, &[(0, 1, 4), (1, 0, 1)]);
    assert!(rt;
        reduces_row(
            alloc,
            2,
            f,
            (t, &[], one, &[]),
            (s, &[], &[], one),
            Some(rest)
        )?
    );
    Ok(())
}

#[test]
fn x_reduced_by_x_plus_4_is_1(rt: HostRuntime) -> Result<(), Fail> {
    let alloc = rt.alloc();
    let one: Terms<'_> = &[(0, 0, 1)];
    let x: Terms<'_> = &[(0, 1, 1)];
    // The other polynomial, a, has nothing to eliminate.
    let a: Terms<'_> = &[(1, 0, 1)];
    let s: Terms<'_> = &[(0, 1, 1), (0, 0, 4)];
    assert!(rt; reduces(alloc, 2, x, a, s, Some(one))?);
    let f: Entries<'_> = (x, one, &[], &[]);
    let rest: Entries<'_> = (one, one, &[(0, 0, 4)], &[]);
    assert!(rt;
        reduces_row(
            alloc,
            2,
            f,
            (a, &[], &[], one),
            (s, &[], one, &[]),
            Some(rest)
        )?
    );
    Ok(())
}

#[test]
fn what_is_reduced_stays(rt: HostRuntime) -> Result<(), Fail> {
    let alloc = rt.alloc();
    // No product is made, so none has to fit.
    let t: Terms<'_> = &[(2, 0, 1), (0, 0, 1)];
    let s: Terms<'_> = &[(0, 1, 1), (1, 0, 1)];
    let a_plus_one: Terms<'_> = &[(1, 0, 1), (0, 0, 1)];
    assert!(rt; reduces(alloc, 0, &[], t, s, Some(&[]))?);
    assert!(rt; reduces(alloc, 0, &[(0, 0, 3)], t, s, Some(&[(0, 0, 3)]))?);
    assert!(rt; reduces(alloc, 0, a_plus_one, t, s, Some(a_plus_one))?);
    let kept: Entries<'_> = (a_plus_one, t, s, t);
    assert!(rt;
        reduces_row(
            alloc,
            0,
            kept,
            (t, &[], &[], &[]),
            (s, &[], &[], &[]),
            Some(kept)
        )?
    );
    Ok(())
}

/// Whether the reduction by no polynomial is the polynomial itself.
fn stays_alone(alloc: Global, width: u32, f: Terms<'_>) -> Result<bool, Fail> {
    let field = Field::of(5)?;
    let f = poly(alloc, field, f)?;
    let by = Polys::new(alloc);
    let found = reduce(Work { field, width }, &f, &by)?;
    Ok(found.is_some_and(|r| r == f))
}

#[test]
fn an_empty_chain_reduces_nothing(rt: HostRuntime) -> Result<(), Fail> {
    let alloc = rt.alloc();
    assert!(rt; stays_alone(alloc, 0, &[])?);
    assert!(rt; stays_alone(alloc, 0, &[(0, 0, 3)])?);
    assert!(rt; stays_alone(alloc, 0, &[(0, 65535, 1), (3, 1, 2)])?);
    Ok(())
}
