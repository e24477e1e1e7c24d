ghost use Rattle.std.specs.Prelude.{◌≡◌, ◌≢◌, ◌<◌, true, [], ◌∷◌, IfOk, IfSome, IsTrue};
ghost use Rattle.polynomials.specs.Polynomials.{Term, Polynomial, StartsBelow, IsPolynomial, difference_of};
ghost use Rattle.polynomials.specs.Fits.{fits};
ghost use Rattle.division_rules.proofs.Divisions.{IsDivision};

use crate::boxed::divided_in_box;
use crate::ends::{End, Frame};
use crate::last::last_monomial;
use crate::places::sides_of;
use crate::table::divided_by_table;
use crate::trial::may_begin;
use field_table::Field;
use mono_words::{Mono, VARS};
use sparse_poly::{Poly, Work};
use std::alloc::{AllocError, Global};

/// The fewest terms of a dividend whose quotient is guessed.
const FEWEST_TERMS: usize = 32;

/// The fewest terms of a dividend that is divided from both ends.
const MANY_TERMS: usize = 256;

/// The most places, so that sums of two don't wrap.
const MOST_PLACES: usize = 1 << 62;

/// The most places that have a sum each, however few are left empty.
const MOST_SUMS: usize = 1 << 22;

/// The fewest terms of a divisor for a table: by fewer ones the heap takes no more time.
const FEW_TERMS: usize = 8;

/// A division on the way: terms of the quotient that are guessed, and what their product with `b`
/// leaves of `a`. Where that is 0, they are the quotient.
pub fn begun(
    alloc: Global,
    w: Work,
    a: &Poly,
    b: &Poly,
    room: Mono,
) -> Result<Option<(Poly, Poly)>, AllocError>
    requires left { IsPolynomial w.field VARS a.now }
    requires right { IsPolynomial w.field VARS b.now }
    requires nonzero { b.now ≢ [] }
    ensures division { IfOk result (λ r. IfSome r (λ d. (u : Term) (g : Polynomial) →
        b.now ≡ u ∷ g → IsDivision w.field VARS u g a.now d.0 d.1)) }
    ensures fit { IfOk result (λ r. IfSome r (λ d. fits w.width d.0 b.now ≡ true)) }
{
    let Work { field, width } = w;
    field.facts();
    let Some(terms) = guessed(alloc, Work { field, width }, a, b, room)? else {
        return Ok(None);
    };
    if !is_canonical(field, &terms) {
        return Ok(None);
    }
    let quotient = Poly::over(field, terms);
    if quotient.is_zero() {
        return Ok(None);
    }
    let Some(product) = quotient.mul(Work { field, width }, b)? else {
        return Ok(None);
    };
    let rest = left_of(alloc, field, a, &product)?;
    // Nothing is promised of the terms: what is left tells whether each quotient begins with them.
    let lead = b.terms()[0].0;
    let last = last_monomial(quotient.terms());
    if last.fits(lead) && starts_below(rest.terms(), last.product(lead)) {
        Ok(Some((quotient, rest)))
    } else {
        Ok(None)
    }
}

/// Whether the terms are those of a polynomial over the field, in their order.
fn is_canonical(f: Field, terms: &[(Mono, u32)]) -> bool
    ensures { IsTrue result → IsPolynomial f VARS terms.now }
{
    let prime = f.prime();
    let mut rest = terms;
    while let Some((first, later)) = rest.split_first() {
        // Tells how many exponents it has.
        first.0.shape();
        if first.1 == 0 || first.1 >= prime || !starts_below(later, first.0) {
            return false;
        }
        rest = later;
    }
    true
}

/// `a` without `product`: mostly they are the same, and nothing is left.
fn left_of(alloc: Global, f: Field, a: &Poly, product: &Poly) -> Result<Poly, AllocError>
    requires left { IsPolynomial f VARS a.now }
    requires right { IsPolynomial f VARS product.now }
    ensures { IfOk result (λ r. r ≡ difference_of f a.now product.now) }
{
    f.facts();
    if *a == *product {
        return Ok(Poly::zero(alloc));
    }
    a.sub(f, product)
}

/// Whether the first monomial is less than `m`, or there is none.
fn starts_below(terms: &[(Mono, u32)], m: Mono) -> bool
    ensures { IsTrue result → StartsBelow m terms.now }
{
    match terms.first() {
        None => true,
        Some(first) => first.0 < m,
    }
}

/// A guess at the terms of the quotient: nothing is promised of it.
fn guessed(
    alloc: Global,
    w: Work,
    a: &Poly,
    b: &Poly,
    room: Mono,
) -> Result<Option<Vec<(Mono, u32)>>, AllocError>
    requires { IsPolynomial w.field VARS b.now }
{
    let f = w.field;
    if a.term_count() < FEWEST_TERMS || !may_begin(f, a.terms(), b.terms(), room) {
        return Ok(None);
    }
    let Some((sides, size)) = sides_of(alloc, a.degrees(), MOST_PLACES)? else {
        return Ok(None);
    };
    if b.term_count() < FEW_TERMS && size > most_sums(a.term_count()) {
        return Ok(None);
    }
    let frame = Frame::of(sides, a, b, room);
    let middle = if a.term_count() < MANY_TERMS {
        0
    } else {
        frame.of_quotient / 2
    };
    let (greater, whole) = match frame.upper(alloc, f, a, b, middle)? {
        None => return Ok(None),
        Some(end) => divided_from(alloc, f, &frame, &end)?,
    };
    if whole && middle != 0 {
        if let Some(end) = frame.lower(alloc, f, a, b, middle)? {
            if let (lesser, true) = divided_from(alloc, f, &frame, &end)? {
                return Ok(Some(joined(greater, &lesser)?));
            }
        }
    }
    Ok(Some(greater))
}

/// How many places may have a sum each, where so many terms are on them.
fn most_sums(count: usize) -> usize {
    count.saturating_mul(8).saturating_add(256).min(MOST_SUMS)
}

/// The terms of the quotient that an end gives, and whether all of them could be.
fn divided_from(
    alloc: Global,
    f: Field,
    frame: &Frame,
    end: &End,
) -> Result<(Vec<(Mono, u32)>, bool), AllocError> {
    if frame.high.saturating_sub(end.floor) < most_sums(end.heads.len()) {
        divided_in_box(alloc, f, frame, end)
    } else {
        divided_by_table(alloc, f, frame, end)
    }
}

/// The terms of both halves: of the lesser one the least come first.
fn joined(
    greater: Vec<(Mono, u32)>,
    lesser: &[(Mono, u32)],
) -> Result<Vec<(Mono, u32)>, AllocError> {
    let mut quotient = greater;
    for t in lesser.iter().rev() {
        quotient.push(*t)?;
    }
    Ok(quotient)
}
