//! The places of monomials in a box. They add as monomials multiply, and have the same order.
use mono_words::{Mono, VARS};
use std::alloc::{AllocError, Global};

/// The sides of a box up to the degrees `high` and its size, where that is at most `most`.
pub fn sides_of(
    alloc: Global,
    high: Mono,
    most: usize,
) -> Result<Option<(Vec<usize>, usize)>, AllocError> {
    let mut sides = Vec::new(alloc);
    let mut size: usize = 1;
    let variables = match high.greatest_variable() {
        Some(v) => v.saturating_add(1).min(VARS),
        None => 0,
    };
    for v in 0..variables {
        let side = high.exponent(v) as usize + 1;
        size = size.saturating_mul(side);
        if size > most {
            return Ok(None);
        }
        sides.push(side)?;
    }
    Ok(Some((sides, size)))
}

/// How many monomials of the box are less than `m`, where it is inside.
pub fn place(sides: &[usize], m: Mono) -> usize {
    let mut place: usize = 0;
    for v in (0..sides.len().min(VARS)).rev() {
        place = place
            .wrapping_mul(sides[v])
            .wrapping_add(m.exponent(v) as usize);
    }
    place
}

/// The monomial of the place `k` of the box.
pub fn monomial_at(sides: &[usize], k: usize) -> Option<Mono> {
    let mut monomial = Mono::one();
    let mut rest = k;
    let variables = sides.len().min(VARS);
    for v in 0..variables {
        let mut exponent = rest;
        // The greatest variable's exponent is what is left: divisions take most of the time.
        if v.wrapping_add(1) < variables {
            let side = sides[v];
            if side == 0 {
                return None;
            }
            exponent = rest % side;
            rest /= side;
        }
        let Ok(exponent) = u16::try_from(exponent) else {
            return None;
        };
        let power = Mono::power(v, exponent);
        if !monomial.fits(power) {
            return None;
        }
        monomial = monomial.product(power);
    }
    Some(monomial)
}

/// `monomial` by `lead`, where the quotient can have it.
pub fn quotient_of(monomial: Mono, lead: Mono, room: Mono) -> Option<Mono> {
    if !lead.divides(monomial) {
        return None;
    }
    let over = monomial.quotient(lead);
    if over.divides(room) { Some(over) } else { None }
}
