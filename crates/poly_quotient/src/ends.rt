//! The two ends of a division. The greater half of a quotient follows from the greatest terms of the
//! dividend, and the lesser half in the same way from the least ones: with places that count from the
//! greatest one down. So three in four of the products in the middle aren't needed.
use crate::places::{monomial_at, place};
use field_table::Field;
use mono_words::Mono;
use sparse_poly::Poly;
use std::alloc::{AllocError, Global};

/// For how many terms there is room at first.
const FIRST_CAPACITY: usize = 128;

/// The box of a division: its sides, the quotient's degrees, and the places of the greatest monomials
/// of the dividend, the divisor and the quotient.
#[derive(Drop)]
pub struct Frame {
    pub sides: Vec<usize>,
    pub room: Mono,
    pub high: usize,
    pub of_divisor: usize,
    pub of_quotient: usize,
}

/// One end of a division, as places that fall, with their coefficients.
#[derive(Drop)]
pub struct End {
    /// The terms of the dividend down to `floor`.
    pub heads: Vec<(usize, u32)>,
    /// The divisor's first place, and the inverse of its coefficient.
    pub lead: usize,
    pub inverse: u32,
    /// The other terms of the divisor.
    pub later: Vec<(usize, u32)>,
    /// Where the multiple by the last term that is looked for begins.
    pub floor: usize,
    /// Whether places count from the greatest one down.
    pub turned: bool,
}

impl Frame {
    /// The frame of a division of `a` by `b`, in a box of these sides.
    pub fn of(sides: Vec<usize>, a: &Poly, b: &Poly, room: Mono) -> Frame {
        Frame {
            high: place(&sides, a.degrees()),
            of_divisor: place(&sides, b.degrees()),
            of_quotient: place(&sides, room),
            sides,
            room,
        }
    }

    /// The end with the greatest terms, for the quotient down to the place `middle`.
    pub fn upper(
        &self,
        alloc: Global,
        f: Field,
        a: &Poly,
        b: &Poly,
        middle: usize,
    ) -> Result<Option<End>, AllocError> {
        let mut divisor = Vec::with_capacity(alloc, b.term_count())?;
        for u in b.terms() {
            divisor.push((place(&self.sides, u.0), u.1))?;
        }
        let Some(mut end) = end_of(alloc, f, &divisor, middle)? else {
            return Ok(None);
        };
        for t in a.terms() {
            let k = place(&self.sides, t.0);
            if k < end.floor {
                return Ok(Some(end));
            }
            end.heads.push((k, t.1))?;
        }
        Ok(Some(end))
    }

    /// The end with the least terms, for the quotient below the place `middle`.
    pub fn lower(
        &self,
        alloc: Global,
        f: Field,
        a: &Poly,
        b: &Poly,
        middle: usize,
    ) -> Result<Option<End>, AllocError> {
        let middle = self.of_quotient.wrapping_add(1).wrapping_sub(middle);
        let mut divisor = Vec::with_capacity(alloc, b.term_count())?;
        for u in b.terms().iter().rev() {
            let k = self.of_divisor.wrapping_sub(place(&self.sides, u.0));
            divisor.push((k, u.1))?;
        }
        let Some(mut end) = end_of(alloc, f, &divisor, middle)? else {
            return Ok(None);
        };
        end.turned = true;
        for t in a.terms().iter().rev() {
            let k = self.high.wrapping_sub(place(&self.sides, t.0));
            if k < end.floor {
                return Ok(Some(end));
            }
            end.heads.push((k, t.1))?;
        }
        Ok(Some(end))
    }

    /// The monomial at the place 0 of the quotient.
    pub fn first_monomial(&self, turned: bool) -> Mono {
        if turned { self.room } else { Mono::one() }
    }

    /// The monomial at a place of the quotient, where the quotient can have it. Mostly it is that of
    /// another place by a power of the least variable: dividing takes more time.
    pub fn monomial_near(&self, near: (Mono, usize), k: usize, turned: bool) -> Option<Mono> {
        if let Ok(steps) = u16::try_from(near.1.wrapping_sub(k)) {
            let power = Mono::power(0, steps);
            if turned {
                if near.0.fits(power) {
                    let monomial = near.0.product(power);
                    if monomial.exponent(0) <= self.room.exponent(0) {
                        return Some(monomial);
                    }
                }
            } else if power.divides(near.0) {
                return Some(near.0.quotient(power));
            }
        }
        self.monomial_at(k, turned)
    }

    /// The monomial at a place of the quotient, where the quotient can have it.
    pub fn monomial_at(&self, k: usize, turned: bool) -> Option<Mono> {
        let k = if turned {
            self.of_quotient.wrapping_sub(k)
        } else {
            k
        };
        let monomial = monomial_at(&self.sides, k)?;
        if monomial.divides(self.room) {
            Some(monomial)
        } else {
            None
        }
    }
}

/// An end with no terms of the dividend yet, for the quotient down to the place `middle`.
fn end_of(
    alloc: Global,
    f: Field,
    divisor: &[(usize, u32)],
    middle: usize,
) -> Result<Option<End>, AllocError> {
    let Some((lead, later)) = divisor.split_first() else {
        return Ok(None);
    };
    let c = f.residue(lead.1 as u64);
    if c == 0 {
        return Ok(None);
    }
    Ok(Some(End {
        heads: Vec::with_capacity(alloc, FIRST_CAPACITY)?,
        lead: lead.0,
        inverse: f.inv(c),
        later: Vec::from_slice(alloc, later)?,
        floor: lead.0.wrapping_add(middle),
        turned: false,
    }))
}
