//! A guess at the terms of a quotient by a sum for each place.
use crate::ends::{End, Frame};
use crate::runs::runs_of;
use field_table::Field;
use mono_words::Mono;
use std::alloc::{AllocError, Global};

/// For how many terms there is room at first.
const FIRST_CAPACITY: usize = 32;

/// The terms of the quotient that an end gives, from its first place down to its floor, or up to the
/// first term that the quotient can't have; and whether all of them could be.
pub fn divided_in_box(
    alloc: Global,
    f: Field,
    frame: &Frame,
    end: &End,
) -> Result<(Vec<(Mono, u32)>, bool), AllocError> {
    let mut quotient = Vec::with_capacity(alloc, FIRST_CAPACITY)?;
    let runs = runs_of(alloc, &end.later)?;
    let size = frame.high.saturating_add(1).saturating_sub(end.floor);
    let mut sums = vec![in alloc; 0_u64; size]?;
    for t in &end.heads {
        if let Some(sum) = sums.get_mut(t.0.wrapping_sub(end.floor)) {
            *sum = t.1 as u64;
        }
    }
    let mut last = (frame.first_monomial(end.turned), 0_usize);
    for k in (0..sums.len()).rev() {
        let sum = match sums.get(k) {
            Some(sum) => *sum,
            None => 0,
        };
        let c = f.residue(sum);
        if c != 0 {
            // Only here is a monomial needed, so that it is found back from its place.
            let start = k.wrapping_add(end.floor).wrapping_sub(end.lead);
            let Some(monomial) = frame.monomial_near(last, start, end.turned) else {
                return Ok((quotient, false));
            };
            last = (monomial, start);
            let t = (monomial, f.residue(c as u64 * end.inverse as u64));
            runs.add_multiple(&mut sums, start, end.floor, f.neg(t.1));
            quotient.push(t)?;
        }
    }
    Ok((quotient, true))
}
