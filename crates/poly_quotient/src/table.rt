//! A guess at the terms of a quotient by a table of sums, each at the place of its monomial.
use crate::ends::{End, Frame};
use field_table::Field;
use mono_words::Mono;
use std::alloc::{AllocError, Global};
use std::collections::BinaryHeap;

/// An odd number whose multiples are spread over the greatest bits.
const SPREAD: u64 = 0x9e37_79b9_7f4a_7c15;

/// For how many terms of a quotient there is room at first.
const FIRST_CAPACITY: usize = 32;

/// Sums by their places in an open table.
#[derive(Drop)]
struct Table {
    /// A place and its sum; the place 0 where the slot is free. Their number is a power of 2.
    slots: Vec<(usize, u64)>,
    /// How many bits of a multiple don't count.
    shift: u32,
    /// How many more places it takes: beyond, searches are long.
    left: usize,
    /// The places that the dividend doesn't have.
    others: BinaryHeap<usize>,
}

/// A table with the terms of a dividend.
fn table_of(alloc: Global, heads: &[(usize, u32)]) -> Result<Table, AllocError> {
    let mut count: usize = 64;
    let mut shift: u32 = 58;
    for _ in 0..32 {
        if count < heads.len().saturating_mul(2) {
            count = count.saturating_mul(2);
            shift = shift.wrapping_sub(1);
        }
    }
    let mut table = Table {
        slots: vec![in alloc; (0_usize, 0_u64); count]?,
        shift,
        left: (count / 4).saturating_mul(3),
        others: BinaryHeap::new(alloc),
    };
    for t in heads {
        table.add(t.0, t.1 as u64);
    }
    Ok(table)
}

impl Table {
    /// Adds to the sum at a place. Tells whether the place is a new one.
    fn add(&mut self, k: usize, value: u64) -> bool {
        let mask = self.slots.len().wrapping_sub(1);
        let mut i = (k as u64).wrapping_mul(SPREAD).wrapping_shr(self.shift) as usize;
        for _ in 0..self.slots.len() {
            let Some(slot) = self.slots.get_mut(i) else {
                return false;
            };
            if slot.0 == k {
                slot.1 = slot.1.wrapping_add(value);
                return false;
            }
            if slot.0 == 0 {
                *slot = (k, value);
                self.left = self.left.saturating_sub(1);
                return true;
            }
            i = i.wrapping_add(1) & mask;
        }
        false
    }

    /// Adds `c` times the divisor's later terms to the sums as far beyond `start` as their places are,
    /// down to the place `floor`.
    fn add_multiple(
        &mut self,
        start: usize,
        floor: usize,
        c: u32,
        later: &[(usize, u32)],
    ) -> Result<(), AllocError> {
        for u in later {
            let k = start.wrapping_add(u.0);
            if k < floor {
                return Ok(());
            }
            if self.add(k, c as u64 * u.1 as u64) {
                self.others.push(k)?;
                if self.left == 0 {
                    return Ok(());
                }
            }
        }
        Ok(())
    }

    /// The greatest of a place and those that the dividend doesn't have; it is taken out of these.
    fn greatest(&mut self, first: usize) -> usize {
        match self.others.peek() {
            Some(other) if *other > first => match self.others.pop() {
                Some(other) => other,
                None => first,
            },
            _ => first,
        }
    }

    /// The sum at a place.
    fn sum(&self, k: usize) -> u64 {
        let mask = self.slots.len().wrapping_sub(1);
        let mut i = (k as u64).wrapping_mul(SPREAD).wrapping_shr(self.shift) as usize;
        for _ in 0..self.slots.len() {
            let Some(slot) = self.slots.get(i) else {
                return 0;
            };
            if slot.0 == k {
                return slot.1;
            }
            if slot.0 == 0 {
                return 0;
            }
            i = i.wrapping_add(1) & mask;
        }
        0
    }
}

/// The terms of the quotient that an end gives, from its first place down to its floor, or up to the
/// first term that the quotient can't have or where the dividend lacks too many places of products;
/// and whether all of them could be.
pub fn divided_by_table(
    alloc: Global,
    f: Field,
    frame: &Frame,
    end: &End,
) -> Result<(Vec<(Mono, u32)>, bool), AllocError> {
    let mut quotient = Vec::with_capacity(alloc, FIRST_CAPACITY)?;
    let mut table = table_of(alloc, &end.heads)?;
    let mut taken: usize = 0;
    for _ in 0..u64::MAX {
        let first = match end.heads.get(taken) {
            Some(t) => t.0,
            None => 0,
        };
        let k = table.greatest(first);
        if k < end.floor || k == 0 {
            return Ok((quotient, true));
        }
        if k == first {
            taken = taken.wrapping_add(1);
        }
        let c = f.residue(table.sum(k));
        if c != 0 {
            let start = k.wrapping_sub(end.lead);
            let Some(monomial) = frame.monomial_at(start, end.turned) else {
                return Ok((quotient, false));
            };
            let t = (monomial, f.residue(c as u64 * end.inverse as u64));
            table.add_multiple(start, end.floor, f.neg(t.1), &end.later)?;
            quotient.push(t)?;
            if table.left == 0 {
                return Ok((quotient, false));
            }
        }
    }
    Ok((quotient, false))
}
