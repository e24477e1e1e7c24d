//! The terms of a divisor by their places in a box, in runs of consecutive places.
use std::alloc::{AllocError, Global};

/// How many terms a run has in the mean where it pays to go by runs.
const LONG_RUN: usize = 6;

/// Terms of falling places.
#[derive(Drop)]
pub struct Runs<'a> {
    places: &'a [(usize, u32)],
    /// Rising; none where they are short.
    runs: Vec<Run>,
    /// The coefficients of all runs.
    coefficients: Vec<u32>,
}

/// Consecutive places from the least one up, and where the first coefficient stands.
#[derive(Clone, Copy)]
struct Run {
    least: usize,
    length: usize,
    first: usize,
}

/// Terms of falling places, in runs where these are long.
pub fn runs_of(alloc: Global, places: &[(usize, u32)]) -> Result<Runs, AllocError> {
    let mut runs = Vec::new(alloc);
    if runs_in(places).saturating_mul(LONG_RUN) > places.len() {
        return Ok(Runs {
            places,
            runs,
            coefficients: Vec::new(alloc),
        });
    }
    let mut coefficients = Vec::with_capacity(alloc, places.len())?;
    let none = Run {
        least: 0,
        length: 0,
        first: 0,
    };
    let mut run = none;
    for u in places.iter().rev() {
        if run.length != 0 && u.0 == run.least.wrapping_add(run.length) {
            run.length = run.length.wrapping_add(1);
        } else {
            runs.push(run)?;
            run = Run {
                least: u.0,
                length: 1,
                first: coefficients.len(),
            };
        }
        coefficients.push(u.1)?;
    }
    runs.push(run)?;
    Ok(Runs {
        places,
        runs,
        coefficients,
    })
}

/// How many runs there are.
fn runs_in(places: &[(usize, u32)]) -> usize {
    let mut count: usize = 1;
    let mut least: usize = 0;
    for u in places {
        if u.0.wrapping_add(1) != least {
            count = count.wrapping_add(1);
        }
        least = u.0;
    }
    count
}

impl Runs<'_> {
    /// Adds `c` times each coefficient to the sum as far beyond `start` as its place is. The first sum
    /// is that of the place `floor`.
    pub fn add_multiple(&self, sums: &mut [u64], start: usize, floor: usize, c: u32) {
        if self.runs.is_empty() {
            add_places(sums, start, floor, c, self.places);
            return;
        }
        for run in self.runs.iter().rev() {
            let least = start.wrapping_add(run.least);
            let below = floor.saturating_sub(least);
            if below >= run.length {
                return;
            }
            let (first, end) = (
                run.first.wrapping_add(below),
                run.first.wrapping_add(run.length),
            );
            let (Some(coefficients), Some(row)) = (
                self.coefficients.get(first..end),
                sums.get_mut(least.saturating_sub(floor)..),
            ) else {
                return;
            };
            add_consecutive(row, c, coefficients);
        }
    }
}

/// The same where places are consecutive, from the first sum on.
fn add_consecutive(sums: &mut [u64], c: u32, coefficients: &[u32]) {
    for (sum, u) in sums.iter_mut().zip(coefficients) {
        *sum = sum.wrapping_add(c as u64 * *u as u64);
    }
}

/// The same, term by term.
fn add_places(sums: &mut [u64], start: usize, floor: usize, c: u32, places: &[(usize, u32)]) {
    for u in places {
        let k = start.wrapping_add(u.0);
        if k < floor {
            return;
        }
        if let Some(sum) = sums.get_mut(k.wrapping_sub(floor)) {
            *sum = sum.wrapping_add(c as u64 * u.1 as u64);
        }
    }
}
