//! Products by sorted places: each product of two terms with its place in a box.
ghost use Rattle.std.specs.Prelude.{◌≡◌, ◌<◌, ◌≤◌, ℕ, ◌++◌, length, map, get_or, IfOk, OnOk};
ghost use Rattle.polynomials.specs.Polynomials.{IsPolynomial, collected, product_of, term_product, term_products};
ghost use Rattle.sparse_poly.specs.Boxes.{place_of, placed, IsBoxOf};
ghost use Rattle.sparse_poly.specs.Keys.{term_at, pair_term, reduced_pair, ArePairs, FallByPlace};
ghost use Rattle.sparse_poly.specs.Pairs.{PairsFit};

use crate::boxes::places_in;
use field_table::Field;
use mono_words::{Mono, VARS};
use std::alloc::{AllocError, Global};

/// A product of two terms: its place in the box, and where its factors stand.
#[derive(Clone, Copy, Debug)]
pub struct Pair {
    place: usize,
    left: u32,
    right: u32,
}

impl Pair {
    /// The product of the monomials.
    fn monomial(self, short: &[(Mono, u32)], long: &[(Mono, u32)]) -> Mono
        requires left { self.left < length short.now }
        requires right { self.right < length long.now }
        requires fit { PairsFit short.now long.now }
        ensures { result ≡ (pair_term short.now long.now self).0 }
    {
        let t = short[self.left as usize];
        t.0.product(long[self.right as usize].0)
    }

    /// The product of the coefficients.
    fn coefficient(self, f: Field, short: &[(Mono, u32)], long: &[(Mono, u32)]) -> u32
        requires left { self.left < length short.now }
        requires right { self.right < length long.now }
        requires left_over { IsPolynomial f VARS short.now }
        requires right_over { IsPolynomial f VARS long.now }
        ensures { result ≡ (reduced_pair f short.now long.now self).1 }
    {
        f.mul(short[self.left as usize].1, long[self.right as usize].1)
    }
}

/// Appends the pairs of the term at `i` of `short`, whose place is `start`, with each of `long`.
fn append_row(
    pairs: &mut Vec<Pair>,
    f: Field,
    sides: &[usize],
    short: &[(Mono, u32)],
    i: usize,
    start: usize,
    long: &[(Mono, u32)],
    places: &[(usize, u32)],
) -> Result<(), AllocError>
    requires factors { IsBoxOf f VARS sides.now short.now long.now }
    requires row { i < length short.now }
    requires start { start ≡ place_of sides.now (term_at short.now i).0 }
    requires places { places.now ≡ map (placed sides.now) long.now }
    requires pairs { ArePairs sides.now short.now long.now pairs.old.items }
    ensures pairs { OnOk result (ArePairs sides.now short.now long.now pairs.new.items) }
    ensures terms { OnOk result (map (pair_term short.now long.now) pairs.new.items
        ≡ map (pair_term short.now long.now) pairs.old.items
        ++ map (term_product (term_at short.now i)) long.now) }
{
    for j in 0..places.len() {
        pairs.push(Pair {
            place: start + places[j].0,
            left: i as u32,
            right: j as u32,
        })?;
    }
    Ok(())
}

/// All pairs, in the order of `short` and then of `long`.
fn pairs_of(
    alloc: Global,
    f: Field,
    sides: &[usize],
    short: &[(Mono, u32)],
    long: &[(Mono, u32)],
) -> Result<Vec<Pair>, AllocError>
    requires { IsBoxOf f VARS sides.now short.now long.now }
    ensures pairs { IfOk result (λ r. ArePairs sides.now short.now long.now r.items) }
    ensures terms { IfOk result (λ r.
        map (pair_term short.now long.now) r.items ≡ term_products short.now long.now) }
{
    let starts = places_in(alloc, sides, short)?;
    let places = places_in(alloc, sides, long)?;
    let mut pairs = Vec::with_capacity(alloc, short.len() * long.len())?;
    for i in 0..starts.len() {
        append_row(&mut pairs, f, sides, short, i, starts[i].0, long, &places)?;
    }
    Ok(pairs)
}

/// Pairs in falling order, with equal places added and zeros dropped.
fn joined(
    alloc: Global,
    f: Field,
    sides: &[usize],
    short: &[(Mono, u32)],
    long: &[(Mono, u32)],
    pairs: &[Pair],
) -> Result<Vec<(Mono, u32)>, AllocError>
    requires factors { IsBoxOf f VARS sides.now short.now long.now }
    requires pairs { ArePairs sides.now short.now long.now pairs.now }
    requires falling { FallByPlace pairs.now }
    ensures { IfOk result (λ r.
        r.items ≡ collected f (map (reduced_pair f short.now long.now) pairs.now)) }
{
    f.facts();
    let mut out = Vec::new(alloc);
    let Some((first, rest)) = pairs.split_first() else {
        return Ok(out);
    };
    let mut open = *first;
    let mut sum = open.coefficient(f, short, long);
    for pair in rest {
        let c = pair.coefficient(f, short, long);
        if pair.place == open.place {
            sum = f.add(sum, c);
        } else {
            if sum != 0 {
                out.push((open.monomial(short, long), sum))?;
            }
            (open, sum) = (*pair, c);
        }
    }
    if sum != 0 {
        out.push((open.monomial(short, long), sum))?;
    }
    Ok(out)
}

/// The product, by one sort of the places of all pairs.
pub fn product_by_keys(
    alloc: Global,
    f: Field,
    sides: &[usize],
    short: &[(Mono, u32)],
    long: &[(Mono, u32)],
) -> Result<Vec<(Mono, u32)>, AllocError>
    requires { IsBoxOf f VARS sides.now short.now long.now }
    ensures value { IfOk result (λ r. r.items ≡ product_of f short.now long.now) }
    ensures over { IfOk result (λ r. IsPolynomial f VARS r.items) }
{
    f.facts();
    let mut pairs = pairs_of(alloc, f, sides, short, long)?;
    pairs.sort_unstable_by(|a, b| b.place.cmp(&a.place));
    joined(alloc, f, sides, short, long, &pairs)
}
