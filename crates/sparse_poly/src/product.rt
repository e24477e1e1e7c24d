ghost use Rattle.std.specs.Prelude.{◌≡◌, ◌<◌, ◌≤◌, ◌*◌, ◌^◌, ℕ, length, IfOk};
ghost use Rattle.polynomials.specs.Monomials.{exponent_of};
ghost use Rattle.polynomials.specs.Polynomials.{IsPolynomial, product_of};
ghost use Rattle.polynomials.specs.Views.{degree_in};
ghost use Rattle.sparse_poly.specs.Boxes.{IsBoxOf};
ghost use Rattle.sparse_poly.specs.Pairs.{PairsFit};

use crate::boxes::{product_in_box, sides_of_product};
use crate::keys::product_by_keys;
use crate::merge::{Sign, merged};
use crate::multiples::{sum_of_multiples, term_times};
use crate::poly::Poly;
use field_table::Field;
use mono_words::{Mono, VARS};
use std::alloc::{AllocError, Global};

/// The fewest terms of both factors where monomials are counted by their places: merges take less
/// time below.
const FEWEST_TERMS: usize = 6;

/// The most places with a sum for each, which takes 8 bytes.
const MOST_PLACES: usize = 1 << 24;

/// The most pairs that are sorted at once, of 16 bytes each: so many stay near the processor.
const MOST_PAIRS: usize = 1 << 17;

/// The product of two polynomials, of which the first has no more terms.
pub fn product(
    alloc: Global,
    f: Field,
    short: &Poly,
    long: &Poly,
) -> Result<Vec<(Mono, u32)>, AllocError>
    requires left { IsPolynomial f VARS short.now }
    requires right { IsPolynomial f VARS long.now }
    requires fit { PairsFit short.now long.now }
    requires pairs { length short.now * length long.now < 2 ^ 32 }
    ensures value { IfOk result (λ r. r.items ≡ product_of f short.now long.now) }
    ensures over { IfOk result (λ r. IsPolynomial f VARS r.items) }
{
    let (a, b) = (short.degrees(), long.degrees());
    product_of_parts(alloc, f, short.terms(), a, long.terms(), b)
}

/// The product: by a sum for each monomial of a box where few places of it are left empty, else by
/// the sorted places of all pairs; of few terms, or where no box is that large, by merges. `a` and
/// `b` have at least the degrees of the factors.
pub fn product_of_parts(
    alloc: Global,
    f: Field,
    short: &[(Mono, u32)],
    a: Mono,
    long: &[(Mono, u32)],
    b: Mono,
) -> Result<Vec<(Mono, u32)>, AllocError>
    requires left { IsPolynomial f VARS short.now }
    requires right { IsPolynomial f VARS long.now }
    requires left_degrees { (v : ℕ) → degree_in v short.now ≤ exponent_of v a }
    requires right_degrees { (v : ℕ) → degree_in v long.now ≤ exponent_of v b }
    requires fit { PairsFit short.now long.now }
    requires pairs { length short.now * length long.now < 2 ^ 32 }
    ensures value { IfOk result (λ r. r.items ≡ product_of f short.now long.now) }
    ensures over { IfOk result (λ r. IsPolynomial f VARS r.items) }
{
    let (few, many) = (short.len(), long.len());
    if few >= FEWEST_TERMS && many >= FEWEST_TERMS {
        if let Some((sides, size)) = sides_of_product(alloc, a, b)? {
            if size <= MOST_PLACES && size <= 2 * few * many {
                return product_in_box(alloc, f, &sides, size, short, long);
            }
            return keyed_product(alloc, f, &sides, short, long);
        }
    }
    merged_product(alloc, f, short, long)
}

/// The product, by merges of products whose pairs are few enough to be sorted at once.
fn keyed_product(
    alloc: Global,
    f: Field,
    sides: &[usize],
    short: &[(Mono, u32)],
    long: &[(Mono, u32)],
) -> Result<Vec<(Mono, u32)>, AllocError>
    requires { IsBoxOf f VARS sides.now short.now long.now }
    ensures value { IfOk result (λ r. r.items ≡ product_of f short.now long.now) }
    ensures over { IfOk result (λ r. IsPolynomial f VARS r.items) }
{
    f.facts();
    if short.len() < FEWEST_TERMS {
        return merged_product(alloc, f, short, long);
    }
    if short.len() * long.len() <= MOST_PAIRS {
        return product_by_keys(alloc, f, sides, short, long);
    }
    let (left, right) = short.split_at(short.len() / 2);
    let left = keyed_product(alloc, f, sides, left, long)?;
    let right = keyed_product(alloc, f, sides, right, long)?;
    merged(alloc, f, &left, Sign::Plus, &right)
}

/// The product, by a balanced tree of merges of the terms of `short` times `long`.
fn merged_product(
    alloc: Global,
    f: Field,
    short: &[(Mono, u32)],
    long: &[(Mono, u32)],
) -> Result<Vec<(Mono, u32)>, AllocError>
    requires left { IsPolynomial f VARS short.now }
    requires right { IsPolynomial f VARS long.now }
    requires fit { PairsFit short.now long.now }
    ensures value { IfOk result (λ r. r.items ≡ product_of f short.now long.now) }
    ensures over { IfOk result (λ r. IsPolynomial f VARS r.items) }
{
    f.facts();
    if short.is_empty() {
        return Ok(Vec::new(alloc));
    }
    if short.len() == 1 {
        return term_times(alloc, f, short[0], long);
    }
    if short.len() == 2 {
        return sum_of_multiples(alloc, f, short[0], long, short[1], long);
    }
    let (left, right) = short.split_at(short.len() / 2);
    let left = merged_product(alloc, f, left, long)?;
    let right = merged_product(alloc, f, right, long)?;
    merged(alloc, f, &left, Sign::Plus, &right)
}
