ghost use Rattle.std.specs.Prelude.{◌≡◌, ◌+◌, ◌*◌, ◌<◌, ◌≤◌, ◌^◌, ℕ, ◌++◌, length, map, get_or, IfOk, IfSome};
ghost use Rattle.polynomials.specs.Monomials.{exponent_of};
ghost use Rattle.polynomials.specs.Polynomials.{IsPolynomial, product_of, term_product};
ghost use Rattle.polynomials.specs.Views.{degree_in};
ghost use Rattle.polynomials.proofs.SamePolynomials.{SameSums};
ghost use Rattle.sparse_poly.specs.Boxes.{box_size, IsInside, place_of, placed, monomial_of_place, boxed, AreSums, from_slots, IsBoxOf};

use field_table::Field;
use mono_words::{Mono, VARS};
use std::alloc::{AllocError, Global};

/// The most values of an exponent, of 16 bits.
const MOST_VALUES: usize = 1 << 16;

/// The most monomials of a box: places of two factors add in 64 bits.
const MOST_MONOMIALS: usize = 1 << 62;

/// The sides of a box for the monomials of a product of polynomials of the degrees `a` and `b`, and
/// its size, where neither a side nor the size is too great.
pub fn sides_of_product(
    alloc: Global,
    a: Mono,
    b: Mono,
) -> Result<Option<(Vec<usize>, usize)>, AllocError>
    ensures inside { IfOk result (λ r. IfSome r (λ found. (v : ℕ) →
        exponent_of v a + exponent_of v b < get_or found.0.items v 1)) }
    ensures narrow { IfOk result (λ r. IfSome r (λ found. (v : ℕ) →
        get_or found.0.items v 1 ≤ 2 ^ 16)) }
    ensures variables { IfOk result (λ r. IfSome r (λ found. length found.0.items ≤ VARS)) }
    ensures size { IfOk result (λ r. IfSome r (λ found. found.1 ≡ box_size found.0.items)) }
    ensures most { IfOk result (λ r. IfSome r (λ found. found.1 ≤ 2 ^ 62)) }
{
    let mut sides = Vec::new(alloc);
    let mut size: usize = 1;
    for v in 0..variables_of(a.max_exponents(b)) {
        let side = a.exponent(v) as usize + b.exponent(v) as usize + 1;
        size = size.saturating_mul(side);
        if side > MOST_VALUES || size > MOST_MONOMIALS {
            return Ok(None);
        }
        sides.push(side)?;
    }
    Ok(Some((sides, size)))
}

/// How many of the least variables there are up to the greatest that occurs.
fn variables_of(m: Mono) -> usize
    ensures free { (v : ℕ) → result ≤ v → exponent_of v m ≡ 0 }
    ensures most { result ≤ VARS }
{
    m.shape();
    match m.greatest_variable() {
        Some(v) => v + 1,
        None => 0,
    }
}

/// How many monomials of the box are less than `m`.
fn place(sides: &[usize], m: Mono) -> usize
    requires variables { length sides.now ≤ VARS }
    requires size { box_size sides.now ≤ 2 ^ 62 }
    requires inside { IsInside sides.now m }
    ensures { result ≡ place_of sides.now m }
{
    m.shape();
    let mut place = 0;
    for v in (0..sides.len()).rev() {
        place = place * sides[v] + m.exponent(v) as usize;
    }
    place
}

/// The place of each monomial, with its coefficient.
pub fn places_in(
    alloc: Global,
    sides: &[usize],
    terms: &[(Mono, u32)],
) -> Result<Vec<(usize, u32)>, AllocError>
    requires variables { length sides.now ≤ VARS }
    requires size { box_size sides.now ≤ 2 ^ 62 }
    requires inside { (v : ℕ) → degree_in v terms.now < get_or sides.now v 1 }
    ensures { IfOk result (λ r. r.items ≡ map (placed sides.now) terms.now) }
{
    let mut places = Vec::with_capacity(alloc, terms.len())?;
    for u in terms {
        places.push((place(sides, u.0), u.1))?;
    }
    Ok(places)
}

/// Adds the products of `t`, the term at `i` of `short`, by each term of `long` to the sums at their
/// places.
fn add_row(
    sums: &mut [u64],
    f: Field,
    sides: &[usize],
    short: &[(Mono, u32)],
    i: usize,
    t: (Mono, u32),
    long: &[(Mono, u32)],
    places: &[(usize, u32)],
)
    requires factors { IsBoxOf f VARS sides.now short.now long.now }
    requires size { box_size sides.now ≤ 2 ^ 32 }
    requires row { i < length short.now }
    requires term { t ≡ get_or short.now i t }
    requires places { places.now ≡ map (placed sides.now) long.now }
    requires sums { AreSums sides.now (i * (length long.now * 2 ^ 32)) sums.old }
    ensures bounds { AreSums sides.now ((i + 1) * (length long.now * 2 ^ 32)) sums.new }
    ensures sums { SameSums f (boxed VARS sides.now 0 sums.new)
        (boxed VARS sides.now 0 sums.old ++ map (term_product t) long.now) }
{
    f.facts();
    let start = place(sides, t.0);
    for j in 0..places.len() {
        let u = places[j];
        let k = start + u.0;
        sums[k] = sums[k] + t.1 as u64 * u.1 as u64;
    }
}

/// The monomial before `m` in the box; before the first stands the last.
fn before(sides: &[usize], m: Mono) -> Mono
    requires variables { length sides.now ≤ VARS }
    requires some { (v : ℕ) → 0 < get_or sides.now v 1 }
    requires narrow { (v : ℕ) → get_or sides.now v 1 ≤ 2 ^ 16 }
    ensures { (k : ℕ) → m ≡ monomial_of_place VARS sides.now (k + 1) → result ≡ monomial_of_place VARS sides.now k }
{
    let mut m = m;
    for v in 0..sides.len() {
        m.shape();
        if m.exponent(v) > 0 {
            let less = m.quotient(Mono::power(v, 1));
            // Tells how many exponents it has.
            less.shape();
            return less;
        }
        m = m.product(Mono::power(v, (sides[v] - 1) as u16));
    }
    m
}

/// The polynomial of the sums at their places, reduced.
fn from_sums(
    alloc: Global,
    f: Field,
    sums: &[u64],
    sides: &[usize],
) -> Result<Vec<(Mono, u32)>, AllocError>
    requires variables { length sides.now ≤ VARS }
    requires some { (v : ℕ) → 0 < get_or sides.now v 1 }
    requires narrow { (v : ℕ) → get_or sides.now v 1 ≤ 2 ^ 16 }
    requires count { length sums.now ≡ box_size sides.now }
    ensures { IfOk result (λ r. r.items ≡ from_slots f (boxed VARS sides.now 0 sums.now)) }
{
    let mut out = Vec::new(alloc);
    let mut monomial = Mono::one();
    for k in (0..sums.len()).rev() {
        monomial = before(sides, monomial);
        let c = f.residue(sums[k]);
        if c != 0 {
            out.push((monomial, c))?;
        }
    }
    Ok(out)
}

/// The product, by a sum for each monomial of the box.
pub fn product_in_box(
    alloc: Global,
    f: Field,
    sides: &[usize],
    size: usize,
    short: &[(Mono, u32)],
    long: &[(Mono, u32)],
) -> Result<Vec<(Mono, u32)>, AllocError>
    requires factors { IsBoxOf f VARS sides.now short.now long.now }
    requires size { size ≡ box_size sides.now }
    requires few { size ≤ 2 ^ 32 }
    ensures value { IfOk result (λ r. r.items ≡ product_of f short.now long.now) }
    ensures over { IfOk result (λ r. IsPolynomial f VARS r.items) }
{
    f.facts();
    let places = places_in(alloc, sides, long)?;
    let mut sums = vec![in alloc; 0_u64; size]?;
    for i in 0..short.len() {
        add_row(&mut sums, f, sides, short, i, short[i], long, &places);
    }
    from_sums(alloc, f, &sums, sides)
}
