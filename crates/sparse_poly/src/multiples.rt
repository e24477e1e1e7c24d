//! Multiples of polynomials by terms and by residues.
ghost use Rattle.std.specs.Prelude.{◌≡◌, ◌<◌, [], ◌∷◌, ◌++◌, IfOk, OnOk};
ghost use Rattle.polynomials.specs.Polynomials.{IsPolynomial, sum_of, product_of, scaled};
ghost use Rattle.sparse_poly.specs.Pairs.{FitsEach};

use field_table::Field;
use mono_words::{Mono, VARS};
use std::alloc::{AllocError, Global};
use std::cmp::Ordering;

/// A term times a polynomial, whose order stays.
pub fn term_times(
    alloc: Global,
    f: Field,
    t: (Mono, u32),
    a: &[(Mono, u32)],
) -> Result<Vec<(Mono, u32)>, AllocError>
    requires term { IsPolynomial f VARS (t ∷ []) }
    requires over { IsPolynomial f VARS a.now }
    requires fit { FitsEach t.0 a.now }
    ensures value { IfOk result (λ r. r.items ≡ product_of f (t ∷ []) a.now) }
    ensures over { IfOk result (λ r. IsPolynomial f VARS r.items) }
{
    f.facts();
    let mut out = Vec::with_capacity(alloc, a.len())?;
    append_multiple(&mut out, f, t, a)?;
    Ok(out)
}

/// The sum of the products of `t` by `a` and of `u` by `b`, by one pass that makes and merges them.
pub fn sum_of_multiples(
    alloc: Global,
    f: Field,
    t: (Mono, u32),
    a: &[(Mono, u32)],
    u: (Mono, u32),
    b: &[(Mono, u32)],
) -> Result<Vec<(Mono, u32)>, AllocError>
    requires first { IsPolynomial f VARS (t ∷ []) }
    requires second { IsPolynomial f VARS (u ∷ []) }
    requires left { IsPolynomial f VARS a.now }
    requires right { IsPolynomial f VARS b.now }
    requires left_fits { FitsEach t.0 a.now }
    requires right_fits { FitsEach u.0 b.now }
    ensures value { IfOk result (λ r. r.items
        ≡ sum_of f (product_of f (t ∷ []) a.now) (product_of f (u ∷ []) b.now)) }
    ensures over { IfOk result (λ r. IsPolynomial f VARS r.items) }
{
    f.facts();
    let (first, c) = t;
    let (second, d) = u;
    let mut out = Vec::with_capacity(alloc, a.len().saturating_add(b.len()))?;
    let mut i = 0;
    let mut j = 0;
    while i < a.len() && j < b.len() {
        let x = a[i];
        let y = b[j];
        let left = first.product(x.0);
        let right = second.product(y.0);
        match left.cmp(&right) {
            Ordering::Greater => {
                out.push((left, f.mul(c, x.1)))?;
                i += 1;
            }
            Ordering::Less => {
                out.push((right, f.mul(d, y.1)))?;
                j += 1;
            }
            Ordering::Equal => {
                let sum = f.add(f.mul(c, x.1), f.mul(d, y.1));
                if sum != 0 {
                    out.push((left, sum))?;
                }
                i += 1;
                j += 1;
            }
        }
    }
    append_multiple(&mut out, f, (first, c), &a[i..])?;
    append_multiple(&mut out, f, (second, d), &b[j..])?;
    Ok(out)
}

/// Appends the product of `t` by `a`.
fn append_multiple(
    out: &mut Vec<(Mono, u32)>,
    f: Field,
    t: (Mono, u32),
    a: &[(Mono, u32)],
) -> Result<(), AllocError>
    requires term { IsPolynomial f VARS (t ∷ []) }
    requires over { IsPolynomial f VARS a.now }
    requires fit { FitsEach t.0 a.now }
    ensures { OnOk result (out.new.items ≡ out.old.items ++ product_of f (t ∷ []) a.now) }
{
    f.facts();
    let (monomial, c) = t;
    for x in a {
        out.push((monomial.product(x.0), f.mul(c, x.1)))?;
    }
    Ok(())
}

/// The residue `c` other than 0 times a polynomial.
pub fn scaled(
    alloc: Global,
    f: Field,
    c: u32,
    g: &[(Mono, u32)],
) -> Result<Vec<(Mono, u32)>, AllocError>
    requires nonzero { 0 < c }
    requires below { c < f }
    requires over { IsPolynomial f VARS g.now }
    ensures value { IfOk result (λ r. r.items ≡ scaled f c g.now) }
    ensures over { IfOk result (λ r. IsPolynomial f VARS r.items) }
{
    f.facts();
    let mut out = Vec::with_capacity(alloc, g.len())?;
    for u in g {
        out.push((u.0, f.mul(c, u.1)))?;
    }
    Ok(out)
}
