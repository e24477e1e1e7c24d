ghost use Rattle.std.specs.Prelude.{◌≡◌, ◌<◌, All, IfOk};
ghost use Rattle.polynomials.specs.Polynomials.{IsPolynomial, collected};
ghost use Rattle.sparse_poly.specs.Falling.{AreResidues, HaveVariables, IsFalling};

use field_table::Field;
use mono_words::{Mono, VARS};
use std::alloc::{AllocError, Global};

/// The polynomial of terms in any order: one sort, and one pass that adds equal monomials.
pub fn collected(
    alloc: Global,
    f: Field,
    terms: &[(Mono, u32)],
) -> Result<Vec<(Mono, u32)>, AllocError>
    requires { All (λ t. t.1 < f) terms.now }
    ensures value { IfOk result (λ r. r.items ≡ collected f terms.now) }
    ensures over { IfOk result (λ r. IsPolynomial f VARS r.items) }
{
    f.facts();
    let mut sorted = Vec::with_capacity(alloc, terms.len())?;
    for t in terms {
        t.0.shape();
        sorted.push(*t)?;
    }
    sorted.sort_unstable_by(|t, u| u.0.cmp(&t.0));
    joined(alloc, f, &sorted)
}

/// Terms in falling order with equal monomials added and zeros dropped.
fn joined(alloc: Global, f: Field, sorted: &[(Mono, u32)]) -> Result<Vec<(Mono, u32)>, AllocError>
    requires small { AreResidues f sorted.now }
    requires variables { HaveVariables VARS sorted.now }
    requires falling { IsFalling sorted.now }
    ensures { IfOk result (λ r. r.items ≡ collected f sorted.now) }
{
    f.facts();
    let mut out = Vec::new(alloc);
    let Some((first, rest)) = sorted.split_first() else {
        return Ok(out);
    };
    let (mut monomial, mut sum) = *first;
    for t in rest {
        if t.0 == monomial {
            sum = f.add(sum, t.1);
        } else {
            if sum != 0 {
                out.push((monomial, sum))?;
            }
            (monomial, sum) = *t;
        }
    }
    if sum != 0 {
        out.push((monomial, sum))?;
    }
    Ok(out)
}
