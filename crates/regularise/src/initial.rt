ghost use Rattle.std.specs.Prelude.{◌≡◌, ◌+◌, ◌<◌, ◌^◌, length, IfOk, IfSome, IsSome};
ghost use Rattle.polynomials.specs.Polynomials.{IsPolynomial, ArePolynomials};
ghost use Rattle.polynomials.specs.Views.{initial_of};
ghost use Rattle.zero_sets.specs.ZeroSets.{IsTriangular, member_in};
ghost use Rattle.finish_rules.specs.Identities.{initial_row};
ghost use Rattle.finish_rules.specs.Initials.{regularised};
ghost use Rattle.regularise.specs.Answers.{as_step, LosesNoZero, CertifiesMember};

use crate::answer::Regular;
use crate::turns::turns;
use chains::{Chain, NonZero};
use mono_words::VARS;
use pseudo_division::{Row, reduce_rows};
use sparse_poly::{Poly, Polys, Work};
use std::alloc::{AllocError, Global};
use subresultants::{generator_row, generator_rows};

/// The initial of the polynomial of the chain with the main variable `v`: reduced by the polynomials
/// below, then made free of their main variables, the greatest first, by remainder rows, as long as
/// they end without a zero row. Where they end with one, the cofactor that it shows vanishes or the
/// polynomial so far does; where the reduced cofactor is 0, a lead of the rows vanishes.
pub fn regularise(
    alloc: Global,
    w: Work,
    chain: &Chain,
    nonzero: &NonZero,
    v: usize,
) -> Result<Regular, AllocError>
    requires chain { ArePolynomials w.field VARS chain.now }
    requires main { IsSome (member_in v chain.now) }
    ensures value { IfOk result (λ r. IfSome (member_in v chain.now) (λ t. as_step r
        ≡ regularised w.field VARS w.width chain.now nonzero.now v (initial_of t))) }
    ensures cover { IfOk result (LosesNoZero w.field chain.now nonzero.now) }
    ensures certificate { IfOk result (CertifiesMember w.field v chain.now) }
{
    w.field.facts();
    chain.facts();
    regularised(alloc, &w, chain, nonzero, v)
}

fn regularised(
    alloc: Global,
    w: &Work,
    chain: &Chain,
    nonzero: &NonZero,
    v: usize,
) -> Result<Regular, AllocError>
    requires chain { ArePolynomials w.now.field VARS chain.now }
    requires main { IsSome (member_in v chain.now) }
    ensures { IfOk result (λ r. IfSome (member_in v chain.now) (λ t. as_step r
        ≡ regularised w.now.field VARS w.now.width chain.now nonzero.now v (initial_of t))) }
{
    w.field.facts();
    chain.facts();
    let initial = chain.initial(v)?;
    let below = chain.below(alloc, v)?;
    match initial_row(alloc, w, &initial, &below)? {
        None => Ok(Regular::TooWide),
        Some(row) => {
            if row.first.is_zero() {
                Ok(Regular::Gone)
            } else {
                turns(alloc, w, chain, nonzero, v, row)
            }
        }
    }
}

/// The initial reduced by the polynomials below, with cofactors of it and of those.
fn initial_row(
    alloc: Global,
    w: &Work,
    initial: &Poly,
    below: &Polys,
) -> Result<Option<Row>, AllocError>
    requires initial { IsPolynomial w.now.field VARS initial.now }
    requires below { ArePolynomials w.now.field VARS below.now }
    requires triangular { IsTriangular below.now }
    requires places { 1 + length below.now < 2 ^ 32 }
    ensures { IfOk result (λ r. r
        ≡ initial_row w.now.field VARS w.now.width initial.now below.now) }
{
    let row = generator_row(alloc, w, initial, true, 0, below.count())?;
    let rows = generator_rows(alloc, w, below, true, 1)?;
    reduce_rows(alloc, *w, row, &rows)
}
