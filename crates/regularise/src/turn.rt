ghost use Rattle.std.specs.Prelude.{◌≡◌, ◌<◌, ◌+◌, suc, List, length, IfOk};
ghost use Rattle.polynomials.specs.Polynomials.{Polynomial, ArePolynomials};
ghost use Rattle.zero_sets.specs.ZeroSets.{IsTriangular, member_in};
ghost use Rattle.division_rules.specs.PolynomialRows.{IsPolynomialRow};
ghost use Rattle.finish_rules.specs.Turns.{IdentitySoFar, Turned, coprime_turn, turn_at};
ghost use Rattle.subresultants.specs.Ends.{EachEnd, IfEnds, HasLeads};
ghost use Rattle.regularise.specs.Identities.{HasIdentity};
ghost use Rattle.regularise.specs.Turns.{after, IfFurther, turn_by_outcome};

use crate::identity::{IdentitySoFar, Turn};
use crate::vanishing::vanishing;
use certificates::compose;
use chains::{Chain, NonZero};
use mono_words::VARS;
use pseudo_division::Row;
use sparse_poly::Work;
use std::alloc::{AllocError, Global};
use subresultants::{Remainders, remainder_rows};

/// The turn at `u`: where a polynomial of the chain has this main variable, and it occurs in the
/// polynomial so far, by the remainder rows of the two.
pub fn turn(
    alloc: Global,
    w: &Work,
    chain: &Chain,
    nonzero: &NonZero,
    u: usize,
    sofar: IdentitySoFar,
) -> Result<Turn, AllocError>
    requires { HasIdentity w.now.field (suc u) chain.now sofar.row }
    ensures step { IfOk result (λ r. (further : IdentitySoFar → Turned) → after further r
        ≡ turn_at w.now.field VARS w.now.width chain.now nonzero.now u further sofar
        (member_in u chain.now)) }
    ensures identity { IfOk result (IfFurther (λ s. HasIdentity w.now.field u chain.now s.row)) }
{
    match chain.at(u) {
        None => Ok(Turn::Further(sofar)),
        Some(t) => {
            let f = sofar.first();
            if f.degree_in(u) == 0 {
                return Ok(Turn::Further(sofar));
            }
            let below = chain.below(alloc, u)?;
            let remainders = remainder_rows(alloc, *w, t, f, u, &below, true)?;
            turn_by(alloc, w, chain, nonzero, below.count(), &sofar, &remainders)
        }
    }
}

/// What remainder rows with the polynomial so far make of its identity, where as many polynomials as
/// `place` are below.
fn turn_by(
    alloc: Global,
    w: &Work,
    chain: &Chain,
    nonzero: &NonZero,
    place: usize,
    sofar: &IdentitySoFar,
    remainders: &Remainders,
) -> Result<Turn, AllocError>
    requires chain { ArePolynomials w.now.field VARS chain.now }
    requires triangular { IsTriangular chain.now }
    requires sofar { IsPolynomialRow w.now.field VARS sofar.now.row }
    requires room { place + 1 < length sofar.now.row.cofactors }
    requires rows { EachEnd (IsPolynomialRow w.now.field VARS) remainders.now }
    requires counts { EachEnd (λ f. length f.cofactors ≡ place + 2) remainders.now }
    requires leads { IfEnds (HasLeads w.now.field) remainders.now }
    ensures { IfOk result (λ r. (further : IdentitySoFar → Turned) → after further r
        ≡ turn_by_outcome w.now.field w.now.width chain.now nonzero.now further sofar.now
        remainders.now) }
{
    match remainders {
        Remainders::TooWide => Ok(Turn::TooWide),
        Remainders::Coprime(rows) => composed(alloc, w, sofar, &rows.last, place),
        Remainders::Common(rows, zero) => {
            vanishing(alloc, w, chain, nonzero, sofar, &rows.leads, zero)
        }
    }
}

/// The identity composed with the last row.
fn composed(
    alloc: Global,
    w: &Work,
    sofar: &IdentitySoFar,
    last: &Row,
    place: usize,
) -> Result<Turn, AllocError>
    requires sofar { IsPolynomialRow w.now.field VARS sofar.now.row }
    requires room { place + 1 < length sofar.now.row.cofactors }
    requires last { IsPolynomialRow w.now.field VARS last.now }
    requires count { length last.now.cofactors ≡ place + 2 }
    ensures { IfOk result (λ r. (chain ns : List Polynomial) (further : IdentitySoFar → Turned)
        → after further r ≡ coprime_turn w.now.field VARS w.now.width chain ns further sofar.now
        last.now) }
{
    match compose(alloc, *w, &sofar.row, last, place)? {
        None => Ok(Turn::TooWide),
        Some(row) => Ok(Turn::Further(IdentitySoFar {
            row,
            composed: true,
        })),
    }
}
