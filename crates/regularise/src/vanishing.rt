ghost use Rattle.std.specs.Prelude.{◌≡◌, ◌≢◌, ℕ, ◌<◌, List, [], ◌∷◌, length, All, IfOk};
ghost use Rattle.polynomials.specs.Polynomials.{Polynomial, ArePolynomials};
ghost use Rattle.zero_sets.specs.ZeroSets.{IsTriangular};
ghost use Rattle.division_rules.specs.PolynomialRows.{IsPolynomialRow};
ghost use Rattle.finish_rules.specs.Turns.{IdentitySoFar, Turned, unknown_monic, composed_first, common_turn};
ghost use Rattle.regularise.specs.Turns.{after};

use crate::identity::{IdentitySoFar, Turn};
use chains::{Chain, NonZero};
use field_table::Field;
use mono_words::VARS;
use pseudo_division::{Row, reduce};
use sparse_poly::{Poly, Polys, Work};
use std::alloc::{AllocError, Global};

/// What vanishes where rows with these leads end with a zero row.
pub fn vanishing(
    alloc: Global,
    w: &Work,
    chain: &Chain,
    nonzero: &NonZero,
    sofar: &IdentitySoFar,
    leads: &Polys,
    zero: &Row,
) -> Result<Turn, AllocError>
    requires chain { ArePolynomials w.now.field VARS chain.now }
    requires triangular { IsTriangular chain.now }
    requires zero { IsPolynomialRow w.now.field VARS zero.now }
    requires some { 0 < length zero.now.cofactors }
    requires over { ArePolynomials w.now.field VARS leads.now }
    requires leads { All (λ l. l ≢ []) leads.now }
    ensures { IfOk result (λ r. (further : IdentitySoFar → Turned) → after further r
        ≡ common_turn w.now.field VARS w.now.width chain.now nonzero.now sofar.now leads.now
        zero.now) }
{
    match reduce(*w, zero.cofactors.at(0), chain.polys())? {
        None => Ok(Turn::TooWide),
        Some(b) => {
            if b.is_zero() {
                Ok(Turn::Vanishing(unknown_monic(alloc, w.field, nonzero, leads)?))
            } else {
                Ok(Turn::Vanishing(with_composed(alloc, b, sofar)?))
            }
        }
    }
}

/// The polynomial, and the one so far where it was composed.
fn with_composed(alloc: Global, b: Poly, sofar: &IdentitySoFar) -> Result<Polys, AllocError>
    ensures { IfOk result (λ r. (p n w : ℕ) (chain ns : List Polynomial)
        → r ≡ b ∷ composed_first p n w chain ns sofar.now) }
{
    let mut list = Polys::new(alloc);
    list.push(b)?;
    if sofar.composed {
        list.push(sofar.first().copy()?)?;
    }
    Ok(list)
}

/// The leads that aren't known not to vanish, made monic.
fn unknown_monic(
    alloc: Global,
    f: Field,
    nonzero: &NonZero,
    leads: &Polys,
) -> Result<Polys, AllocError>
    requires over { ArePolynomials f VARS leads.now }
    requires leads { All (λ l. l ≢ []) leads.now }
    ensures { IfOk result (λ r. r ≡ unknown_monic f nonzero.now leads.now) }
{
    let mut list = Polys::new(alloc);
    for i in 0..leads.count() {
        let l = leads.at(i);
        if !nonzero.knows(f, l) {
            list.push(l.monic(f)?)?;
        }
    }
    Ok(list)
}
