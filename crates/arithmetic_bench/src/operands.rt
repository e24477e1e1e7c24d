ghost use Rattle.std.specs.Prelude.{◌<◌, ◌≤◌, IfOk};
ghost use Rattle.polynomials.specs.Polynomials.{IsPolynomial};

use crate::sequence::Sequence;
use crate::trial::{Fill, Trial};
use field_table::Field;
use mono_words::{Mono, VARS};
use sparse_poly::Poly;
use std::alloc::{AllocError, Global};

/// The greatest exponent.
const MOST: u32 = 65_535;

/// The polynomial of so many terms, of which those with the same monomial are added.
pub(crate) fn operand(
    alloc: Global,
    f: Field,
    sequence: &mut Sequence,
    trial: Trial,
    count: u32,
) -> Result<Poly, AllocError>
    ensures { IfOk result (IsPolynomial f VARS) }
{
    let mut terms = Vec::new(alloc);
    for place in 0..count {
        let monomial = match trial.fill {
            Fill::Dense => monomial_at(trial, place),
            Fill::Sparse => some_monomial(trial, sequence),
        };
        terms.push((monomial, sequence.residue(f)))?;
    }
    Poly::from_terms(alloc, f, &terms)
}

/// The monomial whose exponents are the digits of a place, and the greatest variable's what is left.
fn monomial_at(trial: Trial, place: u32) -> Mono {
    let mut monomial = Mono::one();
    let mut left = place;
    for v in 0..trial.variables {
        let exponent = if v + 1 < trial.variables {
            left % trial.side
        } else {
            left
        };
        monomial = monomial.max_exponents(power(v, exponent));
        left = left / trial.side;
    }
    monomial
}

/// A monomial whose exponents are below the side.
fn some_monomial(trial: Trial, sequence: &mut Sequence) -> Mono {
    let mut monomial = Mono::one();
    for v in 0..trial.variables {
        let exponent = sequence.below(trial.side);
        monomial = monomial.max_exponents(power(v, exponent));
    }
    monomial
}

/// A power of a variable, at most the greatest.
fn power(v: usize, exponent: u32) -> Mono
    requires { v < VARS }
{
    Mono::power(v, exponent.min(MOST) as u16)
}
