use crate::sequence::FACTOR;
use crate::trial::Trial;
use mono_words::{Mono, VARS};
use sparse_poly::Poly;
use std::alloc::{AllocError, Global};

/// A number that tells of exponents, the least variable's first.
fn with_monomial(digest: u64, monomial: Mono, variables: usize) -> u64 {
    let mut digest = digest;
    for v in 0..variables.min(VARS) {
        digest = digest
            .wrapping_mul(FACTOR)
            .wrapping_add(monomial.exponent(v) as u64);
    }
    digest
}

/// A number that tells of the exponents and the coefficients of all terms.
fn digest_of(made: &Poly, variables: usize) -> u64 {
    let mut digest: u64 = 0;
    for t in made.terms() {
        digest = with_monomial(digest, t.0, variables)
            .wrapping_mul(FACTOR)
            .wrapping_add(t.1 as u64);
    }
    digest
}

/// The sum of the coefficients.
fn sum_of(made: &Poly) -> u64 {
    let mut sum: u64 = 0;
    for t in made.terms() {
        sum = sum.wrapping_add(t.1 as u64);
    }
    sum
}

/// What came of the trial.
fn text_of(alloc: Global, trial: Trial, made: &Option<Poly>) -> Result<String, AllocError> {
    match made {
        None => format!(in alloc; "nothing"),
        Some(poly) => {
            let count = poly.term_count();
            let sum = sum_of(poly);
            let digest = digest_of(poly, trial.variables);
            format!(in alloc; "{count} terms, sum {sum}, digest {digest}")
        }
    }
}

/// The trial, and what came of it.
pub(crate) fn line_of(
    alloc: Global,
    trial: Trial,
    made: &Option<Poly>,
) -> Result<String, AllocError> {
    let (operation, fill) = (trial.operation.name(), trial.fill.name());
    let (variables, side) = (trial.variables, trial.side);
    let (left, right) = (trial.left, trial.right);
    let text = text_of(alloc, trial, made)?;
    format!(in alloc; "{operation} {fill} {variables} {side} {left} {right}: {text}")
}
