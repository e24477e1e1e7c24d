//! Remainder rows: the subresultant remainder sequence of two polynomials below a triangular set,
//! with the cofactors of each row where they are wanted.
#![tactic(auto)]

mod divided;
mod divisors;
mod generators;
mod outcome;
mod sequence;
mod turn;

pub use generators::{generator_row, generator_rows};
pub use outcome::{Remainders, RowEnds};
pub use sequence::remainder_rows;

#[cfg(test)]
mod tests;
