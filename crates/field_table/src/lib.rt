//! Residue arithmetic modulo the primes of a fixed table.
#![tactic(auto)]

mod field;
#[cfg(test)]
mod tests;

pub use field::{Field, NotInTable};
