//! Monomials in sixteen variables, packed into four words.
#![tactic(auto)]

mod mono;
#[cfg(test)]
mod tests;
mod word;

pub use mono::{Mono, VARS};
