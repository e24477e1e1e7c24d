//! Sparse polynomials over a prime field, their arithmetic, and systems of them.
#![tactic(auto)]

mod arithmetic;
mod boxes;
mod collect;
mod fitting;
mod keys;
mod merge;
mod multiples;
mod poly;
mod product;
mod system;
mod tails;
mod views;
mod work;

pub use fitting::fits;
pub use poly::Poly;
pub use system::{Names, Polys, System, copied};
pub use tails::difference_of_tails;
pub use work::Work;

#[cfg(test)]
mod tests;
