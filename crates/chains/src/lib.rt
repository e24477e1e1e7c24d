//! Triangular sets, polynomials that don't vanish, and tasks.
#![tactic(auto)]

mod chain;
mod lists;
mod monic_forms;
mod moves;
mod nonzero;
mod task;

pub use chain::Chain;
pub use nonzero::NonZero;
pub use task::Task;

#[cfg(test)]
mod tests;
