//! The solver's tree of cases: what becomes of each task of a system.
#![tactic(auto)]

mod cases;
mod finish;
mod laws;
mod root;

pub use cases::Cases;
pub use laws::{emits_common_zeros_alone, steps_lose_no_common_zero, steps_lower_the_rank};

#[cfg(test)]
mod tests;
