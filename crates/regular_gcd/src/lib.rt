//! What the rows of a common divisor give: the cases of their leads, and the divisor where no lead
//! vanishes.
#![tactic(auto)]

mod cases;
mod divisor;

pub use cases::{Places, lead_cases};
pub use divisor::common;

#[cfg(test)]
mod tests;
