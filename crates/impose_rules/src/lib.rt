//! What one polynomial makes of a task on whose chain it is imposed: definitions, and laws of their
//! parts.
#![tactic(auto)]

mod laws;

pub use laws::{lead_cases_are_the_unknown, member_is_changed};
