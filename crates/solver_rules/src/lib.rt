//! What the solver is expected to write, on one thread or with workers, and what that means.
#![tactic(auto)]

mod laws;

pub use laws::runs_have_one_ending;
