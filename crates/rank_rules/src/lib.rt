//! The rank of a task, which falls from each task to its children, and the order of ranks.
#![tactic(auto)]

mod laws;

pub use laws::{ranks_end, ranks_have_one_length};
