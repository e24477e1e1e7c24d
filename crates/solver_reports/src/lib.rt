//! The report of a tree's answer, or what it counts to, made by a walk on one thread.
#![tactic(auto)]

mod nonzero;
mod report;
mod tally;
mod tree;

pub use nonzero::nonzero_lines;
pub use tally::Tally;
pub use tree::{Walked, count, walk};
