//! The walk of a tree of splits in path order, one step a turn, by the tasks that wait.
#![tactic(auto)]

mod children;
mod generator;
#[cfg(test)]
mod tests;
mod turn;

pub use generator::Generator;
pub use turn::{Starved, Turn};
