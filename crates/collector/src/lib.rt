//! The walk of a tree of splits in path order, of events that are noted in any order.
#![tactic(auto)]

mod advance;
mod branch;
mod collector;
mod met;
#[cfg(test)]
mod tests;

pub use advance::Advance;
pub use collector::Collector;
