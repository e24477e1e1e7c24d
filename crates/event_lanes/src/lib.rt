//! Events of many threads on their way to one: lanes over one bounded queue.
#![tactic(auto)]

mod drain;
mod hub;
mod lane;
mod making;
mod rule;
#[cfg(test)]
mod tests;

pub use drain::{Drain, Rest};
pub use hub::Hub;
pub use lane::{Full, Lane};
