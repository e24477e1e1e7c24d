//! Offered tasks on their way to other threads: a deck that its owner fills, and thieves take from.
#![tactic(auto)]

mod desk;
mod making;
mod owner;
mod rule;
#[cfg(test)]
mod tests;
mod thief;

pub use making::deck_new;
pub use owner::{Owner, Sole};
pub use thief::{Steal, Thief};
