//! The text of a system, read from left to right to a system or to the first refusal.
#![tactic(auto)]

mod characters;
mod errors;
mod factors;
mod faults;
mod frames;
mod heads;
mod lines;
mod made_systems;
mod names;
mod numbers;
mod powers;
mod sums;
mod text;
mod tokens;

pub use errors::{ParseError, ParseFault};
pub use made_systems::{MOST_MADE, made};
pub use text::parse;

#[cfg(test)]
mod tests;
