//! What a run of a program does to its source and to its sink, and with which status it ends.
#![tactic(auto)]

mod laws;

pub use laws::{NamedProgram, endings_are_known};
