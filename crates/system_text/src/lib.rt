//! The text of a system: its tokens, its grammar, and how it is read from left to right.
#![tactic(auto)]

mod laws;

pub use laws::{
    spelled_nonzero_lines_are_read, spelled_sums_are_read, system_texts_are_read,
    what_is_read_is_a_system,
};
