//! What the solver is asked: its words and its input, read to a system or to the line that refuses
//! them.
#![tactic(auto)]

mod asked;
mod ending;
mod input;

pub use asked::{Asked, Silence, asked_of_words};
pub use ending::{Ending, written};
pub use input::MOST_BYTES;
