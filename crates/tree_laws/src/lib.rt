//! Laws of the answer of any tree: that no point is lost, and where its leaves come from.
#![tactic(auto)]

mod laws;
mod property;

pub use laws::{answers_are_emitted, answers_cover_the_root};
pub use property::Property;
