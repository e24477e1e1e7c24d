//! Laws of lists by which shared structures are kept: weights, and what holds at each place.
#![tactic(auto)]

mod laws;

pub use laws::{sums_move, weights_count};
