//! Laws of accounts: what workers took, put, made and kept at home.
#![tactic(auto)]

mod laws;

pub use laws::{balances_add, decks_close, paths_are_noted, taken_is_put};
