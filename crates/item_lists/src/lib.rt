//! A list with constant cost at both ends, which contracts see as the list of its items.
#![tactic(auto)]

mod items;

pub use items::Items;
