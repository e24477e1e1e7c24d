//! The tree of splits: paths, steps, events and offers, and the laws of every such tree.
#![tactic(auto)]

mod event;
mod key;
mod laws;
mod path;
mod splitter;

pub use event::{Event, Outcome, Why};
pub use key::{Named, Offer};
pub use laws::{
    answers_join, emitted_leaves_are_lawful, events_ascend, lawful_trees_are_closed, offers_ascend,
    offers_nest, paths_have_one_event, places_unfold, trees_are_walks,
};
pub use path::Path;
pub use splitter::{Splitter, Step, Tasks};
