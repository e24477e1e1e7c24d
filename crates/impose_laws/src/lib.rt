//! What the children of an imposed polynomial keep of the task: laws of the definitions.
#![tactic(auto)]

mod laws;

pub use laws::{children_are_few, children_cover_the_task, children_keep_the_form};
