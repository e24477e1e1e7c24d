//! Laws of ranks: each child of a step has less rank than its task, so every branch ends.
#![tactic(auto)]

mod laws;

pub use laws::{
    case_steps_lower_the_rank, every_branch_ends, imposed_children_have_less_rank,
    systems_need_some_steps,
};
