//! Laws of the solver's steps and of its answer: no solution is lost, and none is invented.
#![tactic(auto)]

mod laws;

pub use laws::{
    answers_are_lawful, answers_are_sound, answers_have_common_zeros, case_steps_keep_law,
    case_steps_lose_no_zero, emitted_leaves_are_sound, roots_start_well, zero_leaves_nothing,
};
