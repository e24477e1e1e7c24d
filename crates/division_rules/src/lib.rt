//! Rows, elimination, pseudo-remainders, reduction, quotients and remainder rows: definitions and
//! their laws.
#![tactic(auto)]

mod laws;

pub use laws::{
    factors_are_divided_away, last_factor_is_gone, no_quotient_by_zero, quotient_is_exact,
    quotient_is_none, reduction_is_reduced, steps_keep_canonical, within_is_unlimited,
    words_are_list_words,
};
