//! Laws of the steps of division on lists of terms, over a prime field and at points of finite domains.
#![tactic(auto)]

mod laws;

pub use laws::{
    combinations_are_kept, combinations_keep_zeros, composed_rows_are_combinations,
    compositions_are_free, compositions_are_rows, divisions_keep_degrees,
    divisions_multiply_values, eliminations_lower_degree, first_entries_stand_alone,
    members_are_placed, members_are_split, members_start_remainder_rows, monic_chains_reduce_alike,
    monic_reduces_alike, points_at_members, pseudo_remainders_divide, reduced_by_more,
    reduced_by_whole, reduced_stays_same, reduced_to_zero_vanishes, reductions_are_free,
    reductions_divide, reductions_have_same_zeros, reductions_keep_degrees, reductions_keep_zeros,
    reductions_multiply_values, reductions_of_multiples, remainder_rows_are_free,
    remainder_rows_end_in_common_zero, remainder_rows_fall, remainder_rows_vanish,
    remainders_have_less_degree,
};
