//! The cofactor lead: what the cofactors of remainder rows say about the points of a triangular set.
#![tactic(auto)]

mod laws;

pub use laws::{
    cofactor_lead_is_zero_by_leads, cofactors_grow_by_falls, last_cofactor_has_degree,
    last_rows_are_reduced, reduced_cofactor_shows_lead, rows_with_cofactors_are_combinations,
    zero_row_splits_zeros, zero_rows_show_zeros,
};
