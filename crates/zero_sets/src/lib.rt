//! What an answer means: finite rings, points, zero sets, triangular sets, certificates, tasks.
#![tactic(auto)]

mod laws;

pub use laws::{
    certificates_show_initials, constants_are_nonzero, monic_keeps_zeros, residues_are_a_domain,
    value_of_difference, value_of_lead_and_tail, value_of_product, value_of_sum,
};
