//! Polynomials seen by their powers of one variable, and the elimination of that variable's lead.
#![tactic(auto)]

mod crossing;
mod elimination;
mod laws;
mod rec_poly;

pub use crossing::{cross, cross_leads};
pub use elimination::eliminate_rec;
pub use laws::{coefficients_are_free, coefficients_determine, each_list_has_a_polynomial};
pub use rec_poly::RecPoly;

#[cfg(test)]
mod tests;
