//! The initial of a polynomial of a triangular set: a certificate that it is regular, or polynomials
//! one of which vanishes where there is none.
#![tactic(auto)]

mod answer;
mod identity;
mod initial;
mod initials;
mod turn;
mod turns;
mod vanishing;

pub use answer::Regular;
pub use initial::regularise;
pub use initials::certified;

#[cfg(test)]
mod tests;
