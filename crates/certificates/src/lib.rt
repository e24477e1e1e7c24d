//! Certificates that the initials of a triangular set are regular: composed, and tested.
#![tactic(auto)]

mod certificate;
mod checks;
mod composition;
mod leaf;

pub use certificate::{Certificate, Certificates};
pub use checks::check;
pub use composition::compose;
pub use leaf::Leaf;

#[cfg(test)]
mod tests;
