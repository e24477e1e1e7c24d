//! The texts of a report: polynomials, chains, refusals and the other lines, byte for byte.
#![tactic(auto)]

mod certificate;
mod chain;
mod laws;
mod line;
mod poly;
mod status;

pub use chain::{print_chain, print_plain_chain};
pub use laws::{
    printed_nonzero_lines_are_read, printed_nonzero_lines_are_spelled,
    printed_polynomials_are_read, printed_polynomials_are_spelled,
};
pub use line::{
    print_end, print_refused, print_stopped, print_summary, print_too_long, print_usage,
};
pub use poly::{print_nonzero, print_poly};
pub use status::Status;

#[cfg(test)]
mod certificate_tests;
#[cfg(test)]
mod tests;
