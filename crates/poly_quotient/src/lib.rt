//! Exact quotients of sparse polynomials that fit a width, and removal of factors.
#![tactic(auto)]

mod boxed;
mod division;
mod ends;
mod factors;
mod guess;
mod last;
mod places;
mod quotient;
mod rest;
mod runs;
mod single;
mod table;
mod trial;

pub use factors::strip;
pub use quotient::quo;

#[cfg(test)]
mod tests;
