//! Sparse polynomials over prime fields: definitions and their laws.
#![tactic(auto)]

mod laws;
mod primes;

pub use laws::{
    degree_of_product, factors_are_free, first_term_of_product, fits_in_each_variable,
    freeness_is_kept, lead_and_tail, lead_of_product, main_variable_is_greatest, monic_is_monic,
    no_zero_divisors, polynomials_make_a_ring, power_within_is_power, quotient_is_unique,
};
pub use primes::{field_primes_are_primes, inverses_exist, prime_divides_a_factor};
