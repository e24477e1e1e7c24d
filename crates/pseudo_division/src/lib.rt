//! Powers, elimination, pseudo-remainders and reduction of polynomials, within a width.
#![tactic(auto)]

mod elimination;
mod leads;
mod plain;
mod powers;
mod products;
mod reduction;
mod remainder;
mod row;

pub use elimination::eliminate;
pub use plain::reduce;
pub use powers::power;
pub use products::{times, times_all};
pub use reduction::reduce_rows;
pub use remainder::prem_full;
pub use row::{Row, Rows};

#[cfg(test)]
mod tests;
