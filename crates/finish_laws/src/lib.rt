//! Laws of certificates: they certify, no point is lost where there is none, and tests decide.
#![tactic(auto)]

mod laws;

pub use laws::{
    certified_certifies, certified_keeps_law, certified_loses_no_zero, checks_decide,
    compositions_fit, regularising_certifies, regularising_keeps_law, regularising_loses_no_zero,
};
