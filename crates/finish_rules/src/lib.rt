//! The certificate of an initial, or what vanishes where it has none, and the test of a certificate.
#![tactic(auto)]
