//! The solver on one thread, over any source and sink.
#![tactic(auto)]

mod ending;
mod run;
mod walks;

pub use report_text::Status;
pub use run::run_alone;
pub use solver_inputs::MOST_BYTES;

#[cfg(test)]
mod fault_tests;
#[cfg(test)]
mod limit_tests;
#[cfg(test)]
mod tests;
