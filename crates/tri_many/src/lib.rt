//! The solver with several workers, over any source and sink.
#![tactic(auto)]

mod answer;
mod counter;
mod output;
mod printer;
mod report;
mod run;
mod size;
mod summary;
mod watch;

pub use report_text::Status;
pub use run::{run_many, run_watched};
pub use solver_inputs::MOST_BYTES;
pub use watch::{Unwatched, Watch};

#[cfg(test)]
mod limit_tests;
#[cfg(test)]
mod meeting_tests;
#[cfg(test)]
mod tests;
#[cfg(test)]
mod tree_tests;
