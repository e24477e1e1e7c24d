//! The step that imposes one polynomial on a task, whose children have each of its points.
#![tactic(auto)]

mod cases;
mod children;
mod head;
mod rows;
mod step;

pub use step::impose;

#[cfg(test)]
mod samples;
#[cfg(test)]
mod step_tests;
#[cfg(test)]
mod tests;
