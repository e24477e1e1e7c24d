//! Bytes in and out, with a count of the faults of each end.
#![tactic(auto)]

mod command;
mod failed;
mod input;
mod mem_sink;
mod mem_source;
mod number;
mod options;
mod output;
mod sink;
mod source;
mod std_sink;
mod std_source;
mod words;

pub use command::{Command, command_of, commands_are_known};
pub use failed::Failed;
pub use input::{Input, ReadFail, read_all};
pub use mem_sink::MemSink;
pub use mem_source::MemSource;
pub use number::NumberOption;
pub use options::{WordsFault, numbers_of};
pub use output::write_all;
pub use sink::Sink;
pub use source::Source;
pub use std_sink::StdSink;
pub use std_source::StdSource;
pub use words::words_behind_name;

#[cfg(test)]
mod tests;
