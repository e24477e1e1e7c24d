//! Reads a system from standard input and writes its chains to standard output, on one thread.
#![tactic(auto)]

use std::process::ExitCode;
use std::{env, io};
use tri_alone::{Status, run_alone};
use tri_io::{StdSink, StdSource, words_behind_name};

// The status where the runtime can't give the words of the command line.
const NO_WORDS: u8 = 8;

/// The words of the command line without the program's name.
fn words_of(rt: &HostRuntime) -> io::Result<Vec<String>> {
    Ok(words_behind_name(rt.alloc(), env::args(rt)?)?)
}

fn main(rt: HostRuntime) -> ExitCode {
    let words = match words_of(&rt) {
        Ok(words) => words,
        Err(error) if error.kind() == io::ErrorKind::OutOfMemory => {
            return ExitCode::from(Status::OutOfMemory.number());
        }
        Err(_) => return ExitCode::from(NO_WORDS),
    };
    let mut source = StdSource::new(rt.stdin());
    let mut sink = StdSink::new(rt.stdout());
    let status = run_alone(rt.alloc(), &words, &mut source, &mut sink);
    ExitCode::from(status.number())
}
