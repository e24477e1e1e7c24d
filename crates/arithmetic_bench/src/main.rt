//! Makes one product, exact quotient or pseudo-remainder over and over, and writes what came of it.
#![tactic(auto)]

mod operands;
mod operations;
mod outcome;
mod sequence;
mod trial;

use operations::last_result;
use outcome::line_of;
use std::{env, io};
use tri_io::words_behind_name;
use trial::{Trial, short_trials, trial_of};

/// Makes what the trial says, and writes it.
fn report(rt: &HostRuntime, trial: Trial) -> io::Result<()> {
    let result = last_result(rt.alloc(), trial)?;
    println!(rt; "{}", line_of(rt.alloc(), trial, &result)?)
}

fn main(rt: HostRuntime) -> io::Result<()> {
    let words = words_behind_name(rt.alloc(), env::args(&rt)?)?;
    if let Some(trial) = trial_of(&words) {
        return report(&rt, trial);
    }
    for trial in short_trials() {
        report(&rt, trial)?;
    }
    Ok(())
}
