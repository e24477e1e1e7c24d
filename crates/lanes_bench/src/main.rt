//! Four threads put events into one hub and trade offers over their decks, and a fifth takes the
//! events. It is counted how often each number came, and whether each lane's came in order.
#![tactic(auto)]

mod counts;
mod drain;
mod hands;
mod mark;
mod round;

use counts::Counts;
use round::round;
use std::{env, io};

/// How many numbers each thread has in a round where no word says it.
const NUMBERS: u32 = 500;

/// How many rounds there are where no word says it.
const ROUNDS: u32 = 2;

fn word_at(rt: &HostRuntime, place: usize, other: u32) -> io::Result<u32> {
    let mut words = env::args(rt)?.skip(place);
    let Some(word) = words.next() else {
        return Ok(other);
    };
    Ok(word.as_str().parse::<u32>().unwrap_or(other))
}

fn main(rt: HostRuntime) -> io::Result<()> {
    let numbers = word_at(&rt, 1, NUMBERS)?;
    let rounds = word_at(&rt, 2, ROUNDS)?;
    let mut all = Counts::new();
    for _ in 0..rounds {
        let counts = round(&rt, rt.alloc(), numbers)?;
        all.add(&counts);
    }
    println!(rt;
        "{} events, {} out of order, {} offers, {} not once",
        all.events, all.disorder, all.offers, all.not_once
    )?;
    Ok(())
}
