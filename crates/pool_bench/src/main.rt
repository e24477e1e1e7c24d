//! Walks trees with several workers, and compares what they hand out with what one thread does.
#![tactic(auto)]

mod check;
mod run;
mod tree;
mod walk;

use run::{Tally, tally_of};
use std::alloc::{AllocError, Global};
use std::{env, io};
use tri_io::words_behind_name;

/// The greatest number of which a tree is walked where no word says it.
const MOST: u32 = 2_000;

/// How many trees are walked where no word says it.
const TREES: u32 = 8;

fn number_at(words: &[String], place: usize, otherwise: u32) -> u32 {
    let Some(word) = words.get(place) else {
        return otherwise;
    };
    match word.as_str().parse::<u32>() {
        Ok(number) => number,
        Err(_) => otherwise,
    }
}

fn line_of(alloc: Global, tally: &Tally) -> Result<String, AllocError> {
    let trees = tally.trees;
    let events = tally.events;
    let pairs = tally.pairs;
    let stopped = tally.stopped;
    let runs = tally.runs;
    let differ = tally.differ;
    format!(in alloc;
        "{trees} trees, {events} events, {pairs} pairs, {stopped} stopped: {runs} runs, {differ} differ"
    )
}

fn main(rt: HostRuntime) -> io::Result<()> {
    // The greatest number, and how many trees.
    let words = words_behind_name(rt.alloc(), env::args(&rt)?)?;
    let most = number_at(&words, 0, MOST);
    let trees = number_at(&words, 1, TREES);
    let tally = tally_of(rt, rt.alloc(), most, trees)?;
    println!(rt; "{}", line_of(rt.alloc(), &tally)?)
}
