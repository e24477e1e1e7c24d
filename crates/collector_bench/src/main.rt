//! Notes the events of a tree in one order, and writes what the walk of it handed out.
#![tactic(auto)]

mod order;
mod tree;
mod walk;

use order::Order;
use std::alloc::{AllocError, Global};
use std::{env, io};
use tri_io::words_behind_name;
use walk::{Tally, tally_of};

/// How many levels of splits a tree has where no word says it.
const LEVELS: u32 = 9;

fn levels_of(words: &[String]) -> u32 {
    let Some(word) = words.get(1) else {
        return LEVELS;
    };
    match word.as_str().parse::<u32>() {
        Ok(levels) => levels,
        Err(_) => LEVELS,
    }
}

fn line_of(alloc: Global, order: Order, tally: &Tally) -> Result<String, AllocError> {
    let name = order.name();
    let events = tally.events;
    let leaves = tally.leaves;
    let ascend = if tally.ascend { "in" } else { "out of" };
    let end = if tally.ended { "finished" } else { "waits" };
    format!(in alloc; "{name}: {events} events, {leaves} leaves {ascend} path order, {end}")
}

fn main(rt: HostRuntime) -> io::Result<()> {
    // An order, and a number of levels.
    let words = words_behind_name(rt.alloc(), env::args(&rt)?)?;
    let levels = levels_of(&words);
    for order in [Order::Neither, Order::Forward, Order::Reverse] {
        if let Some(word) = words.first() {
            if word.as_str() != order.name() {
                continue;
            }
        }
        let tally = tally_of(rt.alloc(), order, levels)?;
        println!(rt; "{}", line_of(rt.alloc(), order, &tally)?)?;
    }
    Ok(())
}
