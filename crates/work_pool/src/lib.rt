//! A tree of splits, walked by several workers, whose answer is handed out in path order.
#![tactic(auto)]

mod aside;
mod close;
mod column;
mod desk;
mod end;
mod first_stop;
mod homes;
mod job;
mod lead;
mod pool;
mod rest;
mod run;
mod seats;
mod setup;
mod signals;
mod start;
mod taker;
#[cfg(test)]
mod tests;
mod walk;
mod worker;

pub use pool::pool_run;
pub use taker::{End, PoolError, PoolSize, Taker};
