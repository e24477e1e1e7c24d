//! What all workers of a run read between their steps. No contract rests on it.
use crate::first_stop::FirstStop;
use crossbeam_utils::CachePadded;
use std::sync::atomic::{AtomicBool, Ordering};

/// The closing word, and the first stop that is known.
#[derive(Drop)]
pub(crate) struct Signals {
    closing: CachePadded<AtomicBool>,
    pub(crate) stop: FirstStop,
}

impl Signals {
    /// The word isn't set, and no stop is known.
    pub(crate) fn new() -> Signals {
        Signals {
            closing: CachePadded::new(AtomicBool::new(false)),
            stop: FirstStop::new(),
        }
    }

    /// Whether all workers are to come home.
    pub(crate) fn is_closing(&self) -> bool {
        self.closing.load(Ordering::SeqCst)
    }

    /// Calls all workers home.
    pub(crate) fn close(&self) {
        self.closing.store(true, Ordering::SeqCst);
    }
}
