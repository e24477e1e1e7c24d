use crate::hands::{Hands, THREADS};
use crate::mark::Mark;
use std::alloc::{AllocError, Global};

/// What came in a round, or in several.
#[derive(Debug, Drop)]
pub(crate) struct Counts {
    pub(crate) events: u32,
    /// Events that weren't the next of their lane.
    pub(crate) disorder: u32,
    pub(crate) offers: u32,
    /// Offers that weren't taken once.
    pub(crate) not_once: u32,
}

impl Counts {
    pub(crate) fn new() -> Counts {
        Counts {
            events: 0,
            disorder: 0,
            offers: 0,
            not_once: 0,
        }
    }

    pub(crate) fn add(&mut self, more: &Counts) {
        self.events = self.events.saturating_add(more.events);
        self.disorder = self.disorder.saturating_add(more.disorder);
        self.offers = self.offers.saturating_add(more.offers);
        self.not_once = self.not_once.saturating_add(more.not_once);
    }

    /// Counts the event of a lane whose next number should be this one.
    pub(crate) fn hear(&mut self, lane: u32, mark: &Mark, next: &mut u32) {
        self.events = self.events.saturating_add(1);
        if mark.thread != lane || mark.number != *next {
            self.disorder = self.disorder.saturating_add(1);
        }
        *next = mark.number.saturating_add(1);
    }
}

/// How often each offer was taken.
#[derive(Drop)]
pub(crate) struct Times {
    times: Vec<u32>,
    taken: u32,
}

impl Times {
    pub(crate) fn new(alloc: Global, numbers: u32) -> Result<Times, AllocError> {
        let offers = (numbers as usize).saturating_mul(THREADS as usize);
        Ok(Times {
            times: vec![in alloc; 0; offers]?,
            taken: 0,
        })
    }

    fn add(&mut self, mark: &Mark) {
        self.taken = self.taken.saturating_add(1);
        let place = (mark.number as usize)
            .saturating_mul(THREADS as usize)
            .saturating_add(mark.thread as usize);
        if let Some(time) = self.times.get_mut(place) {
            *time = (*time).saturating_add(1);
        }
    }

    /// Adds what one thread took, and what is left in its deck.
    pub(crate) fn add_all(&mut self, hands: Hands) {
        let Hands {
            thread: _,
            mut owner,
            thieves: _,
            taken,
        } = hands;
        for mark in &taken {
            self.add(mark);
        }
        for _ in 0..u32::MAX {
            let Some(offer) = owner.recall() else {
                break;
            };
            self.add(&offer.task);
        }
    }

    /// Says how many were taken, and how many of them not once.
    pub(crate) fn tell(&self, counts: &mut Counts) {
        counts.offers = self.taken;
        for time in &self.times {
            if *time != 1 {
                counts.not_once = counts.not_once.saturating_add(1);
            }
        }
    }
}
