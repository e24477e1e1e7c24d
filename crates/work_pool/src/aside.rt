//! What a worker sets aside, since the answer stops before it.
ghost use Rattle.std.specs.Prelude.{◌≡◌, OnOk};

use crate::first_stop::FirstStop;
use crate::homes::Home;
use split_paths::{Event, Named, Splitter};
use std::alloc::AllocError;
use std::sync::Wait;

impl<X: Splitter, N: Named<X::Task, X::Leaf>> Home<X, N> {
    /// Tells the other workers where the event that is held stops the answer.
    pub(crate) fn tell_stop<R: Wait>(&self, rt: &R, stop: &FirstStop) {
        if let Some(event) = &self.event {
            stop.note(rt, event);
        }
    }

    /// Whether all that waits comes after a known stop: it comes after the event that is held.
    pub(crate) fn waits_in_vain<R: Wait>(&self, rt: &R, stop: &FirstStop) -> bool {
        match &self.event {
            Some(Event::Split { path, .. }) => stop.is_reached(rt, path),
            Some(Event::Leaf { path, .. }) => stop.is_reached(rt, path),
            None => false,
        }
    }

    /// Whether the task that is held comes after a known stop.
    pub(crate) fn is_held_in_vain<R: Wait>(&self, rt: &R, stop: &FirstStop) -> bool {
        match &self.offer {
            Some(offer) => stop.is_reached(rt, &offer.path),
            None => false,
        }
    }

    /// Sets the generator aside. It comes home, but no turn of it is made until then.
    pub(crate) fn set_aside(&mut self) -> Result<(), AllocError>
        ensures { OnOk result (self.new ≡ self.old) }
    {
        if let Some(generator) = self.generator.take() {
            self.aside.push_front(generator)?;
        }
        Ok(())
    }
}
