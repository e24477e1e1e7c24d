//! What a worker does in one go, each a small change of what it holds.
ghost use Rattle.std.specs.Prelude.{◌≡◌, ◌<◌, ◌↔◌, [], ◌∷◌, length, OnOk, IsTrue};
ghost use Rattle.split_paths.specs.Key.{IsClosedKey};
ghost use Rattle.work_pool.specs.Works.{IsAtWork, Moves, Works};

use crate::first_stop::FirstStop;
use crate::homes::Home;
use event_lanes::Hub;
use generators::{Generator, Turn};
use offer_deck::Steal;
use split_paths::{Named, Offer, Splitter};
use std::alloc::{AllocError, Global};
use std::hint::spin_loop;
use std::sync::Wait;
use std::thread::yield_now;

/// How many times a worker without a task gives way within its processor before it yields.
const SPINS: u32 = 200;

/// Gives way to workers that have a task: to the thread beside on the same processor, then to others.
fn pause() {
    for _ in 0..SPINS {
        spin_loop();
    }
    yield_now();
}

impl<X: Splitter, N: Named<X::Task, X::Leaf>> Home<X, N> {
    /// Tries to put the event that is held, and pauses where there is no room.
    fn put<R: Wait>(&mut self, rt: &R, hub: &Hub<X, N>)
        requires desk { IsAtWork N.events N.offers self.old }
        requires hub { self.old.lane.hub ≡ hub.now.name }
        ensures { Moves N.events N.offers self.old self.new }
    {
        let Some(event) = self.event.take() else {
            return;
        };
        if let Err(full) = hub.put(rt, &mut self.lane, event) {
            self.event = Some(full.event);
            pause();
        }
    }

    /// Makes a turn of the generator.
    fn turn(&mut self, splitter: &X) -> Result<(), AllocError>
        requires key { IsClosedKey (X.step splitter.now) (X.lawful_task splitter.now)
            N.events N.offers }
        requires desk { IsAtWork N.events N.offers self.old }
        requires free { self.old.events ≡ [] }
        ensures { OnOk result (Works N.events N.offers (X.step splitter.now) self.old self.new) }
    {
        let Some(mut generator) = self.generator.take() else {
            return Ok(());
        };
        match generator.turn(splitter) {
            Ok(Turn::Quiet) => {
                self.generator = Some(generator);
                Ok(())
            }
            Ok(Turn::Event(event)) => {
                self.event = Some(event);
                self.generator = Some(generator);
                Ok(())
            }
            Ok(Turn::Done) => Ok(()),
            Err(_) => Err(AllocError),
        }
    }

    /// Holds a task that is to be run.
    fn keep(&mut self, offer: Offer<X>)
        ensures { self.new ≡ record self.old { offers = offer ∷ [] } }
    {
        self.offer = Some(offer);
    }

    /// Takes the oldest offer of the own deck, if there is one.
    fn recall(&mut self)
        requires desk { IsAtWork N.events N.offers self.old }
        requires free { self.old.offers ≡ [] }
        ensures { Moves N.events N.offers self.old self.new }
    {
        if let Some(offer) = self.owner.recall() {
            self.keep(offer);
        }
    }

    /// Takes the second task that waits, if there is one: what comes of it is needed before the others.
    fn give(&mut self) -> Result<(), AllocError>
        requires desk { IsAtWork N.events N.offers self.old }
        requires free { self.old.offers ≡ [] }
        ensures { OnOk result (Moves N.events N.offers self.old self.new) }
    {
        let Some(mut generator) = self.generator.take() else {
            return Ok(());
        };
        self.offer = generator.give_next()?;
        self.generator = Some(generator);
        Ok(())
    }

    /// Offers the task that is held, unless there is no room for it.
    fn offer(&mut self)
        requires desk { IsAtWork N.events N.offers self.old }
        ensures { Moves N.events N.offers self.old self.new }
    {
        let Some(offer) = self.offer.take() else {
            return;
        };
        if let Err(back) = self.owner.offer(offer) {
            self.keep(back);
        }
    }

    /// Lets the task that is held wait, as the only one of a new generator, unless there is one.
    fn start(&mut self, alloc: Global) -> Result<(), AllocError>
        requires { IsAtWork N.events N.offers self.old }
        ensures { OnOk result (Moves N.events N.offers self.old self.new) }
    {
        match &self.generator {
            Some(_) => return Ok(()),
            None => {}
        }
        let Some(offer) = self.offer.take() else {
            return Ok(());
        };
        let generator = Generator::of(alloc, offer)?;
        self.generator = Some(generator);
        Ok(())
    }

    /// Tries to take an offer of another's deck, and pauses where there is none.
    fn steal<R: Wait>(&mut self, rt: &R, k: usize)
        requires desk { IsAtWork N.events N.offers self.old }
        requires free { self.old.offers ≡ [] }
        requires within { k < length self.old.thieves }
        ensures { Moves N.events N.offers self.old self.new }
    {
        match self.thieves[k].steal(rt) {
            Steal::Got(offer) => self.keep(offer),
            Steal::Empty => pause(),
        }
    }

    /// Whether no event is held.
    fn has_put(&self) -> bool
        ensures { IsTrue result ↔ (self.now.events ≡ []) }
    {
        match &self.event {
            Some(_) => false,
            None => true,
        }
    }

    /// Whether there is no generator of which turns are made.
    fn is_idle(&self) -> bool {
        match &self.generator {
            Some(_) => false,
            None => true,
        }
    }

    /// Whether no task is held that is to be run.
    fn is_free(&self) -> bool
        ensures { IsTrue result ↔ (self.now.offers ≡ []) }
    {
        match &self.offer {
            Some(_) => false,
            None => true,
        }
    }

    /// Whether the own deck holds no offer.
    fn offers_none(&mut self) -> bool
        ensures { self.new ≡ self.old }
    {
        self.owner.is_empty()
    }

    /// Whether two tasks or more wait.
    fn has_two(&self) -> bool {
        match &self.generator {
            Some(generator) => generator.count() >= 2,
            None => false,
        }
    }

    /// Offers a task to the others. One that comes back is kept.
    #[tactic(auto, using(crate::proofs::Moved::move_rules))]
    fn share(&mut self) -> Result<(), AllocError>
        requires desk { IsAtWork N.events N.offers self.old }
        requires free { self.old.offers ≡ [] }
        ensures { OnOk result (Moves N.events N.offers self.old self.new) }
    {
        self.give()?;
        self.offer();
        Ok(())
    }

    /// Offers a task where two wait and there is a thief, unless one came back before.
    #[tactic(auto, using(crate::proofs::Moved::move_rules))]
    fn share_one(&mut self) -> Result<(), AllocError>
        requires { IsAtWork N.events N.offers self.old }
        ensures { OnOk result (Moves N.events N.offers self.old self.new) }
    {
        if !self.thieves.is_empty() && self.is_free() && self.has_two() {
            self.share()?;
        }
        Ok(())
    }

    /// Begins with the task that is held, or sets it aside where the answer stops before it.
    #[tactic(auto, using(crate::proofs::Moved::move_rules))]
    fn begin<R: Wait>(&mut self, rt: &R, alloc: Global, stop: &FirstStop) -> Result<(), AllocError>
        requires { IsAtWork N.events N.offers self.old }
        ensures { OnOk result (Moves N.events N.offers self.old self.new) }
    {
        let in_vain = self.is_held_in_vain(rt, stop);
        self.start(alloc)?;
        if in_vain {
            self.set_aside()?;
        }
        Ok(())
    }

    /// Sets the generator aside where the answer stops before all that waits. Else offers a task, where
    /// thieves find no offer of this worker.
    #[tactic(auto, using(crate::proofs::Moved::move_rules))]
    fn share_or_set_aside<R: Wait>(&mut self, rt: &R, stop: &FirstStop) -> Result<(), AllocError>
        requires { IsAtWork N.events N.offers self.old }
        ensures { OnOk result (Moves N.events N.offers self.old self.new) }
    {
        if self.waits_in_vain(rt, stop) {
            return self.set_aside();
        }
        if self.offers_none() {
            self.share_one()?;
        }
        Ok(())
    }

    /// Makes a turn, and shares what waits then.
    #[tactic(auto, using(crate::proofs::Moved::move_rules))]
    fn turn_and_share<R: Wait>(
        &mut self,
        rt: &R,
        splitter: &X,
        stop: &FirstStop,
    ) -> Result<(), AllocError>
        requires key { IsClosedKey (X.step splitter.now) (X.lawful_task splitter.now)
            N.events N.offers }
        requires desk { IsAtWork N.events N.offers self.old }
        requires free { self.old.events ≡ [] }
        ensures { OnOk result (Works N.events N.offers (X.step splitter.now) self.old self.new) }
    {
        self.turn(splitter)?;
        self.tell_stop(rt, stop);
        self.share_or_set_aside(rt, stop)?;
        Ok(())
    }

    /// Looks for an offer of the deck that is next in turn.
    #[tactic(auto, using(crate::proofs::Moved::move_rules))]
    fn look<R: Wait>(&mut self, rt: &R, next: &mut usize)
        requires desk { IsAtWork N.events N.offers self.old }
        requires free { self.old.offers ≡ [] }
        ensures { Moves N.events N.offers self.old self.new }
    {
        let count = self.thieves.len();
        if count == 0 {
            pause();
            return;
        }
        let k = *next % count;
        *next = k + 1;
        self.steal(rt, k);
    }

    /// Looks for a task: the own oldest offer, or else one of another's.
    #[tactic(auto, using(crate::proofs::Moved::move_rules))]
    fn find<R: Wait>(&mut self, rt: &R, next: &mut usize)
        requires desk { IsAtWork N.events N.offers self.old }
        requires free { self.old.offers ≡ [] }
        ensures { Moves N.events N.offers self.old self.new }
    {
        self.recall();
        if self.is_free() {
            self.look(rt, next);
        }
    }

    /// Goes on in one of the ways above.
    #[tactic(auto, using(crate::proofs::Moved::move_rules))]
    pub(crate) fn go_on<R: Wait>(
        &mut self,
        rt: &R,
        alloc: Global,
        splitter: &X,
        hub: &Hub<X, N>,
        stop: &FirstStop,
        next: &mut usize,
    ) -> Result<(), AllocError>
        requires key { IsClosedKey (X.step splitter.now) (X.lawful_task splitter.now)
            N.events N.offers }
        requires desk { IsAtWork N.events N.offers self.old }
        requires hub { self.old.lane.hub ≡ hub.now.name }
        ensures { OnOk result (Works N.events N.offers (X.step splitter.now) self.old self.new) }
    {
        if !self.has_put() {
            self.put(rt, hub);
            return Ok(());
        }
        if !self.is_idle() {
            return self.turn_and_share(rt, splitter, stop);
        }
        if !self.is_free() {
            return self.begin(rt, alloc, stop);
        }
        self.find(rt, next);
        Ok(())
    }
}
