ghost use Rattle.std.specs.Prelude.{◌≡◌, ◌≤◌, ◌<◌, ◌+◌, ◌∷◌, [], ◌++◌, ◌↔◌, length, IfSome, IfNone, IfOk, IfErr, OnOk, IsErr, IsTrue, IsFalse};
ghost use Rattle.split_paths.specs.Key.{IsTrueOffer};
ghost use Rattle.tally_laws.specs.Weights.{WeighTheSame};
ghost use Rattle.offer_deck.specs.Desks.{IsUnused, pass_of_desk, with_thief_home};
ghost use Rattle.offer_deck.specs.Views.{EmptyBeside};

use crate::rule::{Counts, Law, Makes, Offers, Returns, Takes, View};
use crate::thief::Thief;
use crossbeam_deque::Worker;
use split_paths::{Named, Offer, Splitter};
use std::alloc::{AllocError, Global};
use std::marker::Model;

/// The end of a deck at which offers are made.
#[derive(Drop)]
pub(crate) struct Desk<X: Splitter, N: Named<X::Task, X::Leaf>> {
    room: u32,
    made: u32,
    worker: Worker<Offer<X>, Global, View<Offer<X>>, Law<X, N>>,
}

impl<X: Splitter, N: Named<X::Task, X::Leaf>> Model for Desk<X, N> {
    ghost use Rattle.std.specs.Prelude.{◌≡◌, ◌≤◌, true, length};
    ghost use Rattle.crossbeam_deque.specs.Handles.{worker_view, worker_deque, worker_flavor, worker_index, worker_capacity};
    ghost use Rattle.offer_deck.specs.Passes.{owner_pass};
    ghost use Rattle.offer_deck.specs.Desks.{DeskView};

    ghost Value = { DeskView X.Task };

    ghost view = { λ desk. record {
      deck = worker_deque desk.worker;
      room = desk.room;
      made = (worker_view desk.worker).made;
      thieves = (worker_view desk.worker).thieves;
      hands = (worker_view desk.worker).hands;
      taken = (worker_view desk.worker).taken;
    } };

    ghost invariant = { λ desk. (worker_flavor desk.worker ≡ 0)
        × (worker_index desk.worker ≤ desk.made)
        × (desk.made ≤ desk.room)
        × (desk.room ≤ worker_capacity desk.worker)
        × (desk.made ≡ length (worker_view desk.worker).made)
        × ((worker_view desk.worker).owns ≡ true) };
}

impl<X: Splitter, N: Named<X::Task, X::Leaf>> Desk<X, N> {
    #[tactic(auto, using(crate::proofs::Deals::begins))]
    pub(crate) fn new(alloc: Global, room: u32) -> Result<Desk<X, N>, AllocError>
        requires { 1 ≤ room }
        ensures room { IfOk result (λ desk. desk.room ≡ room) }
        ensures none { IfOk result IsUnused }
    {
        let worker = Worker::fifo_as(alloc, room as usize)?;
        Ok(Desk {
            room,
            made: 0,
            worker,
        })
    }

    /// One thief more.
    pub(crate) fn thief(&mut self) -> Result<Thief<X, N>, AllocError>
        ensures desk { OnOk result (self.new ≡ record self.old { thieves = self.old.thieves + 1 }) }
        ensures thief { IfOk result (λ thief. thief ≡ record { deck = self.old.deck; taken = [] }) }
    {
        let stealer = self.worker.stealer()?;
        let pass = self.worker.another::<Makes>();
        Ok(Thief { stealer, pass })
    }

    /// Makes an offer, unless there is no room for one more.
    pub(crate) fn offer(&mut self, offer: Offer<X>) -> Result<(), Offer<X>>
        requires { IsTrueOffer N.offers offer }
        ensures ok { OnOk result
            (self.new ≡ record self.old { made = self.old.made ++ offer ∷ [] }) }
        ensures full { IfErr result (λ back. (back ≡ offer) × (self.new ≡ self.old)) }
        ensures room { IsErr result ↔ (self.old.room ≤ length self.old.made) }
    {
        if self.made >= self.room {
            return Err(offer);
        }
        if let Err(back) = self.worker.push_as::<Offers>(offer) {
            return Err(back);
        }
        self.made += 1;
        Ok(())
    }

    /// Takes the oldest offer.
    pub(crate) fn recall(&mut self) -> Option<Offer<X>>
        ensures some { IfSome result
            (λ offer. self.new ≡ record self.old { taken = self.old.taken ++ offer ∷ [] }) }
        ensures offer { IfSome result (λ offer. IsTrueOffer N.offers offer) }
        ensures within { IfSome result (λ offer. length self.new.taken ≤ length self.new.made) }
        ensures none { IfNone result (self.new ≡ self.old) }
        ensures beside { IfNone result (EmptyBeside N.offers (pass_of_desk self.old)) }
        ensures all { IfNone result (self.old.hands ≡ self.old.thieves
            → WeighTheSame self.old.taken self.old.made) }
        ensures alone { IfNone result (self.old.thieves ≡ 0
            → WeighTheSame self.old.taken self.old.made) }
    {
        let Some(offer) = self.worker.pop_as::<Takes<X, N>>() else {
            return None;
        };
        Some(offer)
    }

    /// Whether the deck held no offer at one moment of the call.
    pub(crate) fn is_empty(&mut self) -> bool
        ensures same { self.new ≡ self.old }
        ensures beside { IsTrue result → EmptyBeside N.offers (pass_of_desk self.old) }
        ensures left { IsFalse result → length self.old.taken < length self.old.made }
    {
        self.worker.len_as::<Counts<X, N>>() == 0
    }

    /// Takes in what a thief took.
    pub(crate) fn absorb(&mut self, thief: Thief<X, N>)
        requires { thief.deck ≡ self.old.deck }
        ensures { self.new ≡ with_thief_home self.old thief }
    {
        let Thief { stealer: _, pass } = thief;
        self.worker.absorb::<Returns>(pass);
    }
}
