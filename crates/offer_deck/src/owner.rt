ghost use Rattle.std.specs.Prelude.{◌≡◌, ◌≤◌, ◌<◌, ◌∷◌, [], ◌++◌, ◌↔◌, length, IfSome, IfNone, IfErr, OnOk, IsErr, IsTrue, IsFalse};
ghost use Rattle.std.specs.List.{AllByRecursion};
ghost use Rattle.split_paths.specs.Key.{IsTrueOffer};
ghost use Rattle.tally_laws.specs.Weights.{WeighTheSame};
ghost use Rattle.offer_deck.specs.Views.{EmptyBeside, pass_of_owner, sole_of};

use crate::desk::Desk;
use crate::thief::Thief;
use split_paths::{Named, Offer, Splitter};
use std::marker::Model;

/// One thread's deck, to which it alone adds.
#[derive(Drop)]
pub struct Owner<X: Splitter, N: Named<X::Task, X::Leaf>> {
    pub(crate) desk: Desk<X, N>,
}

impl<X: Splitter, N: Named<X::Task, X::Leaf>> Model for Owner<X, N> {
    ghost use Rattle.std.specs.Prelude.{◌≡◌};
    ghost use Rattle.offer_deck.specs.Views.{OwnerView};

    ghost Value = { OwnerView X.Task };

    ghost view = { λ owner. record {
      deck = owner.desk.deck;
      room = owner.desk.room;
      made = owner.desk.made;
      taken = owner.desk.taken;
      thieves = owner.desk.thieves;
    } };

    ghost invariant = { λ owner. owner.desk.hands ≡ 0 };
}

impl<X: Splitter, N: Named<X::Task, X::Leaf>> Owner<X, N> {
    /// Makes an offer. It comes back where there is no room, and takes no memory.
    pub fn offer(&mut self, offer: Offer<X>) -> Result<(), Offer<X>>
        requires { IsTrueOffer N.offers offer }
        ensures ok { OnOk result
            (self.new ≡ record self.old { made = self.old.made ++ offer ∷ [] }) }
        ensures full { IfErr result (λ back. (back ≡ offer) × (self.new ≡ self.old)) }
        ensures room { IsErr result ↔ (self.old.room ≤ length self.old.made) }
    {
        self.desk.offer(offer)
    }

    /// Takes the oldest offer.
    pub fn recall(&mut self) -> Option<Offer<X>>
        ensures some { IfSome result
            (λ offer. self.new ≡ record self.old { taken = self.old.taken ++ offer ∷ [] }) }
        ensures offer { IfSome result (λ offer. IsTrueOffer N.offers offer) }
        ensures within { IfSome result (λ offer. length self.new.taken ≤ length self.new.made) }
        ensures none { IfNone result (self.new ≡ self.old) }

        // There is none only where the deck was empty. Without thieves, all was taken here.
        ensures beside { IfNone result (EmptyBeside N.offers (pass_of_owner self.old)) }
        ensures alone { IfNone result (self.old.thieves ≡ 0
            → WeighTheSame self.old.taken self.old.made) }
    {
        self.desk.recall()
    }

    /// Whether the deck held no offer at one moment of the call.
    ///
    /// Thieves may take what it held before the call returns; only the owner adds to it.
    pub fn is_empty(&mut self) -> bool
        ensures same { self.new ≡ self.old }
        ensures beside { IsTrue result → EmptyBeside N.offers (pass_of_owner self.old) }
        ensures left { IsFalse result → length self.old.taken < length self.old.made }
    {
        self.desk.is_empty()
    }

    /// Ends the deck, which is given all its thieves back.
    pub fn close(self, thieves: Vec<Thief<X, N>>) -> Sole<X, N>
        requires deck { AllByRecursion (λ thief. thief.deck ≡ self.deck) thieves.items }
        requires all { length thieves.items ≡ self.thieves }
        ensures { result ≡ sole_of self thieves.items }
    {
        let Owner { mut desk } = self;
        for thief in thieves {
            desk.absorb(thief);
        }
        Sole { desk }
    }
}

/// A deck that is closed.
#[derive(Drop)]
pub struct Sole<X: Splitter, N: Named<X::Task, X::Leaf>> {
    desk: Desk<X, N>,
}

impl<X: Splitter, N: Named<X::Task, X::Leaf>> Model for Sole<X, N> {
    ghost use Rattle.std.specs.Prelude.{◌≡◌};
    ghost use Rattle.offer_deck.specs.Views.{SoleView};

    ghost Value = { SoleView X.Task };

    ghost view = { λ sole. record { made = sole.desk.made; taken = sole.desk.taken } };

    ghost invariant = { λ sole. sole.desk.hands ≡ sole.desk.thieves };
}

impl<X: Splitter, N: Named<X::Task, X::Leaf>> Sole<X, N> {
    /// Takes the oldest of the offers that are left.
    pub fn recall(&mut self) -> Option<Offer<X>>
        ensures some { IfSome result
            (λ offer. self.new ≡ record self.old { taken = self.old.taken ++ offer ∷ [] }) }
        ensures within { IfSome result (λ offer. length self.new.taken ≤ length self.new.made) }
        ensures offer { IfSome result (λ offer. IsTrueOffer N.offers offer) }
        ensures none { IfNone result (self.new ≡ self.old) }
        ensures all { IfNone result (WeighTheSame self.old.taken self.old.made) }
    {
        self.desk.recall()
    }
}
