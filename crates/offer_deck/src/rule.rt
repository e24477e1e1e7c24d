//! What a deck holds and what each of its passes knows. No value of a view is ever made.
use crossbeam_deque::protocol::{Join, Lesson, Outcome, Protocol, Split};
use split_paths::{Named, Offer, Splitter};
use std::collections::LinkedList;
use std::marker::PhantomData;

/// What a pass knows: that of the owner the offers made and the thieves, and each what it took.
pub struct View<A> {
    pub owns: bool,
    pub made: LinkedList<A>,
    pub thieves: u32,
    pub hands: u32,
    pub taken: LinkedList<A>,
}

/// The rule of a deck whose offers are those of the key `N`.
pub struct Law<X: Splitter, N: Named<X::Task, X::Leaf>> {
    of: PhantomData<(X, N)>,
}

impl<X: Splitter, N: Named<X::Task, X::Leaf>> Protocol<Offer<X>, View<Offer<X>>> for Law<X, N> {
    ghost use Rattle.std.specs.Prelude.{[]};
    ghost use Rattle.split_paths.specs.Key.{IsTrueOffer};
    ghost use Rattle.offer_deck.specs.Passes.{owner_pass, idle_pass};
    ghost use Rattle.offer_deck.specs.Rule.{KeepsDeck};

    ghost holds = { KeepsDeck (IsTrueOffer N.offers) };

    ghost first = { owner_pass [] 0 0 [] };

    ghost guest = { idle_pass };
}

/// A thief is made.
pub struct Makes;

impl<A> Split<View<A>> for Makes {
    ghost use Rattle.std.specs.Prelude.{[]};
    ghost use Rattle.offer_deck.specs.Passes.{with_thief, thief_pass};

    ghost left = { with_thief };

    ghost right = { λ owner. thief_pass [] };
}

/// A thief is given back.
pub struct Returns;

impl<A> Join<View<A>> for Returns {
    ghost use Rattle.offer_deck.specs.Passes.{with_thief_back, idle_pass};

    ghost both = { with_thief_back };

    ghost spent = { idle_pass };
}

/// The owner makes an offer.
pub struct Offers;

impl<A> Outcome<A, View<A>> for Offers {
    ghost use Rattle.std.specs.Prelude.{◌≡◌};
    ghost use Rattle.offer_deck.specs.Passes.{with_offers};

    ghost then = { λ owner offers after. after ≡ with_offers owner offers };
}

/// An offer is taken, or none is there.
pub struct Takes<X: Splitter, N: Named<X::Task, X::Leaf>> {
    of: PhantomData<(X, N)>,
}

impl<X: Splitter, N: Named<X::Task, X::Leaf>> Outcome<Offer<X>, View<Offer<X>>> for Takes<X, N> {
    ghost use Rattle.split_paths.specs.Key.{IsTrueOffer};
    ghost use Rattle.offer_deck.specs.Rule.{AreFirst, BesideNone};

    ghost then = { AreFirst (IsTrueOffer N.offers) };

    ghost empty = { BesideNone (IsTrueOffer N.offers) };
}

/// What the deck holds is counted.
pub struct Counts<X: Splitter, N: Named<X::Task, X::Leaf>> {
    of: PhantomData<(X, N)>,
}

impl<X: Splitter, N: Named<X::Task, X::Leaf>> Lesson<Offer<X>, View<Offer<X>>> for Counts<X, N> {
    ghost use Rattle.split_paths.specs.Key.{IsTrueOffer};
    ghost use Rattle.offer_deck.specs.Rule.{BesideHeld};

    ghost fact = { λ owner items. BesideHeld (IsTrueOffer N.offers) items owner };
}
