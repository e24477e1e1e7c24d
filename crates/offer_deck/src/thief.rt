ghost use Rattle.std.specs.Prelude.{◌≡◌, ◌∷◌, [], ◌++◌, IfSome, IfNone};
ghost use Rattle.split_paths.specs.Key.{IsTrueOffer};
ghost use Rattle.offer_deck.specs.Views.{IfGot, IfEmpty, EmptyBeside, pass_of_thief};

use crate::rule::{Law, Takes, View};
use crossbeam_deque::{Pass, Stealer};
use split_paths::{Named, Offer, Splitter};
use std::alloc::Global;
use std::marker::Model;
use std::sync::Wait;

/// What a thief gets.
#[derive(Drop)]
pub enum Steal<X: Splitter> {
    /// The oldest offer.
    Got(Offer<X>),
    /// The deck was empty.
    Empty,
}

/// One thread's right to take from the deck of another.
#[derive(Drop)]
pub struct Thief<X: Splitter, N: Named<X::Task, X::Leaf>> {
    pub(crate) stealer: Stealer<Offer<X>, Global, View<Offer<X>>, Law<X, N>>,
    pub(crate) pass: Pass<Offer<X>, View<Offer<X>>, Global>,
}

impl<X: Splitter, N: Named<X::Task, X::Leaf>> Model for Thief<X, N> {
    ghost use Rattle.std.specs.Prelude.{◌≡◌};
    ghost use Rattle.crossbeam_deque.specs.Handles.{view as known, IsPassOf, stealer_deque, stealer_flavor};
    ghost use Rattle.offer_deck.specs.Passes.{thief_pass};
    ghost use Rattle.offer_deck.specs.Views.{ThiefView};

    ghost Value = { ThiefView X.Task };

    ghost view = { λ thief. record {
      deck = stealer_deque thief.stealer;
      taken = (known thief.pass).taken;
    } };

    ghost invariant = { λ thief. (stealer_flavor thief.stealer ≡ 0)
        × IsPassOf (stealer_deque thief.stealer) thief.pass
        × (known thief.pass ≡ thief_pass (known thief.pass).taken) };
}

impl<X: Splitter, N: Named<X::Task, X::Leaf>> Thief<X, N> {
    /// Takes the oldest offer. It tries again while another thread is in the way.
    pub fn steal<R: Wait>(&mut self, rt: &R) -> Steal<X>
        ensures got { IfGot result
            (λ offer. self.new ≡ record self.old { taken = self.old.taken ++ offer ∷ [] }) }
        ensures offer { IfGot result (λ offer. IsTrueOffer N.offers offer) }
        ensures empty { IfEmpty result (self.new ≡ self.old) }
        ensures beside { IfEmpty result (EmptyBeside N.offers (pass_of_thief self.old)) }
    {
        for _ in rt.forever() {
            if let Some(steal) = self.attempt() {
                return steal;
            }
        }
        unreachable!()
    }

    /// One attempt, which fails where another thread was in the way.
    fn attempt(&mut self) -> Option<Steal<X>>
        ensures got { IfSome result (λ steal. IfGot steal
            (λ offer. self.new ≡ record self.old { taken = self.old.taken ++ offer ∷ [] })) }
        ensures offer { IfSome result (λ steal. IfGot steal (λ offer. IsTrueOffer N.offers offer)) }
        ensures empty { IfSome result (λ steal. IfEmpty steal (self.new ≡ self.old)) }
        ensures beside { IfSome result
            (λ steal. IfEmpty steal (EmptyBeside N.offers (pass_of_thief self.old))) }
        ensures again { IfNone result (self.new ≡ self.old) }
    {
        match self.stealer.steal_as::<Takes<X, N>>(&mut self.pass) {
            crossbeam_deque::Steal::Success(offer) => return Some(Steal::Got(offer)),
            crossbeam_deque::Steal::Empty => return Some(Steal::Empty),
            crossbeam_deque::Steal::Retry => {}
        }
        None
    }
}
