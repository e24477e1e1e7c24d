ghost use Rattle.std.specs.Prelude.{◌≡◌, ◌<◌, ◌↔◌, List, [], ◌∷◌, ◌++◌, ◌+◌, length, take, drop, IsTrue, IsNone, IfSome, IfNone, IfOk, IfErr, OnErr};
ghost use Rattle.split_paths.specs.Tree.{events_to_come, steps_to_come};
ghost use Rattle.generators.specs.Turns.{AreLawful, GivesWay, IsLastToCome, Meets, IsLawfulTurn, StarvesAt, steps_made, turns_to_come, turns_made};

use crate::children::make_step;
use crate::turn::{Starved, Turn};
use item_lists::Items;
use split_paths::{Offer, Splitter};
use std::alloc::{AllocError, Global};
use std::marker::Model;

/// The tasks that wait below one place, in path order. A turn makes one step of the first.
#[derive(Drop)]
pub struct Generator<X: Splitter> {
    alloc: Global,
    waiting: Items<Offer<X>>,
}

impl<X: Splitter> Model for Generator<X> {
    ghost use Rattle.std.specs.Prelude.{List};
    ghost use Rattle.split_paths.specs.Places.{Place};

    ghost Value = { List (Place X.Task) };

    ghost view = { λ generator. generator.waiting };
}

impl<X: Splitter> Generator<X> {
    /// Lets one task wait.
    pub fn of(alloc: Global, start: Offer<X>) -> Result<Generator<X>, AllocError>
        ensures { IfOk result (λ generator. generator ≡ start ∷ []) }
    {
        let mut waiting = Items::new(alloc);
        waiting.push(start)?;
        Ok(Generator { alloc, waiting })
    }

    /// How many tasks wait.
    pub fn count(&self) -> usize
        ensures { result ≡ length self.now }
    {
        self.waiting.count()
    }

    /// Whether the next turn answers `Done`, which needs no step to be told.
    pub fn is_done(&self) -> bool
        ensures { IsTrue result ↔ (self.now ≡ []) }
    {
        self.waiting.is_empty()
    }

    /// Takes the last waiting task away, if another one waits before it.
    pub fn give(&mut self) -> Option<Offer<X>>
        ensures none { IsNone result ↔ (length self.old < 2) }
        ensures same { IfNone result (self.new ≡ self.old) }
        ensures last { IfSome result (λ offer. self.old ≡ self.new ++ offer ∷ []) }

        // Whatever the steps are, the events under it are the last of those to come.
        ensures suffix { IfSome result (IsLastToCome X.Task X.Leaf self.old self.new) }
    {
        if self.waiting.count() < 2 {
            return None;
        }
        self.waiting.take_last()
    }

    /// Takes the second waiting task away, if there is one, so that what is to come of it comes next.
    ///
    /// Without memory the first waiting task is lost.
    pub fn give_next(&mut self) -> Result<Option<Offer<X>>, AllocError>
        ensures none { IfOk result (λ given. IsNone given ↔ (length self.old < 2)) }
        ensures same { IfOk result (λ given. IfNone given (self.new ≡ self.old)) }
        ensures second { IfOk result (λ given. IfSome given (λ offer.
            self.old ≡ take 1 self.new ++ offer ∷ drop 1 self.new)) }
    {
        if self.count() < 2 {
            return Ok(None);
        }
        let Some(current) = self.waiting.take_first() else {
            unreachable!()
        };
        let next = self.waiting.take_first();
        self.waiting.push_front(current)?;
        Ok(next)
    }

    /// Makes one step of the first waiting task, if it has a step left, and lets what the step made
    /// wait in its place.
    pub fn turn(&mut self, splitter: &X) -> Result<Turn<X::Leaf>, Starved>
        requires { AreLawful (X.lawful_task splitter.now) self.old }
        ensures waits { IfOk result (GivesWay (X.step splitter.now) self.old self.new) }
        ensures starved { IfErr result (λ starved. StarvesAt self.old self.new starved.path) }

        // What follows for what waits, and for what is to come.
        ensures lawful { AreLawful (X.lawful_task splitter.now) self.new }
        ensures leaf { IfOk result (IsLawfulTurn (X.lawful_leaf splitter.now)) }
        ensures events { IfOk result (Meets (events_to_come (X.step splitter.now) self.old)
            (events_to_come (X.step splitter.now) self.new)) }
        ensures turns { IfOk result (λ turn. turns_to_come (X.step splitter.now) self.old
            ≡ turns_made turn + turns_to_come (X.step splitter.now) self.new) }
        ensures steps { IfOk result (λ turn. steps_to_come (X.step splitter.now) self.old
            ≡ steps_made turn + steps_to_come (X.step splitter.now) self.new) }
    {
        self.make_turn(splitter)
    }

    fn make_turn(&mut self, splitter: &X) -> Result<Turn<X::Leaf>, Starved>
        requires { AreLawful (X.lawful_task splitter.now) self.old }
        ensures waits { IfOk result (GivesWay (X.step splitter.now) self.old self.new) }
        ensures starved { IfErr result (λ starved. StarvesAt self.old self.new starved.path) }
    {
        let Some(first) = self.waiting.take_first() else {
            return Ok(Turn::Done);
        };
        match make_step(self.alloc, splitter, first, &mut self.waiting) {
            Ok(turn) => Ok(turn),
            Err(starved) => {
                self.waiting = Items::new(self.alloc);
                Err(starved)
            }
        }
    }
}
