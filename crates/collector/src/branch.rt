ghost use Rattle.std.specs.Prelude.{◌≡◌, ℕ, ◌+◌, ◌<◌, ◌≤◌, List, [], ◌∷◌, ◌++◌, length, min, OnOk, IsTrue, vec_len, vec_capacity};
ghost use Rattle.std.specs.Bool.{MatchBool};
ghost use Rattle.std.specs.List.{AllByRecursion};
ghost use Rattle.split_paths.specs.Walk.{numbered_paths};
ghost use Rattle.collector.specs.Branches.{later_below};

use std::alloc::{AllocError, Global};
use std::marker::Model;

/// A path of a tree: at each split on the way from the root the number of the child, and how many
/// children there are.
#[derive(Debug, Drop)]
pub(crate) struct Branch {
    numbers: Vec<u32>,
    counts: Vec<u32>,
}

impl Model for Branch {
    ghost use Rattle.std.specs.Prelude.{◌≡◌, ◌≤◌, [], length, min, vec_capacity};
    ghost use Rattle.std.specs.List.{AllByRecursion};
    ghost use Rattle.collector.specs.Branches.{Agenda, later_below};

    ghost Value = { Agenda };

    ghost view = { λ b. record {
      path = b.numbers.items;
      later = later_below [] b.numbers.items b.counts.items;
      room = min (vec_capacity b.numbers) (vec_capacity b.counts);
    } };

    ghost invariant = { λ b. AllByRecursion (λ i. 1 ≤ i) b.numbers.items
        × (length b.numbers.items ≡ length b.counts.items) };
}

impl Branch {
    pub(crate) fn root(alloc: Global) -> Branch
        ensures path { result.path ≡ [] }
        ensures later { result.later ≡ [] }
    {
        Branch {
            numbers: Vec::new(alloc),
            counts: Vec::new(alloc),
        }
    }

    pub(crate) fn numbers(&self) -> &[u32]
        ensures path { result.now ≡ self.now.path }
        ensures numbers { AllByRecursion (λ i. 1 ≤ i) self.now.path }
    {
        &self.numbers
    }

    /// Makes room for paths with so many numbers.
    pub(crate) fn make_room(&mut self, depth: usize) -> Result<(), AllocError>
        ensures path { self.new.path ≡ self.old.path }
        ensures later { self.new.later ≡ self.old.later }
        ensures grows { self.old.room ≤ self.new.room }
        ensures ok { OnOk result (depth ≤ self.new.room) }
    {
        self.numbers
            .reserve(depth.saturating_sub(self.numbers.len()))?;
        self.counts
            .reserve(depth.saturating_sub(self.counts.len()))?;
        Ok(())
    }

    /// Goes down to the first of so many children.
    pub(crate) fn descend(&mut self, count: u32)
        requires some { 0 < count }
        requires room { length self.old.path < self.old.room }
        ensures path { self.new.path ≡ self.old.path ++ 1 ∷ [] }
        ensures later { self.new.path ∷ self.new.later
            ≡ numbered_paths self.old.path 1 count ++ self.old.later }
        ensures room { self.new.room ≡ self.old.room }
    {
        self.numbers.push_reserved(1);
        self.counts.push_reserved(count);
    }

    /// Goes on to the next path that isn't below this one, or else back to the root's.
    pub(crate) fn go_on(&mut self) -> bool
        ensures later { MatchBool result
            (self.old.later ≡ self.new.path ∷ self.new.later)
            ((self.old.later ≡ []) × (self.new.later ≡ []) × (self.new.path ≡ [])) }
        ensures room { self.new.room ≡ self.old.room }
    {
        climb(&mut self.numbers, &mut self.counts)
    }
}

/// Takes numbers away until one is followed by another, and puts that in its place.
fn climb(numbers: &mut Vec<u32>, counts: &mut Vec<u32>) -> bool
    requires same { length numbers.old.items ≡ length counts.old.items }
    requires numbers { AllByRecursion (λ i. 1 ≤ i) numbers.old.items }
    ensures later { MatchBool result
        (later_below [] numbers.old.items counts.old.items
        ≡ numbers.new.items ∷ later_below [] numbers.new.items counts.new.items)
        ((later_below [] numbers.old.items counts.old.items ≡ [])
        × (numbers.new.items ≡ []) × (counts.new.items ≡ [])) }
    ensures same { length numbers.new.items ≡ length counts.new.items }
    ensures numbers { AllByRecursion (λ i. 1 ≤ i) numbers.new.items }
    ensures room { (vec_capacity numbers.new ≡ vec_capacity numbers.old)
        × (vec_capacity counts.new ≡ vec_capacity counts.old) }
{
    while let Some(number) = numbers.pop() {
        let Some(count) = counts.pop() else {
            unreachable!()
        };
        if number < count {
            numbers.push_reserved(number + 1);
            counts.push_reserved(count);
            return true;
        }
    }
    false
}
