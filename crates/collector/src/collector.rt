ghost use Rattle.std.specs.Prelude.{◌≡◌, ℕ, ◌≤◌, ◌⊎◌, Option, ◌↔◌, IsTrue, IsSomeAnd, MatchOption, is_some, not, ◌||◌, true, OnOk, OnErr, option_copied, None};
ghost use Rattle.std.specs.List.{AllByRecursion};
ghost use Rattle.split_paths.specs.Answer.{answer_of};
ghost use Rattle.split_paths.specs.Key.{IsTrueEvent, IsTreeKey};
ghost use Rattle.split_paths.specs.Paths.{IsBefore};
ghost use Rattle.split_paths.specs.Walk.{path_of, HasEventAt};
ghost use Rattle.collector.specs.declared.met.Position.TheVariants as position;
ghost use Rattle.collector.specs.Advances.{Advances, IfWaits, UnlessWaits, IsFrom};
ghost use Rattle.collector.specs.Moves.{stop_of, IsSettled, HasNoted, StaysSame, GoesOn, HasAdvanced};
ghost use Rattle.collector.specs.Notes.{is_ahead, waits_at, IsCollector, IsNoted, Keeps, to_give};

use crate::advance::Advance;
use crate::branch::Branch;
use crate::met::{Met, Position, parts_of, path_at};
use split_paths::{Event, Named, Path, Splitter};
use std::alloc::{AllocError, Global};
use std::collections::BTreeMap;
use std::marker::{Model, PhantomData};

/// The walk of one tree in path order, as far as its events were noted.
///
/// What was noted waits until the walk comes to it, and is kept no longer.
#[derive(Drop)]
pub struct Collector<X: Splitter, N: Named<X::Task, X::Leaf>> {
    waiting: BTreeMap<Path, Met<X::Leaf>>,
    branch: Branch,
    position: Position,
    of: PhantomData<N>,
}

impl<X: Splitter, N: Named<X::Task, X::Leaf>> Model for Collector<X, N> {
    ghost use Rattle.collector.specs.Notes.{Notes, HasRoom};

    ghost Value = { Notes X.Leaf };

    ghost view = { λ collector. record {
      waiting = collector.waiting.entries;
      cursor = collector.branch.path;
      later = collector.branch.later;
      position = collector.position;
    } };

    ghost invariant = { λ collector. HasRoom collector.waiting.entries collector.branch.room };
}

impl<X: Splitter, N: Named<X::Task, X::Leaf>> Collector<X, N> {
    /// A walk that stands at the root, with nothing noted.
    pub fn new(alloc: Global) -> Collector<X, N>
        requires { IsTreeKey N.events N.offers }
        ensures walk { IsCollector N.events result }
        ensures whole { to_give N.events result ≡ answer_of N.events }
        ensures none { (path : _) → IsNoted N.events result path → ⊥ }
    {
        Collector {
            waiting: BTreeMap::new(alloc),
            branch: Branch::root(alloc),
            position: Position::Here,
            of: PhantomData,
        }
    }

    /// The path at which the walk stands.
    pub fn cursor(&self) -> &[u32]
        ensures path { result.now ≡ self.now.cursor }
        ensures numbers { AllByRecursion (λ i. 1 ≤ i) self.now.cursor }
    {
        self.branch.numbers()
    }

    /// Notes what was met at a path, once or more, before or after any other.
    ///
    /// It also takes the memory that `advance` needs.
    pub fn note(&mut self, e: Event<X::Leaf>) -> Result<(), AllocError>
        requires walk { IsCollector N.events self.old }
        requires event { IsTrueEvent N.events e }
        ensures walk { IsCollector N.events self.new }
        ensures noted { OnOk result (IsNoted N.events self.new (path_of e)) }
        ensures keeps { Keeps N.events self.old self.new }

        // Nothing else is noted, and a second event of a path changes nothing.
        ensures only { (path : _) → IsNoted N.events self.new path
            → IsNoted N.events self.old path ⊎ (path ≡ path_of e) }
        ensures again { IsNoted N.events self.old (path_of e) → self.new ≡ self.old }
        ensures err { OnErr result (self.new ≡ self.old) }
    {
        if self.has_noted(path_at(&e)) {
            return Ok(());
        }
        self.put(e)?;
        Ok(())
    }

    /// Goes on to the next leaf of the answer, as far as the events before it were noted.
    ///
    /// `Finished` and `Stopped` stay.
    pub fn advance(&mut self) -> Advance<X::Leaf>
        requires walk { IsCollector N.events self.old }
        ensures walk { IsCollector N.events self.new }
        ensures notes { (path : _) → IsNoted N.events self.old path
            → IsNoted N.events self.new path }
        ensures only { (path : _) → IsNoted N.events self.new path
            → IsNoted N.events self.old path }
        ensures items { Advances (to_give N.events self.old) (to_give N.events self.new)
            self.new.cursor result }

        // It waits exactly where the event at the cursor is missing, which then is the first that is,
        // and nothing of the answer before it is held back.
        ensures waiting { IfWaits (HasEventAt N.events self.new.cursor
            × (IsNoted N.events self.new self.new.cursor → ⊥)) result }
        ensures known { UnlessWaits (IsNoted N.events self.new self.new.cursor) result }
        ensures first { IfWaits ((event : _) → IsTrueEvent N.events event
            → IsBefore (path_of event) self.new.cursor
            → IsNoted N.events self.new (path_of event)) result }
        ensures ready { IfWaits (IsFrom self.new.cursor (to_give N.events self.new)) result }
    {
        loop {
            if let Some(answer) = self.visit() {
                return answer;
            }
        }
    }

    /// Whether the walk is still to pass this path.
    fn is_ahead(&self, path: &[u32]) -> bool
        ensures { result ≡ is_ahead self.now.position self.now.cursor path.now }
    {
        let order = self.branch.numbers().cmp(path);
        match self.position {
            Position::Here => order.is_le(),
            Position::Passed => order.is_lt(),
            Position::Ended => false,
        }
    }

    /// Whether the event at this path of the tree was noted.
    fn has_noted(&self, path: &Path) -> bool
        ensures { result ≡ (not (is_ahead self.now.position self.now.cursor path.now)
            || is_some (waits_at self.now.waiting path.now)) }
    {
        !self.is_ahead(path.items()) || self.waiting.contains_key(path)
    }

    /// Lets an event wait that is ahead.
    fn put(&mut self, e: Event<X::Leaf>) -> Result<(), AllocError>
        requires walk { IsCollector N.events self.old }
        requires event { IsTrueEvent N.events e }
        requires ahead { is_ahead self.old.position self.old.cursor (path_of e) ≡ true }
        ensures ok { OnOk result (HasNoted N.events self.old self.new e) }
        ensures err { OnErr result (self.new ≡ self.old) }
    {
        let (path, met) = parts_of(e);
        self.branch.make_room(path.items().len() + 1)?;
        self.waiting.insert(path, met)?;
        Ok(())
    }

    /// Passes the next event, if it was noted.
    fn visit(&mut self) -> Option<Advance<X::Leaf>>
        requires { IsCollector N.events self.old }
        ensures { MatchOption result (GoesOn N.events self.old self.new)
            (HasAdvanced N.events self.old self.new) }
    {
        self.settle();
        if let Position::Ended = self.position {
            return Some(Advance::Finished);
        }
        let Some(met) = self.met_here() else {
            return Some(Advance::Waiting);
        };
        if let Some(why) = met.stop() {
            return Some(Advance::Stopped(why));
        }
        self.pass()
    }

    /// Stands before the next event that is to be met.
    fn settle(&mut self)
        requires { IsCollector N.events self.old }
        ensures stays { StaysSame N.events self.old self.new }
        ensures settled { IsSettled self.new.position }
    {
        let Position::Passed = self.position else {
            return;
        };
        if !self.branch.go_on() {
            self.position = Position::Ended;
            return;
        }
        self.position = Position::Here;
    }

    /// What waits at the cursor.
    fn met_here(&self) -> Option<&Met<X::Leaf>>
        requires walk { IsCollector N.events self.now }
        requires here { self.now.position ≡ position.Here }
        ensures { option_copied result ≡ waits_at self.now.waiting self.now.cursor }
    {
        let (path, met) = self.waiting.first_key_value()?;
        if is_at(path, self.branch.numbers()) {
            Some(met)
        } else {
            None
        }
    }

    /// Passes the event at the cursor, which doesn't stop the answer.
    fn pass(&mut self) -> Option<Advance<X::Leaf>>
        requires walk { IsCollector N.events self.old }
        requires here { self.old.position ≡ position.Here }
        requires met { IsSomeAnd (waits_at self.old.waiting self.old.cursor)
            (λ met. stop_of met ≡ None) }
        ensures { MatchOption result (GoesOn N.events self.old self.new)
            (HasAdvanced N.events self.old self.new) }
    {
        let Some((path, met)) = self.waiting.pop_first() else {
            unreachable!()
        };
        match met {
            Met::Split(count) => {
                self.branch.descend(count);
                None
            }
            Met::Gone => {
                self.position = Position::Passed;
                None
            }
            Met::Chain(leaf) => {
                self.position = Position::Passed;
                Some(Advance::Item(path, leaf))
            }
            Met::Stop(_) => unreachable!(),
        }
    }
}

/// Whether a path has these numbers.
fn is_at(path: &Path, cursor: &[u32]) -> bool
    ensures { IsTrue result ↔ (path.now ≡ cursor.now) }
{
    path.items() == cursor
}
