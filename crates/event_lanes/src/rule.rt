//! What a hub's queue holds and what each of its passes knows. No value of a view is ever made.
use crossbeam_queue::protocol::{Join, Lesson, Outcome, Protocol, Split};
use split_paths::{Event, Named, Splitter};
use std::collections::LinkedList;
use std::marker::PhantomData;

/// An item with the number of its lane.
#[derive(Drop)]
pub struct Post<A> {
    pub lane: u32,
    pub item: A,
}

/// A lane that was given back, with all that it put.
pub struct Back<A> {
    pub lane: u32,
    pub put: LinkedList<A>,
}

/// What a pass knows: that of a lane its number and what it put, that of the drain what it took.
pub struct View<A> {
    pub puts: bool,
    pub drains: bool,
    pub lanes: u32,
    pub number: u32,
    pub put: LinkedList<A>,
    pub made: u32,
    pub taken: LinkedList<Post<A>>,
    pub backs: LinkedList<Back<A>>,
}

/// The rule of a hub whose events are those of the key `N`.
pub struct Law<X: Splitter, N: Named<X::Task, X::Leaf>> {
    of: PhantomData<(X, N)>,
}

impl<X: Splitter, N: Named<X::Task, X::Leaf>> Protocol<Post<Event<X::Leaf>>, View<Event<X::Leaf>>>
    for Law<X, N> {
    ghost use Rattle.std.specs.Prelude.{[]};
    ghost use Rattle.split_paths.specs.Key.{IsTrueEvent};
    ghost use Rattle.event_lanes.specs.Passes.{drain_pass};
    ghost use Rattle.event_lanes.specs.Rule.{KeepsHub};

    ghost holds = { KeepsHub (IsTrueEvent N.events) };

    ghost first = { drain_pass 0 0 [] [] };
}

/// The drain learns of one lane more that may be made.
pub struct Widens;

impl<A> Split<View<A>> for Widens {
    ghost use Rattle.event_lanes.specs.Passes.{grown, spent_pass};

    ghost left = { grown };

    ghost right = { λ drain. spent_pass };
}

/// A lane is made.
pub struct Makes;

impl<A> Split<View<A>> for Makes {
    ghost use Rattle.event_lanes.specs.Passes.{with_made, new_lane};

    ghost left = { with_made };

    ghost right = { new_lane };
}

/// A lane is given back.
pub struct Returns;

impl<A> Join<View<A>> for Returns {
    ghost use Rattle.event_lanes.specs.Passes.{with_back, spent_pass};

    ghost both = { with_back };

    ghost spent = { spent_pass };
}

/// A lane puts an event.
pub struct Puts<X: Splitter, N: Named<X::Task, X::Leaf>> {
    of: PhantomData<(X, N)>,
}

impl<X: Splitter, N: Named<X::Task, X::Leaf>> Outcome<Post<Event<X::Leaf>>, View<Event<X::Leaf>>>
    for Puts<X, N> {
    ghost use Rattle.std.specs.Prelude.{◌≡◌};
    ghost use Rattle.event_lanes.specs.Passes.{with_put};

    ghost then = { λ lane post after. after ≡ with_put lane post.item };
}

impl<X: Splitter, N: Named<X::Task, X::Leaf>> Lesson<Post<Event<X::Leaf>>, View<Event<X::Leaf>>>
    for Puts<X, N> {
    ghost use Rattle.split_paths.specs.Key.{IsTrueEvent};
    ghost use Rattle.event_lanes.specs.Rule.{Beside};

    ghost fact = { Beside (IsTrueEvent N.events) };
}

/// The drain takes an event, or learns that none is there.
pub struct Takes<X: Splitter, N: Named<X::Task, X::Leaf>> {
    of: PhantomData<(X, N)>,
}

impl<X: Splitter, N: Named<X::Task, X::Leaf>> Outcome<Post<Event<X::Leaf>>, View<Event<X::Leaf>>>
    for Takes<X, N> {
    ghost use Rattle.std.specs.Prelude.{◌≡◌};
    ghost use Rattle.split_paths.specs.Key.{IsTrueEvent};
    ghost use Rattle.event_lanes.specs.Passes.{with_taken};
    ghost use Rattle.event_lanes.specs.Rule.{IsNext};

    ghost then = { λ drain post after. (after ≡ with_taken drain post)
        × IsNext (IsTrueEvent N.events) drain post };
}

impl<X: Splitter, N: Named<X::Task, X::Leaf>> Lesson<Post<Event<X::Leaf>>, View<Event<X::Leaf>>>
    for Takes<X, N> {
    ghost use Rattle.split_paths.specs.Key.{IsTrueEvent};
    ghost use Rattle.event_lanes.specs.Rule.{Beside};

    ghost fact = { Beside (IsTrueEvent N.events) };
}
