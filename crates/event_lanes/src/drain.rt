ghost use Rattle.std.specs.Prelude.{◌≡◌, ◌<◌, [], ◌∷◌, IfSome, IfNone};
ghost use Rattle.split_paths.specs.Key.{IsTrueEvent};
ghost use Rattle.event_lanes.specs.Posts.{ArePrefixes, AllTaken};
ghost use Rattle.event_lanes.specs.Views.{with_event_of, with_backs, pass_of_drain, HeldBeside};

use crate::hub::Hub;
use crate::lane::Lane;
use crate::rule::{Post, Returns, Takes, View};
use crossbeam_queue::Pass;
use split_paths::{Event, Named, Splitter};
use std::marker::{Model, PhantomData};
use std::sync::Wait;

/// What takes events out of a hub.
#[derive(Drop)]
pub(crate) struct Reader<X: Splitter, N: Named<X::Task, X::Leaf>> {
    pub(crate) pass: Pass<Post<Event<X::Leaf>>, View<Event<X::Leaf>>>,
    pub(crate) of: PhantomData<N>,
}

impl<X: Splitter, N: Named<X::Task, X::Leaf>> Model for Reader<X, N> {
    ghost use Rattle.std.specs.Prelude.{◌≡◌, []};
    ghost use Rattle.event_lanes.specs.Passes.{known, drain_pass};
    ghost use Rattle.event_lanes.specs.Views.{DrainView};

    ghost Value = { DrainView X.Leaf };

    ghost view = { λ reader. record {
      hub = reader.pass.table_id;
      made = (known reader.pass).made;
      taken = (known reader.pass).taken;
      backs = (known reader.pass).backs;
    } };

    ghost invariant = { λ reader. (reader.pass.me.1 ≡ [])
        × (known reader.pass
        ≡ drain_pass (known reader.pass).made (known reader.pass).made (known reader.pass).taken
        (known reader.pass).backs) };
}

impl<X: Splitter, N: Named<X::Task, X::Leaf>> Reader<X, N> {
    pub(crate) fn take<R: Wait>(&mut self, rt: &R, hub: &Hub<X, N>) -> Option<(u32, Event<X::Leaf>)>
        requires { self.old.hub ≡ hub.now.name }
        ensures some { IfSome result (λ post. self.new ≡ with_event_of self.old post.0 post.1) }
        ensures event { IfSome result (λ post. IsTrueEvent N.events post.1) }
        ensures made { IfSome result (λ post. post.0 < self.old.made) }
        ensures prefixes { IfSome result (λ post. ArePrefixes self.new.taken self.new.backs) }
        ensures none { IfNone result (self.new ≡ self.old) }
        ensures empty { IfNone result (HeldBeside N.events (pass_of_drain self.old) 0) }
        ensures all { IfNone result (AllTaken self.old.made self.old.taken self.old.backs) }
    {
        let Some(Post { lane, item }) = hub.queue.pop_as::<Takes<X, N>, R>(rt, &mut self.pass)
        else {
            return None;
        };
        Some((lane, item))
    }

    /// Takes in what a lane put.
    pub(crate) fn absorb(&mut self, lane: Lane<X, N>, hub: &Hub<X, N>)
        requires lane { lane.hub ≡ hub.now.name }
        requires reader { self.old.hub ≡ hub.now.name }
        ensures { self.new ≡ with_backs self.old (lane ∷ []) }
    {
        let Lane {
            number: _,
            pass,
            of: _,
        } = lane;
        hub.queue.absorb::<Returns>(&mut self.pass, pass);
    }

    /// Tells what the rule says of the lanes that were given back.
    pub(crate) fn learn(&mut self, hub: &Hub<X, N>)
        requires { self.old.hub ≡ hub.now.name }
        ensures same { self.new ≡ self.old }
        ensures prefixes { ArePrefixes self.new.taken self.new.backs }
    {
        hub.queue.learn_as::<Takes<X, N>>(&mut self.pass);
    }
}

/// The end of a hub at which events come out.
#[derive(Drop)]
pub struct Drain<X: Splitter, N: Named<X::Task, X::Leaf>> {
    pub(crate) reader: Reader<X, N>,
}

impl<X: Splitter, N: Named<X::Task, X::Leaf>> Model for Drain<X, N> {
    ghost use Rattle.event_lanes.specs.Views.{DrainView};

    ghost Value = { DrainView X.Leaf };

    ghost view = { λ drain. drain.reader };
}

/// The drain of a hub whose lanes were all given back.
#[derive(Drop)]
pub struct Rest<X: Splitter, N: Named<X::Task, X::Leaf>> {
    pub(crate) reader: Reader<X, N>,
}

impl<X: Splitter, N: Named<X::Task, X::Leaf>> Model for Rest<X, N> {
    ghost use Rattle.event_lanes.specs.Views.{DrainView};

    ghost Value = { DrainView X.Leaf };

    ghost view = { λ rest. rest.reader };
}

impl<X: Splitter, N: Named<X::Task, X::Leaf>> Rest<X, N> {
    /// The next event that was put and not yet taken, with the number of its lane.
    pub fn take<R: Wait>(&mut self, rt: &R, hub: &Hub<X, N>) -> Option<(u32, Event<X::Leaf>)>
        requires { self.old.hub ≡ hub.now.name }
        ensures some { IfSome result (λ post. self.new ≡ with_event_of self.old post.0 post.1) }
        ensures event { IfSome result (λ post. IsTrueEvent N.events post.1) }
        ensures made { IfSome result (λ post. post.0 < self.old.made) }
        ensures prefixes { IfSome result (λ post. ArePrefixes self.new.taken self.new.backs) }
        ensures none { IfNone result (self.new ≡ self.old) }
        ensures all { IfNone result (AllTaken self.old.made self.old.taken self.old.backs) }
    {
        self.reader.take(rt, hub)
    }
}
