ghost use Rattle.std.specs.Prelude.{◌≡◌, ◌+◌, ◌<◌, ◌≤◌, [], ◌∷◌, length, IfSome, IfNone, IfOk, IfErr, OnOk};
ghost use Rattle.std.specs.List.{AllByRecursion};
ghost use Rattle.split_paths.specs.Key.{IsTrueEvent, IsTreeKey};
ghost use Rattle.event_lanes.specs.Posts.{ArePrefixes, AllTaken};
ghost use Rattle.event_lanes.specs.Views.{AreNewLanes, with_event, with_event_of, with_backs, pass_of_lane, pass_of_drain, HeldBeside};

use crate::drain::{Drain, Rest};
use crate::lane::{Full, Lane};
use crate::making::{deal, open};
use crate::rule::{Law, Post, Puts, View};
use crossbeam_queue::RuledArrayQueue;
use split_paths::{Event, Named, Splitter};
use std::alloc::{AllocError, Global};
use std::marker::Model;
use std::sync::Wait;

/// A bounded queue that all lanes put events into and one drain takes them out of. Threads share
/// it.
#[derive(Drop)]
pub struct Hub<X: Splitter, N: Named<X::Task, X::Leaf>> {
    pub(crate) queue: RuledArrayQueue<Post<Event<X::Leaf>>, View<Event<X::Leaf>>, Law<X, N>>,
}

impl<X: Splitter, N: Named<X::Task, X::Leaf>> Model for Hub<X, N> {
    ghost use Rattle.crossbeam_queue.specs.Passes.{ruled_capacity};
    ghost use Rattle.event_lanes.specs.Views.{HubView};

    ghost Value = { HubView };

    ghost view = { λ hub. record {
      name = hub.queue.table.shared.table_id;
      room = ruled_capacity hub.queue;
    } };
}

impl<X: Splitter, N: Named<X::Task, X::Leaf>> Hub<X, N> {
    /// A hub for at most `room` events at a time, with its lanes in the order of their numbers, and
    /// its drain.
    pub fn new(
        alloc: Global,
        lanes: u32,
        room: u32,
    ) -> Result<(Hub<X, N>, Vec<Lane<X, N>>, Drain<X, N>), AllocError>
        requires key { IsTreeKey N.events N.offers }
        requires lanes { (1 ≤ lanes) × (lanes ≤ 16) }
        requires room { (1 ≤ room) × (room ≤ 65536) }
        ensures lanes { IfOk result (λ made. AreNewLanes made.0 made.1.items made.2 lanes) }
        ensures room { IfOk result (λ made. made.0.room ≡ room) }
    {
        let (hub, pass) = open(alloc, lanes, room)?;
        let (lanes, reader) = deal(alloc, &hub, pass, lanes)?;
        Ok((hub, lanes, Drain { reader }))
    }

    /// Puts an event at the back of the queue.
    ///
    /// After 2^62 puts the call may wait for ever.
    pub fn put<R: Wait>(
        &self,
        rt: &R,
        lane: &mut Lane<X, N>,
        event: Event<X::Leaf>,
    ) -> Result<(), Full<X>>
        requires lane { lane.old.hub ≡ self.now.name }
        requires event { IsTrueEvent N.events event }
        ensures ok { OnOk result (lane.new ≡ with_event lane.old event) }
        ensures full { IfErr result (λ full. (full.event ≡ event) × (lane.new ≡ lane.old)) }

        // It is refused only where the queue was full, which an only lane did alone.
        ensures room { IfErr result
            (λ full. HeldBeside N.events (pass_of_lane lane.old) self.now.room) }
        ensures alone { IfErr result
            (λ full. lane.old.lanes ≡ 1 → self.now.room ≤ length lane.old.put) }
    {
        let post = Post {
            lane: lane.number,
            item: event,
        };
        let Err(post) = self
            .queue
            .push_as::<Puts<X, N>, R>(rt, &mut lane.pass, post)
        else {
            return Ok(());
        };
        let Post { lane: _, item } = post;
        Err(Full { event: item })
    }

    /// The event at the front of the queue, with the number of its lane.
    pub fn take<R: Wait>(&self, rt: &R, drain: &mut Drain<X, N>) -> Option<(u32, Event<X::Leaf>)>
        requires { drain.old.hub ≡ self.now.name }
        ensures some { IfSome result (λ post. drain.new ≡ with_event_of drain.old post.0 post.1) }
        ensures event { IfSome result (λ post. IsTrueEvent N.events post.1) }
        ensures made { IfSome result (λ post. post.0 < drain.old.made) }
        ensures prefixes { IfSome result (λ post. ArePrefixes drain.new.taken drain.new.backs) }
        ensures none { IfNone result (drain.new ≡ drain.old) }

        // There is none only where the queue was empty: all of the lanes given back was taken.
        ensures empty { IfNone result (HeldBeside N.events (pass_of_drain drain.old) 0) }
        ensures all { IfNone result (AllTaken drain.old.made drain.old.taken drain.old.backs) }
    {
        drain.reader.take(rt, self)
    }

    /// Gives a lane back, so that the drain knows all that it put.
    pub fn back(&self, lane: Lane<X, N>, drain: &mut Drain<X, N>)
        requires lane { lane.hub ≡ self.now.name }
        requires drain { drain.old.hub ≡ self.now.name }
        ensures back { drain.new ≡ with_backs drain.old (lane ∷ []) }
        ensures prefixes { ArePrefixes drain.new.taken drain.new.backs }
    {
        drain.reader.absorb(lane, self);
        drain.reader.learn(self);
    }

    /// Gives all lanes back that weren't yet, in this order.
    pub fn finish(&self, lanes: Vec<Lane<X, N>>, drain: Drain<X, N>) -> Rest<X, N>
        requires drain { drain.hub ≡ self.now.name }
        requires lanes { AllByRecursion (λ lane. lane.hub ≡ self.now.name) lanes.items }
        requires all { length drain.backs + length lanes.items ≡ drain.made }
        ensures back { result ≡ with_backs drain lanes.items }
        ensures prefixes { ArePrefixes result.taken result.backs }
    {
        let Drain { mut reader } = drain;
        for lane in lanes {
            reader.absorb(lane, self);
        }
        reader.learn(self);
        Rest { reader }
    }
}
