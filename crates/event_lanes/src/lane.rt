use crate::rule::{Post, View};
use crossbeam_queue::Pass;
use split_paths::{Event, Named, Splitter};
use std::marker::{Model, PhantomData};

/// One thread's way into a hub.
#[derive(Drop)]
pub struct Lane<X: Splitter, N: Named<X::Task, X::Leaf>> {
    pub(crate) number: u32,
    pub(crate) pass: Pass<Post<Event<X::Leaf>>, View<Event<X::Leaf>>>,
    pub(crate) of: PhantomData<N>,
}

impl<X: Splitter, N: Named<X::Task, X::Leaf>> Model for Lane<X, N> {
    ghost use Rattle.std.specs.Prelude.{◌≡◌, []};
    ghost use Rattle.event_lanes.specs.Passes.{known, lane_pass};
    ghost use Rattle.event_lanes.specs.Views.{LaneView};

    ghost Value = { LaneView X.Leaf };

    ghost view = { λ lane. record {
      hub = lane.pass.table_id;
      lanes = (known lane.pass).lanes;
      number = lane.number;
      put = (known lane.pass).put;
    } };

    ghost invariant = { λ lane. (lane.pass.me.1 ≡ [])
        × (known lane.pass ≡ lane_pass (known lane.pass).lanes lane.number (known lane.pass).put) };
}

/// A hub had no room for this event, which comes back.
#[derive(Drop)]
pub struct Full<X: Splitter> {
    pub event: Event<X::Leaf>,
}
