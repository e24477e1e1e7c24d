//! How the lanes of a hub are made: the drain's pass is told how many there may be, and then each
//! is made of it.
ghost use Rattle.std.specs.Prelude.{◌≡◌, ◌+◌, ◌<◌, ◌≤◌, [], IfOk};
ghost use Rattle.event_lanes.specs.Passes.{known, drain_pass, IsPassAt};
ghost use Rattle.event_lanes.specs.Views.{AreNewLanes};

use crate::drain::Reader;
use crate::hub::Hub;
use crate::lane::Lane;
use crate::rule::{Makes, Post, View, Widens};
use crossbeam_queue::{Pass, RuledArrayQueue};
use split_paths::{Event, Named, Splitter};
use std::alloc::{AllocError, Global};
use std::marker::PhantomData;

/// A hub for `room` events, and the pass of its drain, which may make so many lanes.
pub(crate) fn open<X: Splitter, N: Named<X::Task, X::Leaf>>(
    alloc: Global,
    lanes: u32,
    room: u32,
) -> Result<(Hub<X, N>, Pass<Post<Event<X::Leaf>>, View<Event<X::Leaf>>>), AllocError>
    requires { 1 ≤ room }
    ensures room { IfOk result (λ made. made.0.room ≡ room) }
    ensures pass { IfOk result (λ made. IsPassAt made.0.name made.1) }
    ensures known { IfOk result (λ made. known made.1 ≡ drain_pass lanes 0 [] []) }
{
    let (queue, mut pass) = RuledArrayQueue::ruled(alloc, room as usize)?;
    let hub = Hub { queue };
    for _ in 0..lanes {
        grow(&hub, &mut pass);
    }
    Ok((hub, pass))
}

fn grow<X: Splitter, N: Named<X::Task, X::Leaf>>(
    hub: &Hub<X, N>,
    pass: &mut Pass<Post<Event<X::Leaf>>, View<Event<X::Leaf>>>,
)
    requires pass { IsPassAt hub.now.name pass.old }
    requires known { known pass.old ≡ drain_pass (known pass.old).lanes 0 [] [] }
    ensures pass { IsPassAt hub.now.name pass.new }
    ensures known { known pass.new ≡ drain_pass ((known pass.old).lanes + 1) 0 [] [] }
{
    hub.queue.another::<Widens>(pass);
}

/// All lanes that may be made, and the drain.
pub(crate) fn deal<X: Splitter, N: Named<X::Task, X::Leaf>>(
    alloc: Global,
    hub: &Hub<X, N>,
    mut pass: Pass<Post<Event<X::Leaf>>, View<Event<X::Leaf>>>,
    count: u32,
) -> Result<(Vec<Lane<X, N>>, Reader<X, N>), AllocError>
    requires pass { IsPassAt hub.now.name pass }
    requires known { known pass ≡ drain_pass count 0 [] [] }
    ensures { IfOk result (λ made. AreNewLanes hub.now made.0.items made.1 count) }
{
    let mut lanes = Vec::new(alloc);
    for number in 0..count {
        lanes.push(make(hub, &mut pass, number))?;
    }
    let reader = Reader {
        pass,
        of: PhantomData,
    };
    Ok((lanes, reader))
}

fn make<X: Splitter, N: Named<X::Task, X::Leaf>>(
    hub: &Hub<X, N>,
    pass: &mut Pass<Post<Event<X::Leaf>>, View<Event<X::Leaf>>>,
    number: u32,
) -> Lane<X, N>
    requires pass { IsPassAt hub.now.name pass.old }
    requires known { known pass.old ≡ drain_pass (known pass.old).lanes number [] [] }
    requires room { number < (known pass.old).lanes }
    ensures pass { IsPassAt hub.now.name pass.new }
    ensures known { known pass.new ≡ drain_pass (known pass.old).lanes (number + 1) [] [] }
    ensures lane { result ≡ record {
      hub = hub.now.name;
      lanes = (known pass.old).lanes;
      number = number;
      put = [];
    } }
{
    Lane {
        number,
        pass: hub.queue.another::<Makes>(pass),
        of: PhantomData,
    }
}
