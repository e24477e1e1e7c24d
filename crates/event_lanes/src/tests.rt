ghost use Rattle.std.specs.Prelude.{◌≡◌, ◌≤◌, ◌+◌, ◌∷◌, [], length, IfOk};
ghost use Rattle.std.specs.List.{AllByRecursion};
ghost use Rattle.split_paths.specs.Key.{IsTrueEvent, IsTreeKey};
ghost use Rattle.event_lanes.specs.Twins.{twin};

use crate::{Drain, Full, Hub, Lane, Rest};
use split_paths::{Event, Named, Outcome, Path, Splitter, Step};
use std::alloc::{AllocError, Global};
use std::marker::Brand;
use std::process::Abort;
use std::sync::Wait;
use std::test::Fail;

/// A splitter that gives each task back as a leaf.
#[derive(Drop)]
struct Emitter;

impl Splitter for Emitter {
    type Task = u32;

    type Leaf = u32;

    ghost use Rattle.split_paths.specs.declared.splitter.Step.TheVariants.{Emit};

    ghost step = { λ splitter task. Emit task };

    ghost lawful_task = { λ splitter task. Unit {0} };

    ghost lawful_leaf = { λ splitter leaf. Unit {0} };

    ghost keeps_lawful = { λ splitter task lawful. tt };

    fn expand(&self, _alloc: Global, task: u32) -> Result<Step<u32, u32>, AllocError> {
        Ok(Step::Emit(task))
    }
}

fn is_sent<T: Send>(_: &T) {}

fn is_shared<T: Sync>(_: &T) {}

/// A hub is shared by threads, and its ends are moved between them, where tasks and leaves can be.
fn crosses<X: Splitter, N: Named<X::Task, X::Leaf>>(
    hub: &Hub<X, N>,
    lane: &Lane<X, N>,
    drain: &Drain<X, N>,
    rest: &Rest<X, N>,
)
where
    X: Send + Sync,
    N: Send + Sync,
    X::Task: Send,
    X::Leaf: Send,
{
    is_sent(hub);
    is_shared(hub);
    is_sent(lane);
    is_sent(drain);
    is_sent(rest);
}

/// The event of a child that is solved.
fn solved(alloc: Global, n: u32) -> Result<Event<u32>, AllocError>
    requires { 1 ≤ n }
    ensures { IfOk result (λ event. event ≡ twin n) }
{
    let path = Path::root(alloc).child(n)?;
    Ok(Event::Leaf {
        path,
        outcome: Outcome::Chain(n),
    })
}

fn is_of_child(event: &Event<u32>, n: u32) -> bool {
    match event {
        Event::Leaf {
            path,
            outcome: Outcome::Chain(leaf),
        } => path.items() == [n].as_slice() && *leaf == n,
        _ => false,
    }
}

/// There is room for the event.
fn puts<N: Named<u32, u32>, R: Wait + Abort>(
    rt: &R,
    hub: &Hub<Emitter, N>,
    lane: &mut Lane<Emitter, N>,
    event: Event<u32>,
)
    requires lane { lane.old.hub ≡ hub.now.name }
    requires event { IsTrueEvent N.events event }
    ensures { lane.new.hub ≡ lane.old.hub }
{
    if let Err(full) = hub.put(rt, lane, event) {
        let Full { event: _ } = full;
        panic!(rt; "there is room for an event");
    }
}

/// There is no room for the event, which comes back.
fn is_refused<N: Named<u32, u32>, R: Wait + Abort>(
    rt: &R,
    hub: &Hub<Emitter, N>,
    lane: &mut Lane<Emitter, N>,
    event: Event<u32>,
) -> Event<u32>
    requires lane { lane.old.hub ≡ hub.now.name }
    requires event { IsTrueEvent N.events event }
    ensures lane { lane.new.hub ≡ lane.old.hub }
    ensures event { result ≡ event }
{
    let Err(full) = hub.put(rt, lane, event) else {
        panic!(rt; "there is no room for an event");
    };
    let Full { event } = full;
    event
}

/// The next event is that of a child, put by a lane.
fn takes<N: Named<u32, u32>, R: Wait + Abort>(
    rt: &R,
    hub: &Hub<Emitter, N>,
    drain: &mut Drain<Emitter, N>,
    lane: u32,
    n: u32,
)
    requires { drain.old.hub ≡ hub.now.name }
    ensures hub { drain.new.hub ≡ drain.old.hub }
    ensures made { drain.new.made ≡ drain.old.made }
    ensures backs { drain.new.backs ≡ drain.old.backs }
{
    let Some((number, event)) = hub.take(rt, drain) else {
        panic!(rt; "there is an event");
    };
    assert_eq!(rt; number, lane);
    assert!(rt; is_of_child(&event, n));
}

/// There is no event.
fn takes_none<N: Named<u32, u32>, R: Wait + Abort>(
    rt: &R,
    hub: &Hub<Emitter, N>,
    drain: &mut Drain<Emitter, N>,
)
    requires { drain.old.hub ≡ hub.now.name }
    ensures { drain.new ≡ drain.old }
{
    if let Some(_) = hub.take(rt, drain) {
        panic!(rt; "there is no event");
    }
}

/// Two lanes share room for one event.
fn take_turns<N: Named<u32, u32>, R: Wait + Abort>(
    rt: &R,
    hub: &Hub<Emitter, N>,
    first: &mut Lane<Emitter, N>,
    second: &mut Lane<Emitter, N>,
    drain: &mut Drain<Emitter, N>,
    events: (Event<u32>, Event<u32>),
)
    requires first { first.old.hub ≡ hub.now.name }
    requires second { second.old.hub ≡ hub.now.name }
    requires drain { drain.old.hub ≡ hub.now.name }
    requires events { IsTrueEvent N.events events.0 × IsTrueEvent N.events events.1 }
    ensures first { first.new.hub ≡ first.old.hub }
    ensures second { second.new.hub ≡ second.old.hub }
    ensures drain { drain.new.hub ≡ drain.old.hub }
    ensures made { drain.new.made ≡ drain.old.made }
    ensures backs { drain.new.backs ≡ drain.old.backs }
{
    let (one, two) = events;
    puts(rt, hub, first, one);
    let two = is_refused(rt, hub, second, two);
    takes(rt, hub, drain, 0, 1);
    takes_none(rt, hub, drain);
    puts(rt, hub, second, two);
}

/// The rest gives the next event, that of a child, put by a lane.
fn rest_takes<N: Named<u32, u32>, R: Wait + Abort>(
    rt: &R,
    hub: &Hub<Emitter, N>,
    rest: &mut Rest<Emitter, N>,
    lane: u32,
    n: u32,
)
    requires { rest.old.hub ≡ hub.now.name }
    ensures { rest.new.hub ≡ rest.old.hub }
{
    let Some((number, event)) = rest.take(rt, hub) else {
        panic!(rt; "an event is left");
    };
    assert_eq!(rt; number, lane);
    assert!(rt; is_of_child(&event, n));
}

/// The lanes are given back, and the event of the second is left.
fn ends<N: Named<u32, u32>, R: Wait + Abort>(
    rt: &R,
    hub: &Hub<Emitter, N>,
    first: Vec<Lane<Emitter, N>>,
    second: Lane<Emitter, N>,
    drain: Drain<Emitter, N>,
)
    requires first { AllByRecursion (λ lane. lane.hub ≡ hub.now.name) first.items }
    requires second { second.hub ≡ hub.now.name }
    requires drain { drain.hub ≡ hub.now.name }
    requires all { length first.items + 1 ≡ drain.made }
    requires backs { drain.backs ≡ [] }
{
    let mut drain = drain;
    hub.back(second, &mut drain);
    let mut rest = hub.finish(first, drain);
    rest_takes(rt, hub, &mut rest, 1, 2);
    assert!(rt; rest.take(rt, hub).is_none());
}

fn both<N: Named<u32, u32>, R: Abort>(
    rt: &R,
    lanes: Vec<Lane<Emitter, N>>,
) -> (Lane<Emitter, N>, Lane<Emitter, N>)
    requires { length lanes.items ≡ 2 }
    ensures { lanes.items ≡ result.0 ∷ result.1 ∷ [] }
{
    let mut lanes = lanes;
    let second = lanes.pop().expect(rt, "a second lane");
    let first = lanes.pop().expect(rt, "a first lane");
    (first, second)
}

fn share<N: Named<u32, u32>, R: Wait + Abort>(
    rt: &R,
    alloc: Global,
    events: (Event<u32>, Event<u32>),
) -> Result<(), AllocError>
    requires key { IsTreeKey N.events N.offers }
    requires events { IsTrueEvent N.events events.0 × IsTrueEvent N.events events.1 }
{
    let (hub, lanes, mut drain) = Hub::<Emitter, N>::new(alloc, 2, 1)?;
    let (mut first, mut second) = both(rt, lanes);
    take_turns(rt, &hub, &mut first, &mut second, &mut drain, events);
    let first = vec![in alloc; first]?;
    ends(rt, &hub, first, second, drain);
    Ok(())
}

#[test]
fn two_lanes_share_room_for_one_event(rt: HostRuntime) -> Result<(), Fail> {
    let one = solved(rt.alloc(), 1)?;
    let two = solved(rt.alloc(), 2)?;
    share::<Brand, HostRuntime>(&rt, rt.alloc(), (one, two))?;
    Ok(())
}
