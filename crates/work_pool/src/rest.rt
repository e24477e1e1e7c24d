ghost use Rattle.std.specs.Prelude.{◌≡◌, length, map, OnOk};
ghost use Rattle.std.specs.List.{flat_map};
ghost use Rattle.event_lanes.specs.Posts.{AreNumbered};
ghost use Rattle.collector.specs.Notes.{IsCollector, Keeps};
ghost use Rattle.work_pool.specs.Noting.{AreNoted};

use collector::Collector;
use event_lanes::{Drain, Hub, Rest};
use split_paths::{Named, Splitter};
use std::alloc::AllocError;
use std::sync::Wait;

/// Takes what the lanes still hold, and notes it.
#[tactic(auto, using(crate::proofs::Noted::note_rules))]
pub(crate) fn note_rest<R: Wait, X: Splitter, N: Named<X::Task, X::Leaf>>(
    rt: &R,
    hub: &Hub<X, N>,
    mut rest: Rest<X, N>,
    collector: &mut Collector<X, N>,
) -> Result<(), AllocError>
    requires hub { rest.hub ≡ hub.now.name }
    requires lanes { AreNumbered 0 rest.backs }
    requires made { length rest.backs ≡ rest.made }
    requires walk { IsCollector N.events collector.old }
    requires noted { AreNoted N.events collector.old (map (λ post. post.item) rest.taken) }
    ensures walk { IsCollector N.events collector.new }
    ensures keeps { Keeps N.events collector.old collector.new }
    ensures noted { OnOk result (AreNoted N.events collector.new (flat_map
        (λ back. back.put) rest.backs)) }
{
    for _ in rt.forever() {
        let Some((_, event)) = rest.take(rt, hub) else {
            return Ok(());
        };
        collector.note(event)?;
    }
    unreachable!()
}

/// Notes what the lanes hold now, as worker 0 does between its own steps.
#[tactic(auto, using(crate::proofs::Noted::keep_rules))]
pub(crate) fn note_waiting<R: Wait, X: Splitter, N: Named<X::Task, X::Leaf>>(
    rt: &R,
    hub: &Hub<X, N>,
    drain: &mut Drain<X, N>,
    collector: &mut Collector<X, N>,
) -> Result<(), AllocError>
    requires hub { drain.old.hub ≡ hub.now.name }
    requires walk { IsCollector N.events collector.old }
    requires noted { AreNoted N.events collector.old (map (λ post. post.item) drain.old.taken) }
    ensures drain { (drain.new.hub ≡ drain.old.hub) × (drain.new.made ≡ drain.old.made) ×
        (drain.new.backs ≡ drain.old.backs) }
    ensures walk { IsCollector N.events collector.new }
    ensures keeps { Keeps N.events collector.old collector.new }
    ensures noted { OnOk result (AreNoted N.events collector.new (map
        (λ post. post.item) drain.new.taken)) }
{
    for _ in rt.forever() {
        let Some((_, event)) = hub.take(rt, drain) else {
            return Ok(());
        };
        collector.note(event)?;
    }
    unreachable!()
}
