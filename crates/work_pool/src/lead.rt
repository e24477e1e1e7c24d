ghost use Rattle.std.specs.Prelude.{◌≡◌, map, IfOk, IfErr};
ghost use Rattle.std.specs.List.{AllByRecursion};
ghost use Rattle.collector.specs.Notes.{IsCollector, to_give};
ghost use Rattle.split_paths.specs.Key.{IsClosedKey};
ghost use Rattle.work_pool.specs.Noting.{AreNoted};
ghost use Rattle.work_pool.specs.Taken.{IfReady, IsCut};
ghost use Rattle.work_pool.specs.Works.{IsAtWork, Works};

use crate::homes::Home;
use crate::rest::note_waiting;
use crate::signals::Signals;
use crate::taker::{End, PoolError, Taker};
use crate::walk::hand_ready;
use collector::Collector;
use event_lanes::{Drain, Hub};
use split_paths::{Named, Splitter};
use std::alloc::Global;
use std::sync::Wait;

/// Notes what the lanes hold, and hands out what is ready then.
pub(crate) fn empty<R: Wait, X: Splitter, N: Named<X::Task, X::Leaf>, K: Taker<X::Leaf>>(
    rt: &R,
    alloc: Global,
    hub: &Hub<X, N>,
    drain: &mut Drain<X, N>,
    collector: &mut Collector<X, N>,
    each: &mut K,
) -> Result<Option<End>, PoolError<K::Fault>>
    requires hub { drain.old.hub ≡ hub.now.name }
    requires walk { IsCollector N.events collector.old }
    requires noted { AreNoted N.events collector.old (map (λ post. post.item) drain.old.taken) }
    requires may { AllByRecursion (λ pair. K.may each.old pair.1)
        (to_give N.events collector.old).chains }
    ensures drain { (drain.new.hub ≡ drain.old.hub) × (drain.new.made ≡ drain.old.made)
        × (drain.new.backs ≡ drain.old.backs) }
    ensures walk { IsCollector N.events collector.new }
    ensures noted { IfOk result (λ ready. AreNoted N.events collector.new
        (map (λ post. post.item) drain.new.taken)) }
    ensures ready { IfOk result (IfReady K.takes K.fails each.old
        (to_give N.events collector.old) each.new (to_give N.events collector.new)) }
    ensures may { IfOk result (λ ready. AllByRecursion (λ pair. K.may each.new pair.1)
        (to_give N.events collector.new).chains) }
    ensures cut { IfErr result (λ error. IsCut K.takes K.fails each.old
        (to_give N.events collector.old).chains error each.new) }
{
    match note_waiting(rt, hub, drain, collector) {
        Ok(()) => hand_ready(alloc, collector, each),
        Err(_) => Err(PoolError::Memory),
    }
}

/// Works as the first worker, and hands out what is ready, until the answer has ended or the
/// closing word is set.
pub(crate) fn lead<R: Wait, X: Splitter, N: Named<X::Task, X::Leaf>, K: Taker<X::Leaf>>(
    rt: &R,
    alloc: Global,
    splitter: &X,
    hub: &Hub<X, N>,
    signals: &Signals,
    desk: &mut Home<X, N>,
    drain: &mut Drain<X, N>,
    collector: &mut Collector<X, N>,
    each: &mut K,
) -> Result<Option<End>, PoolError<K::Fault>>
    requires key { IsClosedKey (X.step splitter.now) (X.lawful_task splitter.now)
        N.events N.offers }
    requires desk { IsAtWork N.events N.offers desk.old }
    requires lane { desk.old.lane.hub ≡ hub.now.name }
    requires hub { drain.old.hub ≡ hub.now.name }
    requires walk { IsCollector N.events collector.old }
    requires noted { AreNoted N.events collector.old (map (λ post. post.item) drain.old.taken) }
    requires may { AllByRecursion (λ pair. K.may each.old pair.1)
        (to_give N.events collector.old).chains }
    ensures desk { IfOk result (λ ready. Works N.events N.offers (X.step splitter.now)
        desk.old desk.new) }
    ensures drain { (drain.new.hub ≡ drain.old.hub) × (drain.new.made ≡ drain.old.made)
        × (drain.new.backs ≡ drain.old.backs) }
    ensures walk { IsCollector N.events collector.new }
    ensures noted { IfOk result (λ ready. AreNoted N.events collector.new
        (map (λ post. post.item) drain.new.taken)) }
    ensures ready { IfOk result (IfReady K.takes K.fails each.old
        (to_give N.events collector.old) each.new (to_give N.events collector.new)) }
    ensures may { IfOk result (λ ready. AllByRecursion (λ pair. K.may each.new pair.1)
        (to_give N.events collector.new).chains) }
    ensures cut { IfErr result (λ error. IsCut K.takes K.fails each.old
        (to_give N.events collector.old).chains error each.new) }
{
    let mut next = 0;
    for _ in rt.forever() {
        if signals.is_closing() {
            return Ok(None);
        }
        match empty(rt, alloc, hub, drain, collector, each) {
            Ok(None) => {}
            Ok(Some(end)) => return Ok(Some(end)),
            Err(error) => return Err(error),
        }
        match desk.go_on(rt, alloc, splitter, hub, &signals.stop, &mut next) {
            Ok(()) => {}
            Err(_) => return Err(PoolError::Memory),
        }
    }
    unreachable!()
}
