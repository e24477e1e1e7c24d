ghost use Rattle.std.specs.Prelude.{◌≡◌, [], length, map, OnOk, IfOk, IfErr};
ghost use Rattle.split_paths.specs.Key.{IsClosedKey};
ghost use Rattle.work_pool.specs.Homes.{AreHome};
ghost use Rattle.std.specs.List.{AllByRecursion};
ghost use Rattle.collector.specs.Notes.{IsCollector, Keeps, to_give};
ghost use Rattle.work_pool.specs.Noting.{AreNoted};
ghost use Rattle.work_pool.specs.Taken.{Took, IsCut, IsEnd};

use crate::close::close_all;
use crate::homes::Homes;
use crate::rest::note_rest;
use crate::run::{note_all, run_generators, run_offers};
use crate::taker::{End, PoolError, Taker};
use crate::walk::hand_out;
use collector::Collector;
use event_lanes::{Drain, Hub};
use split_paths::{Named, Splitter};
use std::alloc::{AllocError, Global};
use std::sync::Wait;

/// Notes all that the workers put, kept at home or left in their decks.
#[tactic(auto, using(crate::proofs::Noted::keep_rules))]
pub(crate) fn end_run<R: Wait, X: Splitter, N: Named<X::Task, X::Leaf>>(
    rt: &R,
    alloc: Global,
    splitter: &X,
    hub: &Hub<X, N>,
    drain: Drain<X, N>,
    homes: Homes<X, N>,
    collector: &mut Collector<X, N>,
) -> Result<(), AllocError>
    requires key { IsClosedKey (X.step splitter.now)
        (X.lawful_task splitter.now) N.events N.offers }
    requires homes { AreHome (X.step splitter.now) N.events N.offers hub.now.name (map
        (λ owner. owner.deck) homes.owners) N.events homes }
    requires drain { (drain.hub ≡ hub.now.name) × (drain.made ≡ length homes.lanes) ×
        (drain.backs ≡ []) }
    requires walk { IsCollector N.events collector.old }
    requires noted { AreNoted N.events collector.old (map (λ post. post.item) drain.taken) }
    ensures walk { IsCollector N.events collector.new }
    ensures keeps { Keeps N.events collector.old collector.new }
    ensures noted { OnOk result (AreNoted N.events collector.new N.events) }
{
    let Homes {
        lanes,
        owners,
        rows,
        events,
        waiting,
        offers,
    } = homes;
    let rest = hub.finish(lanes, drain);
    note_rest(rt, hub, rest, collector)?;
    note_all(events, collector)?;
    run_generators(splitter, waiting, collector)?;
    run_offers(alloc, splitter, offers, collector)?;
    let left = close_all(alloc, owners, rows)?;
    run_offers(alloc, splitter, left, collector)?;
    Ok(())
}

/// Ends a run, and hands out what is still to be handed out of its answer.
#[tactic(auto, using(crate::proofs::Noted::give_rules))]
pub(crate) fn conclude<R: Wait, X: Splitter, N: Named<X::Task, X::Leaf>, K: Taker<X::Leaf>>(
    rt: &R,
    alloc: Global,
    splitter: &X,
    hub: &Hub<X, N>,
    drain: Drain<X, N>,
    homes: Homes<X, N>,
    collector: &mut Collector<X, N>,
    each: &mut K,
) -> Result<End, PoolError<K::Fault>>
    requires key { IsClosedKey (X.step splitter.now)
        (X.lawful_task splitter.now) N.events N.offers }
    requires homes { AreHome (X.step splitter.now) N.events N.offers hub.now.name (map
        (λ owner. owner.deck) homes.owners) N.events homes }
    requires drain { (drain.hub ≡ hub.now.name) × (drain.made ≡ length homes.lanes) ×
        (drain.backs ≡ []) }
    requires walk { IsCollector N.events collector.old }
    requires noted { AreNoted N.events collector.old (map (λ post. post.item) drain.taken) }
    requires may { AllByRecursion (λ pair. K.may each.old pair.1)
        (to_give N.events collector.old).chains }
    ensures took { IfOk result (λ end. Took K.takes each.old
        (to_give N.events collector.old).chains each.new) }
    ensures cut { IfErr result (λ error. IsCut K.takes K.fails each.old
        (to_give N.events collector.old).chains error each.new) }
    ensures end { IfOk result (IsEnd (to_give N.events collector.old).stop) }
{
    match end_run(rt, alloc, splitter, hub, drain, homes, collector) {
        Ok(()) => hand_out(alloc, collector, each),
        Err(_) => Err(PoolError::Memory),
    }
}
