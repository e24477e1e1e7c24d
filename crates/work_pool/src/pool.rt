ghost use Rattle.std.specs.Prelude.{◌≡◌, ◌≤◌, [], ◌+◌, ◌∷◌, length, map, IfOk, IfErr};
ghost use Rattle.std.specs.Arc.{arc_value};
ghost use Rattle.std.specs.List.{AllByRecursion};
ghost use Rattle.collector.specs.Notes.{IsCollector, to_give};
ghost use Rattle.split_paths.specs.Answer.{answer_of};
ghost use Rattle.split_paths.specs.Key.{IsClosedKey, IsTreeKey};
ghost use Rattle.split_paths.specs.Tree.{events_of, offers_of};
ghost use Rattle.work_pool.specs.Noting.{AreNoted};
ghost use Rattle.work_pool.specs.Fresh.{MayBegin};
ghost use Rattle.work_pool.specs.Homes.{AreHome};
ghost use Rattle.work_pool.specs.Taken.{Took, IfReady, IsCut, IsEnd, IsEnded, answer_below};

use crate::end::conclude;
use crate::homes::{Home, Homes};
use crate::job::Job;
use crate::setup::begin;
use crate::signals::Signals;
use crate::start::run_all;
use crate::taker::{End, PoolError, PoolSize, Taker};
use collector::Collector;
use event_lanes::{Drain, Hub};
use item_lists::Items;
use split_paths::{Named, Offer, Path, Splitter};
use std::alloc::{AllocError, Global};
use std::marker::Brand;
use std::sync::{Arc, Wait};
use std::thread::Threads;

/// Ends a run whose workers came home.
///
/// What they hold is run by the caller where the answer hasn't ended.
fn finish<R: Wait, X: Splitter, N: Named<X::Task, X::Leaf>, K: Taker<X::Leaf>>(
    rt: &R,
    alloc: Global,
    splitter: &X,
    hub: &Hub<X, N>,
    drain: Drain<X, N>,
    ready: Result<Option<End>, PoolError<K::Fault>>,
    homes: Result<Homes<X, N>, AllocError>,
    collector: &mut Collector<X, N>,
    each: &mut K,
) -> Result<End, PoolError<K::Fault>>
    requires key { IsClosedKey (X.step splitter.now) (X.lawful_task splitter.now)
        N.events N.offers }
    requires homes { IfOk ready (λ end. IfOk homes (λ all. AreHome (X.step splitter.now)
        N.events N.offers hub.now.name (map (λ owner. owner.deck) all.owners) N.events all)) }
    requires hub { drain.hub ≡ hub.now.name }
    requires made { IfOk ready (λ end. IfOk homes (λ all. drain.made ≡ length all.lanes)) }
    requires none_back { drain.backs ≡ [] }
    requires walk { IsCollector N.events collector.old }
    requires noted { IfOk ready (λ end. AreNoted N.events collector.old
        (map (λ post. post.item) drain.taken)) }
    requires may { IfOk ready (λ end. AllByRecursion (λ pair. K.may each.old pair.1)
        (to_give N.events collector.old).chains) }
    ensures { (first : _) (whole : _)
        → IfOk ready (IfReady K.takes K.fails first whole each.old (to_give N.events collector.old))
        → IfErr ready (λ error. IsCut K.takes K.fails first whole.chains error each.old)
        → IsEnded K.takes K.fails first whole result each.new }
{
    match ready {
        Err(error) => Err(error),
        Ok(Some(end)) => Ok(end),
        Ok(None) => match homes {
            Ok(homes) => conclude(rt, alloc, splitter, hub, drain, homes, collector, each),
            Err(_) => Err(PoolError::Memory),
        },
    }
}

/// Does all jobs and the caller's own, and hands out the answer to its end.
fn run_jobs<
    R: Threads + Wait + Copy + Send + Sync + 'static,
    X: Splitter + Send + Sync + 'static,
    N: Named<X::Task, X::Leaf> + Send + Sync + 'static,
    K: Taker<X::Leaf>,
>(
    rt: R,
    alloc: Global,
    splitter: &X,
    hub: &Hub<X, N>,
    signals: &Signals,
    jobs: Items<Job<X, N>>,
    desk: Home<X, N>,
    mut drain: Drain<X, N>,
    mut collector: Collector<X, N>,
    each: &mut K,
) -> Result<End, PoolError<K::Fault>>
where
    X::Task: Send + 'static,
    X::Leaf: Send + 'static,
    requires begins { MayBegin X.step X.lawful_task N.events N.offers splitter.now hub.now.name
        jobs desk drain }
    requires walk { IsCollector N.events collector }
    requires may { AllByRecursion (λ pair. K.may each.old pair.1)
        (to_give N.events collector).chains }
    ensures took { IfOk result (λ end. Took K.takes each.old
        (to_give N.events collector).chains each.new) }
    ensures end { IfOk result (IsEnd (to_give N.events collector).stop) }
    ensures cut { IfErr result (λ error. IsCut K.takes K.fails each.old
        (to_give N.events collector).chains error each.new) }
{
    let (ready, homes) = run_all(
        rt,
        alloc,
        splitter,
        hub,
        signals,
        jobs,
        desk,
        &mut drain,
        &mut collector,
        each,
    );
    finish(
        &rt,
        alloc,
        splitter,
        hub,
        drain,
        ready,
        homes,
        &mut collector,
        each,
    )
}

/// A run of the tree whose key is `N`.
fn run_keyed<
    R: Threads + Wait + Copy + Send + Sync + 'static,
    X: Splitter + Send + Sync + 'static,
    N: Named<X::Task, X::Leaf> + Send + Sync + 'static,
    K: Taker<X::Leaf>,
>(
    rt: R,
    alloc: Global,
    splitter: Arc<X, Global>,
    root: Offer<X>,
    size: PoolSize,
    each: &mut K,
) -> Result<End, PoolError<K::Fault>>
where
    X::Task: Send + 'static,
    X::Leaf: Send + 'static,
    requires workers { (1 ≤ size.workers) × (size.workers ≤ 16) }
    requires room { (1 ≤ size.room) × (size.room ≤ 65536) }
    requires whole { root.path ≡ [] }
    requires lawful { X.lawful_task (arc_value splitter) root.task }
    requires events { N.events ≡ events_of (X.step (arc_value splitter)) root }
    requires offers { N.offers ≡ offers_of (X.step (arc_value splitter)) root }
    requires may { AllByRecursion (λ pair. K.may each.old pair.1) (answer_of N.events).chains }
    ensures took { IfOk result (λ end. Took K.takes each.old (answer_of N.events).chains each.new) }
    ensures end { IfOk result (IsEnd (answer_of N.events).stop) }
    ensures cut { IfErr result (λ error. IsCut K.takes K.fails each.old
        (answer_of N.events).chains error each.new) }
{
    let Ok((hub, signals, jobs, desk, drain)) = begin::<X, N>(alloc, &splitter, root, size) else {
        return Err(PoolError::Memory);
    };
    let collector = Collector::new(alloc);
    run_jobs(
        rt, alloc, &*splitter, &*hub, &*signals, jobs, desk, drain, collector, each,
    )
}

/// A run of the tree below an offer at the root's path.
fn run_whole<
    R: Threads + Wait + Copy + Send + Sync + 'static,
    X: Splitter + Send + Sync + 'static,
    K: Taker<X::Leaf>,
>(
    rt: R,
    alloc: Global,
    splitter: Arc<X, Global>,
    root: Offer<X>,
    size: PoolSize,
    each: &mut K,
) -> Result<End, PoolError<K::Fault>>
where
    X::Task: Send + 'static,
    X::Leaf: Send + 'static,
    requires workers { (1 ≤ size.workers) × (size.workers ≤ 16) }
    requires room { (1 ≤ size.room) × (size.room ≤ 65536) }
    requires whole { root.path ≡ [] }
    requires lawful { X.lawful_task (arc_value splitter) root.task }
    requires may { AllByRecursion (λ pair. K.may each.old pair.1)
        (answer_of (events_of (X.step (arc_value splitter)) root)).chains }
    ensures took { IfOk result (λ end. Took K.takes each.old
        (answer_of (events_of (X.step (arc_value splitter)) root)).chains each.new) }
    ensures end { IfOk result
        (IsEnd (answer_of (events_of (X.step (arc_value splitter)) root)).stop) }
    ensures cut { IfErr result (λ error. IsCut K.takes K.fails each.old
        (answer_of (events_of (X.step (arc_value splitter)) root)).chains error each.new) }
{
    run_keyed::<R, X, Brand, K>(rt, alloc, splitter, root, size, each)
}

/// The root, which holds a task.
fn root_of<X: Splitter>(alloc: Global, task: X::Task, steps: u32) -> Offer<X>
    ensures { result ≡ record { path = []; steps = steps; task = task } }
{
    Offer {
        path: Path::root(alloc),
        steps,
        task,
    }
}

/// Walks the tree of a task with several workers, of which the caller is the first, and hands out
/// its answer.
///
/// `room` is how many events may wait for the caller. The call may wait for the other workers.
pub fn pool_run<
    R: Threads + Wait + Copy + Send + Sync + 'static,
    X: Splitter + Send + Sync + 'static,
    K: Taker<X::Leaf>,
>(
    rt: R,
    alloc: Global,
    splitter: Arc<X, Global>,
    root: X::Task,
    size: PoolSize,
    steps: u32,
    each: &mut K,
) -> Result<End, PoolError<K::Fault>>
where
    X::Task: Send + 'static,
    X::Leaf: Send + 'static,
    requires workers { (1 ≤ size.workers) × (size.workers ≤ 16) }
    requires room { (1 ≤ size.room) × (size.room ≤ 65536) }
    requires lawful { X.lawful_task (arc_value splitter) root }
    requires may { AllByRecursion (λ pair. K.may each.old pair.1)
        (answer_below (X.step (arc_value splitter)) steps root).chains }
    ensures took { IfOk result (λ end. Took K.takes each.old
        (answer_below (X.step (arc_value splitter)) steps root).chains each.new) }
    ensures end { IfOk result
        (IsEnd (answer_below (X.step (arc_value splitter)) steps root).stop) }
    ensures cut { IfErr result (λ error. IsCut K.takes K.fails each.old
        (answer_below (X.step (arc_value splitter)) steps root).chains error each.new) }
{
    let root = root_of::<X>(alloc, root, steps);
    run_whole(rt, alloc, splitter, root, size, each)
}
