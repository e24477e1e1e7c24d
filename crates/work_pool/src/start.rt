ghost use Rattle.std.specs.Prelude.{◌≡◌, [], IfOk};
ghost use Rattle.work_pool.specs.Homes.{no_homes, with_home};
ghost use Rattle.work_pool.specs.Jobs.{Adds, HandsHome, IsReady};
ghost use Rattle.work_pool.specs.Runs.{CanRun, HasRun};

use crate::homes::{Home, Homes};
use crate::job::{Job, Kept, do_job};
use crate::lead::lead;
use crate::signals::Signals;
use crate::taker::{End, PoolError, Taker};
use collector::Collector;
use event_lanes::{Drain, Hub};
use item_lists::Items;
use split_paths::{Named, Splitter};
use std::alloc::{AllocError, Global};
use std::snapshot::Snapshot;
use std::sync::Wait;
use std::thread::{self, Threads};

/// The first home.
fn home_alone<X: Splitter, N: Named<X::Task, X::Leaf>>(
    alloc: Global,
    home: Home<X, N>,
) -> Result<Homes<X, N>, AllocError>
    ensures { IfOk result (λ homes. homes ≡ with_home no_homes home) }
{
    let mut homes = Homes::new(alloc);
    match homes.add(home) {
        Ok(()) => Ok(homes),
        Err(error) => Err(error),
    }
}

/// One home more, where all came home.
fn with_next<X: Splitter, N: Named<X::Task, X::Leaf>>(
    homes: Result<Homes<X, N>, AllocError>,
    home: Result<Home<X, N>, AllocError>,
) -> Result<Homes<X, N>, AllocError>
    ensures { IfOk result (Adds homes home) }
{
    let mut homes = match homes {
        Ok(homes) => homes,
        Err(error) => return Err(error),
    };
    let home = match home {
        Ok(home) => home,
        Err(error) => return Err(error),
    };
    match homes.add(home) {
        Ok(()) => Ok(homes),
        Err(error) => Err(error),
    }
}

/// Leads, sets the closing word, and comes home.
fn lead_home<R: Wait, X: Splitter, N: Named<X::Task, X::Leaf>, K: Taker<X::Leaf>>(
    rt: &R,
    alloc: Global,
    splitter: &X,
    hub: &Hub<X, N>,
    signals: &Signals,
    mut desk: Home<X, N>,
    drain: &mut Drain<X, N>,
    collector: &mut Collector<X, N>,
    each: &mut K,
) -> (
    Result<Option<End>, PoolError<K::Fault>>,
    Result<Homes<X, N>, AllocError>,
)
    requires { CanRun X.step X.lawful_task N.events N.offers K.takes K.fails K.may splitter.now
        hub.now.name [] desk drain.old collector.old each.old }
    ensures { HasRun X.step X.lawful_task N.events N.offers K.takes K.fails K.may splitter.now
        hub.now.name [] desk drain.old collector.old each.old drain.new collector.new each.new
        result.0 result.1 }
{
    let ready = lead(
        rt, alloc, splitter, hub, signals, &mut desk, drain, collector, each,
    );
    signals.close();
    let homes = home_alone(alloc, desk);
    (ready, homes)
}

/// Starts the workers, the last of these jobs first, leads, and takes home what all hold.
///
/// A worker that can't be started begins after the closing word was set, and so comes home at once.
pub(crate) fn run_all<
    R: Threads + Wait + Copy + Send + Sync + 'static,
    X: Splitter + Send + Sync + 'static,
    N: Named<X::Task, X::Leaf> + Send + Sync + 'static,
    K: Taker<X::Leaf>,
>(
    rt: R,
    alloc: Global,
    splitter: &X,
    hub: &Hub<X, N>,
    signals: &Signals,
    mut jobs: Items<Job<X, N>>,
    desk: Home<X, N>,
    drain: &mut Drain<X, N>,
    collector: &mut Collector<X, N>,
    each: &mut K,
) -> (
    Result<Option<End>, PoolError<K::Fault>>,
    Result<Homes<X, N>, AllocError>,
)
where
    X::Task: Send + 'static,
    X::Leaf: Send + 'static,
    requires { CanRun X.step X.lawful_task N.events N.offers K.takes K.fails K.may splitter.now
        hub.now.name jobs desk drain.old collector.old each.old }
    ensures { HasRun X.step X.lawful_task N.events N.offers K.takes K.fails K.may splitter.now
        hub.now.name jobs desk drain.old collector.old each.old drain.new collector.new each.new
        result.0 result.1 }
{
    let Some(job) = jobs.take_last() else {
        return lead_home(
            &rt, alloc, splitter, hub, signals, desk, drain, collector, each,
        );
    };
    let promise = Kept(Snapshot::of(&job));
    let started = thread::spawn_with(
        &rt,
        promise,
        move || -> Result<Home<X, N>, AllocError>
            requires { IsReady X.step N.events N.offers X.lawful_task job }
            ensures { HandsHome X.step N.events N.offers job result }
        {
            let mine = job;
            do_job(&rt, alloc, mine)
        },
    );
    let (ready, homes) = run_all(
        rt, alloc, splitter, hub, signals, jobs, desk, drain, collector, each,
    );
    let home = match started {
        Ok(child) => child.join(&rt),
        Err(refused) => (refused.value)(),
    };
    (ready, with_next(homes, home))
}
