//! What a run begins with.
ghost use Rattle.std.specs.Prelude.{◌≡◌, ◌≤◌, [], ◌∷◌, IfOk};
ghost use Rattle.std.specs.Arc.{arc_value};
ghost use Rattle.split_paths.specs.Key.{IsTreeKey};
ghost use Rattle.split_paths.specs.Tree.{events_of, offers_of};
ghost use Rattle.work_pool.specs.Fresh.{MayBegin};
ghost use Rattle.work_pool.specs.Seats.{AreJobs, IsSetUp};

use crate::homes::Home;
use crate::job::Job;
use crate::seats::{new_decks, seat};
use crate::signals::Signals;
use crate::taker::PoolSize;
use event_lanes::{Drain, Hub};
use item_lists::Items;
use split_paths::{Named, Offer, Splitter};
use std::alloc::{AllocError, Global};
use std::sync::Arc;

/// What a run begins with: the hub, its drain and the desks of all workers.
fn set_up<X: Splitter, N: Named<X::Task, X::Leaf>>(
    alloc: Global,
    size: PoolSize,
) -> Result<(Hub<X, N>, Drain<X, N>, Items<Home<X, N>>), AllocError>
    requires key { IsTreeKey N.events N.offers }
    requires workers { (1 ≤ size.workers) × (size.workers ≤ 16) }
    requires room { (1 ≤ size.room) × (size.room ≤ 65536) }
    ensures { IfOk result (λ made. IsSetUp made.0 made.1 made.2 size.workers) }
{
    let Ok((hub, lanes, drain)) = Hub::new(alloc, size.workers, size.room) else {
        return Err(AllocError);
    };
    let Ok((owners, columns)) = new_decks(alloc, size.workers) else {
        return Err(AllocError);
    };
    let Ok(desks) = seat(alloc, &hub, lanes, owners, columns) else {
        return Err(AllocError);
    };
    Ok((hub, drain, desks))
}

/// The job of the worker at this desk.
fn job_of<X: Splitter, N: Named<X::Task, X::Leaf>>(
    splitter: &Arc<X, Global>,
    hub: &Arc<Hub<X, N>, Global>,
    signals: &Arc<Signals, Global>,
    desk: Home<X, N>,
) -> Result<Job<X, N>, AllocError>
    ensures splitter { IfOk result (λ job. job.splitter ≡ arc_value splitter.now) }
    ensures hub { IfOk result (λ job. job.hub ≡ (arc_value hub.now).name) }
    ensures desk { IfOk result (λ job. job.desk ≡ desk) }
{
    let Ok(splitter) = Arc::try_clone(splitter) else {
        return Err(AllocError);
    };
    let Ok(hub) = Arc::try_clone(hub) else {
        return Err(AllocError);
    };
    let Ok(signals) = Arc::try_clone(signals) else {
        return Err(AllocError);
    };
    Ok(Job {
        splitter,
        hub,
        signals,
        desk,
    })
}

/// The jobs of all workers but the first.
fn jobs_of<X: Splitter, N: Named<X::Task, X::Leaf>>(
    alloc: Global,
    splitter: &Arc<X, Global>,
    hub: &Arc<Hub<X, N>, Global>,
    signals: &Arc<Signals, Global>,
    mut desks: Items<Home<X, N>>,
) -> Result<Items<Job<X, N>>, AllocError>
    ensures { IfOk result (AreJobs (arc_value splitter.now) (arc_value hub.now).name desks) }
{
    let mut jobs = Items::new(alloc);
    while let Some(desk) = desks.take_last() {
        let Ok(job) = job_of(splitter, hub, signals, desk) else {
            return Err(AllocError);
        };
        jobs.push_front(job)?;
    }
    Ok(jobs)
}

/// The first worker, who begins with the root.
fn with_root<X: Splitter, N: Named<X::Task, X::Leaf>>(
    mut first: Home<X, N>,
    root: Offer<X>,
) -> Home<X, N>
    ensures { result ≡ record first { offers = root ∷ [] } }
{
    first.offer = Some(root);
    first
}

/// The hub, to be shared.
fn shared<X: Splitter, N: Named<X::Task, X::Leaf>>(
    alloc: Global,
    hub: Hub<X, N>,
) -> Result<Arc<Hub<X, N>, Global>, AllocError>
    ensures { IfOk result (λ all. (arc_value all).name ≡ hub.name) }
{
    match Arc::new(alloc, hub) {
        Ok(all) => Ok(all),
        Err(_) => Err(AllocError),
    }
}

/// The signals, of which none is given.
fn new_signals(alloc: Global) -> Result<Arc<Signals, Global>, AllocError> {
    match Arc::new(alloc, Signals::new()) {
        Ok(signals) => Ok(signals),
        Err(_) => Err(AllocError),
    }
}

/// What a run begins with: the hub, the signals, the jobs of all workers but the first, what the
/// first holds, and the drain.
pub(crate) fn begin<X: Splitter, N: Named<X::Task, X::Leaf>>(
    alloc: Global,
    splitter: &Arc<X, Global>,
    root: Offer<X>,
    size: PoolSize,
) -> Result<
    (
        Arc<Hub<X, N>, Global>,
        Arc<Signals, Global>,
        Items<Job<X, N>>,
        Home<X, N>,
        Drain<X, N>,
    ),
    AllocError,
>
    requires workers { (1 ≤ size.workers) × (size.workers ≤ 16) }
    requires room { (1 ≤ size.room) × (size.room ≤ 65536) }
    requires whole { root.path ≡ [] }
    requires lawful { X.lawful_task (arc_value splitter.now) root.task }
    requires events { N.events ≡ events_of (X.step (arc_value splitter.now)) root }
    requires offers { N.offers ≡ offers_of (X.step (arc_value splitter.now)) root }
    ensures { IfOk result (λ made. MayBegin X.step X.lawful_task N.events N.offers
        (arc_value splitter.now) (arc_value made.0).name made.2 made.3 made.4) }
{
    let Ok((hub, drain, mut desks)) = set_up::<X, N>(alloc, size) else {
        return Err(AllocError);
    };
    let Some(first) = desks.take_first() else {
        unreachable!()
    };
    let first = with_root(first, root);
    let Ok(hub) = shared(alloc, hub) else {
        return Err(AllocError);
    };
    let Ok(signals) = new_signals(alloc) else {
        return Err(AllocError);
    };
    let Ok(jobs) = jobs_of(alloc, splitter, &hub, &signals, desks) else {
        return Err(AllocError);
    };
    Ok((hub, signals, jobs, first, drain))
}
