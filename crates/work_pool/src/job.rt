ghost use Rattle.work_pool.specs.Jobs.{HandsHome, IsReady};

use crate::homes::Home;
use crate::signals::Signals;
use crate::worker::work;
use event_lanes::Hub;
use split_paths::{Named, Splitter};
use std::alloc::{AllocError, Global};
use std::marker::Model;
use std::snapshot::Snapshot;
use std::sync::{Arc, Wait};
use std::thread::Promise;

/// All that a worker takes with it.
#[derive(Drop)]
pub(crate) struct Job<X: Splitter, N: Named<X::Task, X::Leaf>> {
    pub(crate) splitter: Arc<X, Global>,
    pub(crate) hub: Arc<Hub<X, N>, Global>,
    pub(crate) signals: Arc<Signals, Global>,
    pub(crate) desk: Home<X, N>,
}

impl<X: Splitter, N: Named<X::Task, X::Leaf>> Model for Job<X, N> {
    ghost use Rattle.std.specs.Arc.{arc_value};
    ghost use Rattle.work_pool.specs.Jobs.{JobView};

    ghost Value = { JobView X X.Task X.Leaf };

    ghost view = { λ job. record {
      splitter = arc_value job.splitter;
      hub = (arc_value job.hub).name;
      desk = job.desk;
    } };
}

/// What a worker promises of what it hands home.
#[derive(Drop)]
pub(crate) struct Kept<X: Splitter, N: Named<X::Task, X::Leaf>>(pub(crate) Snapshot<Job<X, N>>);

impl<X: Splitter, N: Named<X::Task, X::Leaf>> Promise<Result<Home<X, N>, AllocError>>
    for Kept<X, N> {
    ghost use Rattle.work_pool.specs.Jobs.{HandsHome};

    ghost kept_by = { λ kept home. HandsHome X.step N.events N.offers kept.0.value home };
}

/// Does a job until the closing word is set.
#[tactic(auto, using(crate::proofs::Joining::ready_rules))]
pub(crate) fn do_job<R: Wait, X: Splitter, N: Named<X::Task, X::Leaf>>(
    rt: &R,
    alloc: Global,
    job: Job<X, N>,
) -> Result<Home<X, N>, AllocError>
    requires { IsReady X.step N.events N.offers X.lawful_task job }
    ensures { HandsHome X.step N.events N.offers job result }
{
    let Job {
        splitter,
        hub,
        signals,
        desk,
    } = job;
    work(rt, alloc, &*splitter, &*hub, &*signals, desk)
}
