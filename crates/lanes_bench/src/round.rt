ghost use Rattle.std.specs.Prelude.{◌≡◌, All, IfOk};
ghost use Rattle.std.specs.List.{AllByRecursion};
ghost use Rattle.split_paths.specs.Key.{IsTrueEvent};
ghost use Rattle.lanes_bench.specs.OneLeaf.{only_events};

use crate::counts::{Counts, Times};
use crate::drain::drain_all;
use crate::hands::{Hands, THREADS, all_hands};
use crate::mark::{Drain, Emitter, Hub, Lane, Mark, OneLeaf, event_of, offer_of};
use event_lanes::Full;
use split_paths::Event;
use std::alloc::{AllocError, Global};
use std::sync::Wait;
use std::sync::atomic::{AtomicBool, Ordering};
use std::thread::{Threads, join, map_vec, yield_now};

/// How many events a hub holds.
const HUB_ROOM: u32 = 64;

/// What a thread works with.
type Job = (Lane, Hands);

/// Puts an event, as soon as there is room.
fn put<R: Wait>(rt: &R, hub: &Hub, lane: &mut Lane, event: Event<Mark>)
    requires lane { lane.old.hub ≡ hub.now.name }
    requires event { IsTrueEvent only_events event }
    ensures { lane.new.hub ≡ lane.old.hub }
{
    let mut event = event;
    for _ in rt.forever() {
        let Err(full) = hub.put(rt, lane, event) else {
            return;
        };
        let Full { event: back } = full;
        event = back;
        yield_now();
    }
    unreachable!()
}

/// Puts so many events, makes as many offers, and takes offers.
fn work<R: Wait>(
    rt: &R,
    alloc: Global,
    hub: &Hub,
    job: Job,
    numbers: u32,
) -> Result<Hands, AllocError>
    requires { job.0.hub ≡ hub.now.name }
{
    let (mut lane, mut hands) = job;
    let thread = hands.thread;
    for number in 0..numbers {
        put(rt, hub, &mut lane, event_of(alloc, thread, number));
        hands.trade(rt, offer_of(alloc, thread, number), number)?;
    }
    Ok(hands)
}

type Worked = Result<Vec<Result<Hands, AllocError>>, AllocError>;

/// Lets each thread work, and tells when all are done.
fn work_all<R: Threads + Wait + Sync>(
    rt: &R,
    alloc: Global,
    hub: &Hub,
    jobs: Vec<Job>,
    done: &AtomicBool,
    numbers: u32,
) -> Worked
    requires { All (λ job. job.0.hub ≡ hub.now.name) jobs.items }
{
    let worked = map_vec(rt, jobs, &|job| work(rt, alloc, hub, job, numbers));
    done.store(true, Ordering::SeqCst);
    worked
}

/// A job for each of these lanes.
fn jobs_of(alloc: Global, hub: &Hub, lanes: Vec<Lane>) -> Result<Vec<Job>, AllocError>
    requires { All (λ lane. lane.hub ≡ hub.now.name) lanes.items }
    ensures { IfOk result (λ jobs. All (λ job. job.0.hub ≡ hub.now.name) jobs.items) }
{
    let mut lanes = lanes;
    let mut hands = all_hands(alloc)?;
    let mut jobs = Vec::new(alloc);
    for _ in 0..THREADS {
        let Some(lane) = lanes.pop() else {
            return Ok(jobs);
        };
        let Some(hand) = hands.pop() else {
            return Ok(jobs);
        };
        jobs.push((lane, hand))?;
    }
    Ok(jobs)
}

/// Lets the threads work while a fifth takes the events, and counts these.
fn run<R: Threads + Wait + Sync>(
    rt: &R,
    alloc: Global,
    hub: &Hub,
    drain: Drain,
    jobs: Vec<Job>,
    numbers: u32,
) -> (Counts, Worked)
    requires drain { drain.hub ≡ hub.now.name }
    requires jobs { All (λ job. job.0.hub ≡ hub.now.name) jobs.items }
{
    let done = AtomicBool::new(false);
    join(
        rt,
        || drain_all(rt, hub, drain, &done),
        || -> Worked
            requires { All (λ job. job.0.hub ≡ hub.now.name) jobs.items }
        { work_all(rt, alloc, hub, jobs, &done, numbers) },
    )
}

/// Lets four threads put and offer so many numbers each, and counts what came.
#[tactic(auto, using(crate::proofs::OneLeaf::one_leaf))]
pub(crate) fn round<R: Threads + Wait + Sync>(
    rt: &R,
    alloc: Global,
    numbers: u32,
) -> Result<Counts, AllocError> {
    let (hub, lanes, drain) = event_lanes::Hub::<Emitter, OneLeaf>::new(alloc, THREADS, HUB_ROOM)?;
    let jobs = jobs_of(alloc, &hub, lanes)?;
    let (mut counts, worked) = run(rt, alloc, &hub, drain, jobs, numbers);
    let mut times = Times::new(alloc, numbers)?;
    for hands in worked? {
        times.add_all(hands?);
    }
    times.tell(&mut counts);
    Ok(counts)
}
