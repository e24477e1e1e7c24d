ghost use Rattle.std.specs.Prelude.{◌≡◌};

use crate::counts::Counts;
use crate::mark::{Drain, Hub, Mark};
use split_paths::{Event, Outcome};
use std::sync::Wait;
use std::sync::atomic::{AtomicBool, Ordering};
use std::thread::yield_now;

/// Takes events until the threads are done and none is left.
pub(crate) fn drain_all<R: Wait>(rt: &R, hub: &Hub, drain: Drain, done: &AtomicBool) -> Counts
    requires { drain.hub ≡ hub.now.name }
{
    let mut drain = drain;
    let mut counts = Counts::new();
    let mut nexts: [u32; 4] = [0; 4];
    for _ in rt.forever() {
        let last = done.load(Ordering::SeqCst);
        match hub.take(rt, &mut drain) {
            Some((lane, event)) => hear(&mut counts, &mut nexts, lane, &event),
            None if last => return counts,
            None => yield_now(),
        }
    }
    unreachable!()
}

/// Counts an event of a lane.
fn hear(counts: &mut Counts, nexts: &mut [u32; 4], lane: u32, event: &Event<Mark>) {
    if let Event::Leaf {
        path: _,
        outcome: Outcome::Chain(mark),
    } = event
    {
        if let Some(next) = nexts.get_mut(lane as usize) {
            counts.hear(lane, mark, next);
        }
    }
}
