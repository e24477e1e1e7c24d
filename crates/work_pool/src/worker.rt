ghost use Rattle.std.specs.Prelude.{◌≡◌, IfOk};
ghost use Rattle.split_paths.specs.Key.{IsClosedKey};
ghost use Rattle.work_pool.specs.Works.{IsAtWork, Works};

use crate::homes::Home;
use crate::signals::Signals;
use event_lanes::Hub;
use split_paths::{Named, Splitter};
use std::alloc::{AllocError, Global};
use std::sync::Wait;

/// Works until the closing word is set, and hands home what it holds then.
///
/// Without memory it sets the word itself.
#[tactic(auto, using(crate::proofs::Moved::move_rules))]
pub(crate) fn work<R: Wait, X: Splitter, N: Named<X::Task, X::Leaf>>(
    rt: &R,
    alloc: Global,
    splitter: &X,
    hub: &Hub<X, N>,
    signals: &Signals,
    mut desk: Home<X, N>,
) -> Result<Home<X, N>, AllocError>
    requires key { IsClosedKey (X.step splitter.now) (X.lawful_task splitter.now)
        N.events N.offers }
    requires desk { IsAtWork N.events N.offers desk }
    requires hub { desk.lane.hub ≡ hub.now.name }
    ensures { IfOk result (Works N.events N.offers (X.step splitter.now) desk) }
{
    let mut next = 0;
    for _ in rt.forever() {
        if signals.is_closing() {
            return Ok(desk);
        }
        match desk.go_on(rt, alloc, splitter, hub, &signals.stop, &mut next) {
            Ok(()) => {}
            Err(error) => {
                signals.close();
                return Err(error);
            }
        }
    }
    unreachable!()
}
