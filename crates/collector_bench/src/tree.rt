ghost use Rattle.std.specs.Prelude.{◌≡◌, ◌<◌, ◌+◌, [], ◌∷◌, IfOk};
ghost use Rattle.split_paths.specs.Tree.{events_to_come};
ghost use Rattle.generators.specs.Turns.{AreLawful};
ghost use Rattle.collector_bench.specs.Halves.{halves, top};

use generators::{Generator, Turn};
use item_lists::Items;
use split_paths::{Event, Offer, Path, Splitter, Step, Tasks};
use std::alloc::{AllocError, Global};

/// A tree of two children at each split, whose leaves are all solved. A task is how many levels of
/// splits are below it.
#[derive(Drop)]
pub(crate) struct Halves;

impl Splitter for Halves {
    type Task = u32;

    type Leaf = u32;

    ghost use Rattle.collector_bench.specs.Halves.{halves, halves_is_lawful};

    ghost step = { λ splitter task. halves task };

    ghost lawful_task = { λ splitter task. Unit {0} };

    ghost lawful_leaf = { λ splitter leaf. Unit {0} };

    ghost keeps_lawful = { λ splitter task lawful. halves_is_lawful task };

    fn expand(&self, alloc: Global, task: u32) -> Result<Step<u32, u32>, AllocError> {
        if task == 0 {
            return Ok(Step::Emit(task));
        }
        let mut kids = Tasks::new(alloc);
        kids.push(task - 1)?;
        kids.push(task - 1)?;
        Ok(Step::Kids(kids))
    }
}

/// All events that are still to come, in path order.
fn walk<X: Splitter>(
    alloc: Global,
    splitter: &X,
    mut generator: Generator<X>,
) -> Result<Items<Event<X::Leaf>>, AllocError>
    requires { AreLawful (X.lawful_task splitter.now) generator }
    ensures { IfOk result (λ events. events ≡ events_to_come (X.step splitter.now) generator) }
{
    let mut events = Items::new(alloc);
    loop {
        match generator.turn(splitter) {
            Ok(Turn::Quiet) => {}
            Ok(Turn::Event(event)) => events.push(event)?,
            Ok(Turn::Done) => return Ok(events),
            Err(_) => return Err(AllocError),
        }
    }
}

/// The events of a tree of so many levels, in path order.
pub(crate) fn events_below(alloc: Global, levels: u32) -> Result<Items<Event<u32>>, AllocError>
    requires { levels < 100 }
    ensures { IfOk result (λ events. events ≡ events_to_come halves (top levels ∷ [])) }
{
    let root = Offer::<Halves> {
        path: Path::root(alloc),
        steps: levels + 1,
        task: levels,
    };
    walk(alloc, &Halves, Generator::of(alloc, root)?)
}
