ghost use Rattle.std.specs.Prelude.{◌≡◌, ◌<◌, ◌^◌, ◌+◌, ◌++◌, [], ◌∷◌, length, OnOk, IfOk, IfErr};
ghost use Rattle.split_paths.specs.Tree.{numbered, children, event_here, children_of, event_at};
ghost use Rattle.split_paths.specs.declared.splitter.Step.TheVariants.{Kids};
ghost use Rattle.generators.specs.Steps.{HasKidsThatFit, GivesWayTo, IsQuietWith};

use crate::turn::{Starved, Turn};
use item_lists::Items;
use split_paths::{Event, Offer, Outcome, Path, Splitter, Step, Tasks};
use std::alloc::{AllocError, Global};

/// Lets children wait in front of all others, the first of them in front.
fn let_wait<X: Splitter>(
    waiting: &mut Items<Offer<X>>,
    path: &Path,
    steps: u32,
    mut kids: Tasks<X::Task>,
) -> Result<(), AllocError>
    requires { length kids < 2 ^ 32 }
    ensures { OnOk result (waiting.new ≡ numbered path.now steps 1 kids ++ waiting.old) }
{
    let mut number = kids.count() as u32;
    while let Some(task) = kids.take_last() {
        let offer = Offer {
            path: path.child(number)?,
            steps,
            task,
        };
        waiting.push_front(offer)?;
        number -= 1;
    }
    Ok(())
}

/// Lets an only child wait in its parent's place.
fn let_only_wait<X: Splitter>(
    waiting: &mut Items<Offer<X>>,
    only: Offer<X>,
) -> Result<Turn<X::Leaf>, Starved>
    ensures ok { IfOk result (IsQuietWith only waiting.old waiting.new) }
    ensures err { IfErr result (λ starved. starved.path ≡ only.path) }
{
    match waiting.try_push_front(only) {
        Ok(()) => Ok(Turn::Quiet),
        Err(failed) => {
            let Offer { path, .. } = failed.value;
            Err(Starved { path })
        }
    }
}

/// Lets the children of a task at this path wait in its place.
fn let_kids_wait<X: Splitter>(
    waiting: &mut Items<Offer<X>>,
    path: Path,
    steps: u32,
    mut kids: Tasks<X::Task>,
) -> Result<Turn<X::Leaf>, Starved>
    requires { (0 < length kids) × (length kids < 2 ^ 32) }
    ensures ok { IfOk result (GivesWayTo (children {L = X.Leaf} path (steps + 1) (Kids kids))
        (event_here path (steps + 1) (Kids kids)) waiting.old waiting.new) }
    ensures err { IfErr result (λ starved. starved.path ≡ path) }
{
    let count = kids.count() as u32;
    if count == 1 {
        let Some(task) = kids.take_last() else {
            unreachable!()
        };
        return let_only_wait(waiting, Offer { path, steps, task });
    }
    match let_wait(waiting, &path, steps, kids) {
        Ok(()) => Ok(Turn::Event(Event::Split { path, kids: count })),
        Err(_) => Err(Starved { path }),
    }
}

/// Lets what a step made of a task at this path take its place; so many steps are left after it.
fn react<X: Splitter>(
    waiting: &mut Items<Offer<X>>,
    path: Path,
    steps: u32,
    made: Step<X::Task, X::Leaf>,
) -> Result<Turn<X::Leaf>, Starved>
    requires { HasKidsThatFit made }
    ensures ok { IfOk result (GivesWayTo (children path (steps + 1) made)
        (event_here path (steps + 1) made) waiting.old waiting.new) }
    ensures err { IfErr result (λ starved. starved.path ≡ path) }
{
    let outcome = match made {
        Step::Gone => Outcome::Gone,
        Step::Emit(leaf) => Outcome::Chain(leaf),
        Step::TooWide => Outcome::TooWide,
        Step::Kids(kids) => return let_kids_wait(waiting, path, steps, kids),
    };
    Ok(Turn::Event(Event::Leaf { path, outcome }))
}

/// Makes one step of a task that waited before all others, if it has a step left.
pub(crate) fn make_step<X: Splitter>(
    alloc: Global,
    splitter: &X,
    first: Offer<X>,
    waiting: &mut Items<Offer<X>>,
) -> Result<Turn<X::Leaf>, Starved>
    requires { X.lawful_task splitter.now first.task }
    ensures ok { IfOk result (GivesWayTo (children_of (X.step splitter.now) first)
        (event_at (X.step splitter.now) first) waiting.old waiting.new) }
    ensures err { IfErr result (λ starved. starved.path ≡ first.path) }
{
    let Offer { path, steps, task } = first;
    if steps == 0 {
        let outcome = Outcome::Steps;
        return Ok(Turn::Event(Event::Leaf { path, outcome }));
    }
    match splitter.expand(alloc, task) {
        Ok(made) => react(waiting, path, steps - 1, made),
        Err(_) => Err(Starved { path }),
    }
}
