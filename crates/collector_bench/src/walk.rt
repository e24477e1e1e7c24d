ghost use Rattle.std.specs.Prelude.{◌≡◌, ◌<◌, [], ◌∷◌, length, IfSome};
ghost use Rattle.std.specs.List.{AllByRecursion};
ghost use Rattle.split_paths.specs.Key.{IsTreeKey, IsTrueEvent};
ghost use Rattle.split_paths.specs.Tree.{events_to_come, offers_of};
ghost use Rattle.collector.specs.Notes.{IsCollector};
ghost use Rattle.collector_bench.specs.Halves.{halves, top};

use crate::order::Order;
use crate::tree::{Halves, events_below};
use collector::{Advance, Collector};
use item_lists::Items;
use split_paths::{Event, Named, Path};
use std::alloc::{AllocError, Global};
use std::marker::Brand;

/// What a walk handed out.
#[derive(Drop)]
pub(crate) struct Tally {
    pub(crate) events: u64,
    pub(crate) leaves: u64,
    /// Each path came after the one before it.
    pub(crate) ascend: bool,
    pub(crate) ended: bool,
    last: Option<Path>,
}

impl Tally {
    fn new() -> Tally {
        Tally {
            events: 0,
            leaves: 0,
            ascend: true,
            ended: false,
            last: None,
        }
    }

    fn add(&mut self, path: Path) {
        if let Some(last) = &self.last {
            self.ascend = self.ascend && *last < path;
        }
        self.leaves = self.leaves.saturating_add(1);
        self.last = Some(path);
    }
}

/// Advances as far as it goes.
fn advance_all<N: Named<u32, u32>>(collector: &mut Collector<Halves, N>, tally: &mut Tally)
    requires { IsCollector N.events collector.old }
    ensures { IsCollector N.events collector.new }
{
    loop {
        match collector.advance() {
            Advance::Item(path, _) => tally.add(path),
            Advance::Waiting => return,
            Advance::Finished => {
                tally.ended = true;
                return;
            }
            Advance::Stopped(_) => return,
        }
    }
}

/// Takes the event away that comes next in an order.
fn next<N: Named<u32, u32>>(events: &mut Items<Event<u32>>, order: Order) -> Option<Event<u32>>
    requires { AllByRecursion (IsTrueEvent N.events) events.old }
    ensures left { AllByRecursion (IsTrueEvent N.events) events.new }
    ensures event { IfSome result (IsTrueEvent N.events) }
    ensures fewer { IfSome result (λ event. length events.new < length events.old) }
{
    match order {
        Order::Neither => None,
        Order::Forward => events.take_first(),
        Order::Reverse => events.take_last(),
    }
}

/// Notes events in an order, and advances after each as far as it goes.
fn note_all<N: Named<u32, u32>>(
    alloc: Global,
    mut events: Items<Event<u32>>,
    order: Order,
) -> Result<Tally, AllocError>
    requires key { IsTreeKey N.events N.offers }
    requires events { AllByRecursion (IsTrueEvent N.events) events }
{
    let mut collector = Collector::<Halves, N>::new(alloc);
    let mut tally = Tally::new();
    while let Some(event) = next::<N>(&mut events, order) {
        tally.events = tally.events.saturating_add(1);
        collector.note(event)?;
        advance_all(&mut collector, &mut tally);
    }
    Ok(tally)
}

/// Notes the events of the tree whose key is `N`.
fn run<N: Named<u32, u32>>(alloc: Global, levels: u32, order: Order) -> Result<Tally, AllocError>
    requires levels { levels < 100 }
    requires events { N.events ≡ events_to_come halves (top levels ∷ []) }
    requires offers { N.offers ≡ offers_of halves (top levels) }
{
    let events = events_below(alloc, levels)?;
    note_all::<N>(alloc, events, order)
}

/// Walks a tree of so many levels, at most 24, whose events are noted in an order.
pub(crate) fn tally_of(alloc: Global, order: Order, levels: u32) -> Result<Tally, AllocError> {
    run::<Brand>(alloc, levels.min(24), order)
}
