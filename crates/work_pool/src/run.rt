ghost use Rattle.std.specs.Prelude.{◌≡◌, OnOk};
ghost use Rattle.std.specs.List.{AllByRecursion, flat_map};
ghost use Rattle.split_paths.specs.Key.{IsTrueEvent, IsTrueOffer, IsClosedKey};
ghost use Rattle.split_paths.specs.Tree.{events_to_come};
ghost use Rattle.generators.specs.Turns.{AreLawful};
ghost use Rattle.collector.specs.Notes.{IsCollector, Keeps};
ghost use Rattle.work_pool.specs.Noting.{AreNoted};

use collector::Collector;
use generators::{Generator, Turn};
use item_lists::Items;
use split_paths::{Event, Named, Offer, Splitter};
use std::alloc::{AllocError, Global};

/// Notes events that came home.
#[tactic(auto, using(crate::proofs::Noted::lead_rules))]
pub(crate) fn note_all<X: Splitter, N: Named<X::Task, X::Leaf>>(
    mut events: Items<Event<X::Leaf>>,
    collector: &mut Collector<X, N>,
) -> Result<(), AllocError>
    requires walk { IsCollector N.events collector.old }
    requires events { AllByRecursion (IsTrueEvent N.events) events }
    ensures walk { IsCollector N.events collector.new }
    ensures keeps { Keeps N.events collector.old collector.new }
    ensures noted { OnOk result (AreNoted N.events collector.new events) }
{
    while let Some(event) = events.take_last() {
        collector.note(event)?;
    }
    Ok(())
}

/// Runs what waits to its end, and notes what is met.
#[tactic(auto, using(crate::proofs::Noted::lead_rules))]
pub(crate) fn run_generator<X: Splitter, N: Named<X::Task, X::Leaf>>(
    splitter: &X,
    mut generator: Generator<X>,
    collector: &mut Collector<X, N>,
) -> Result<(), AllocError>
    requires walk { IsCollector N.events collector.old }
    requires lawful { AreLawful (X.lawful_task splitter.now) generator }
    requires events { AllByRecursion (IsTrueEvent N.events) (events_to_come
        (X.step splitter.now) generator) }
    ensures walk { IsCollector N.events collector.new }
    ensures keeps { Keeps N.events collector.old collector.new }
    ensures noted { OnOk result (AreNoted N.events collector.new (events_to_come
        (X.step splitter.now) generator)) }
{
    loop {
        match generator.turn(splitter) {
            Ok(Turn::Quiet) => {}
            Ok(Turn::Event(event)) => collector.note(event)?,
            Ok(Turn::Done) => return Ok(()),
            Err(_) => return Err(AllocError),
        }
    }
}

/// Runs generators that came home.
#[tactic(auto, using(crate::proofs::Noted::lead_rules))]
pub(crate) fn run_generators<X: Splitter, N: Named<X::Task, X::Leaf>>(
    splitter: &X,
    mut generators: Items<Generator<X>>,
    collector: &mut Collector<X, N>,
) -> Result<(), AllocError>
    requires key { IsClosedKey (X.step splitter.now)
        (X.lawful_task splitter.now) N.events N.offers }
    requires walk { IsCollector N.events collector.old }
    requires offers { AllByRecursion (AllByRecursion (IsTrueOffer N.offers)) generators }
    ensures walk { IsCollector N.events collector.new }
    ensures keeps { Keeps N.events collector.old collector.new }
    ensures noted { OnOk result (AreNoted N.events collector.new
        (flat_map (events_to_come (X.step splitter.now)) generators)) }
{
    while let Some(generator) = generators.take_last() {
        run_generator(splitter, generator, collector)?;
    }
    Ok(())
}

/// Runs offers that came home, and notes what is met.
#[tactic(auto, using(crate::proofs::Noted::lead_rules))]
pub(crate) fn run_offers<X: Splitter, N: Named<X::Task, X::Leaf>>(
    alloc: Global,
    splitter: &X,
    mut offers: Items<Offer<X>>,
    collector: &mut Collector<X, N>,
) -> Result<(), AllocError>
    requires key { IsClosedKey (X.step splitter.now)
        (X.lawful_task splitter.now) N.events N.offers }
    requires walk { IsCollector N.events collector.old }
    requires offers { AllByRecursion (IsTrueOffer N.offers) offers }
    ensures walk { IsCollector N.events collector.new }
    ensures keeps { Keeps N.events collector.old collector.new }
    ensures noted { OnOk result (AreNoted N.events collector.new (events_to_come
        (X.step splitter.now) offers)) }
{
    while let Some(offer) = offers.take_last() {
        let generator = Generator::of(alloc, offer)?;
        run_generator(splitter, generator, collector)?;
    }
    Ok(())
}
