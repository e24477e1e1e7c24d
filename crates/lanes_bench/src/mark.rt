ghost use Rattle.split_paths.specs.Key.{IsTrueEvent, IsTrueOffer};
ghost use Rattle.lanes_bench.specs.OneLeaf.{only_events, only_offers};

use split_paths::{Event, Named, Offer, Outcome, Path, Splitter, Step};
use std::alloc::{AllocError, Global};
use std::marker::Model;

/// What an event and an offer carry: the thread that made them, and how many it made before.
///
/// No contract sees it, so all of them are those of one leaf.
#[derive(Debug, Drop)]
pub(crate) struct Mark {
    pub(crate) thread: u32,
    pub(crate) number: u32,
}

impl Model for Mark {
    ghost Value = { Unit {0} };

    ghost view = { λ mark. tt };
}

/// A splitter that gives each task back as a leaf.
#[derive(Drop)]
pub(crate) struct Emitter;

impl Splitter for Emitter {
    type Task = Mark;

    type Leaf = Mark;

    ghost use Rattle.split_paths.specs.declared.splitter.Step.TheVariants.{Emit};

    ghost step = { λ splitter task. Emit task };

    ghost lawful_task = { λ splitter task. Unit {0} };

    ghost lawful_leaf = { λ splitter leaf. Unit {0} };

    ghost keeps_lawful = { λ splitter task lawful. tt };

    fn expand(&self, _alloc: Global, task: Mark) -> Result<Step<Mark, Mark>, AllocError> {
        Ok(Step::Emit(task))
    }
}

/// The name of the tree of one leaf.
#[derive(Drop)]
pub(crate) struct OneLeaf;

impl Named<Mark, Mark> for OneLeaf {
    ghost use Rattle.lanes_bench.specs.OneLeaf.{only_events, only_offers};

    ghost events = { only_events };

    ghost offers = { only_offers };
}

pub(crate) type Lane = event_lanes::Lane<Emitter, OneLeaf>;

pub(crate) type Hub = event_lanes::Hub<Emitter, OneLeaf>;

pub(crate) type Drain = event_lanes::Drain<Emitter, OneLeaf>;

pub(crate) type Owner = offer_deck::Owner<Emitter, OneLeaf>;

pub(crate) type Thief = offer_deck::Thief<Emitter, OneLeaf>;

#[tactic(auto, using(crate::proofs::OneLeaf::is_true_event))]
pub(crate) fn event_of(alloc: Global, thread: u32, number: u32) -> Event<Mark>
    ensures { IsTrueEvent only_events result }
{
    Event::Leaf {
        path: Path::root(alloc),
        outcome: Outcome::Chain(Mark { thread, number }),
    }
}

#[tactic(auto, using(crate::proofs::OneLeaf::is_true_offer))]
pub(crate) fn offer_of(alloc: Global, thread: u32, number: u32) -> Offer<Emitter>
    ensures { IsTrueOffer only_offers result }
{
    Offer {
        path: Path::root(alloc),
        steps: 1,
        task: Mark { thread, number },
    }
}
