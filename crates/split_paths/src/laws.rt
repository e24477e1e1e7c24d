ghost use Rattle.split_paths.specs.Laws.{EventsUnfold, OffersUnfold, TreesAreWalks, EventsAscend, EventsAreApart, EventsAreKnown, PathsHaveEvents, AnswersJoin, OffersAscend, OffersNest, LawfulTreesAreClosed, EmittedLeavesAreLawful};

use crate::splitter::Splitter;

/// What is below a place is its own, and then what is below each of its children in order.
pub fn places_unfold<T, L>()
    ensures events { EventsUnfold T L }
    ensures offers { OffersUnfold T L }
{}

/// The events of a tree are those of a walk by an agenda of paths, which begins with the root's.
pub fn trees_are_walks<T, L>()
    ensures { TreesAreWalks T L }
{}

/// The leaves of a tree stand in path order, and so do all its events.
pub fn events_ascend<T, L>()
    ensures { EventsAscend T L }
{}

/// Each path of a tree has exactly one event.
pub fn paths_have_one_event<T, L>()
    ensures one { PathsHaveEvents T L }
    ensures apart { EventsAreApart T L }
    ensures known { EventsAreKnown T L }
{}

/// What may be offered of a tree stands in path order too.
pub fn offers_ascend<T, L>()
    ensures { OffersAscend T L }
{}

/// What is below an offer is one part of the tree, without a gap.
pub fn offers_nest<T, L>()
    ensures { OffersNest T L }
{}

/// Whatever is offered of a lawful tree, and made of it, is lawful and stays within that tree's key.
pub fn lawful_trees_are_closed<X: Splitter>()
    ensures { (splitter : X) → LawfulTreesAreClosed (X.step splitter) (X.lawful_task splitter) }
{}

/// A lawful tree emits lawful leaves alone.
pub fn emitted_leaves_are_lawful<X: Splitter>()
    ensures { (splitter : X)
        → EmittedLeavesAreLawful (X.step splitter) (X.lawful_task splitter) (X.lawful_leaf splitter) }
{}

/// An answer may be made event by event.
pub fn answers_join<L>()
    ensures { AnswersJoin L }
{}
