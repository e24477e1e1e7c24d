ghost use Rattle.tally_laws.specs.Laws.{SumMovesAtSet, WeightsMeasure, WeightsCount};

/// A sum, where one item of the list changes.
pub fn sums_move<A>()
    ensures { SumMovesAtSet A }
{}

/// Lists that weigh the same are equally long, and have equally many items of each kind.
pub fn weights_count<A>()
    ensures length { WeightsMeasure A }
    ensures count { WeightsCount A }
{}
