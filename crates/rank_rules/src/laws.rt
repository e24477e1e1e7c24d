ghost use Rattle.rank_rules.specs.Laws.{RanksEnd, RanksHaveOneLength};

/// Lists of one length don't fall for ever.
pub fn ranks_end()
    ensures { RanksEnd }
{}

/// Ranks by so many variables have one length.
pub fn ranks_have_one_length()
    ensures { RanksHaveOneLength }
{}
