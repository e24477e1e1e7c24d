ghost use Rattle.account_laws.specs.Laws.{TakenIsPut, BalancesAdd, DecksClose, PathsAreNoted};

/// What was taken of all lanes is what was put into them.
pub fn taken_is_put<A>()
    ensures { TakenIsPut A }
{}

/// Balanced accounts add up.
pub fn balances_add<T, L>()
    ensures { BalancesAdd T L }
{}

/// Decks that are closed leave the account.
pub fn decks_close<T, L>()
    ensures { DecksClose T L }
{}

/// Events that weigh as much as others have all their paths.
pub fn paths_are_noted<L>()
    ensures { PathsAreNoted L }
{}
