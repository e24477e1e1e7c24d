ghost use Rattle.std.specs.Prelude.{◌≡◌, ◌+◌, ◌++◌, length, map, IfOk};
ghost use Rattle.std.specs.List.{AllByRecursion, flat_map};
ghost use Rattle.split_paths.specs.Key.{IsTrueOffer};
ghost use Rattle.tally_laws.specs.Weights.{WeighTheSame};
ghost use Rattle.work_pool.specs.Rows.{AreRows};
ghost use Rattle.work_pool.specs.Closing.{recalled, stolen, made_of};

use crate::column::{Row, take_column};
use item_lists::Items;
use offer_deck::{Owner, Thief};
use split_paths::{Named, Offer, Splitter};
use std::alloc::{AllocError, Global};

/// Closes a deck, and takes what is left in it.
pub(crate) fn close_deck<X: Splitter, N: Named<X::Task, X::Leaf>>(
    alloc: Global,
    owner: Owner<X, N>,
    thieves: Vec<Thief<X, N>>,
) -> Result<Items<Offer<X>>, AllocError>
    requires deck { AllByRecursion (λ thief. thief.deck ≡ owner.deck) thieves.items }
    requires all { length thieves.items ≡ owner.thieves }
    ensures whole { IfOk result (λ left. WeighTheSame
        ((owner.taken ++ flat_map (λ thief. thief.taken) thieves.items) ++ left) owner.made) }
    ensures known { IfOk result (AllByRecursion (IsTrueOffer N.offers)) }
{
    let mut sole = owner.close(thieves);
    let mut left = Items::new(alloc);
    while let Some(offer) = sole.recall() {
        left.push(offer)?;
    }
    Ok(left)
}

/// Closes the decks from the last to the first, and takes what is left in them.
#[tactic(auto, using(crate::proofs::Closings::closing_rules))]
pub(crate) fn close_all<X: Splitter, N: Named<X::Task, X::Leaf>>(
    alloc: Global,
    mut owners: Items<Owner<X, N>>,
    mut rows: Vec<Row<Thief<X, N>>>,
) -> Result<Items<Offer<X>>, AllocError>
    requires rows { AreRows (λ thief. thief.deck) 0 rows.items (map (λ owner. owner.deck) owners) }
    requires count { length rows.items ≡ length owners }
    requires thieves { AllByRecursion (λ owner. owner.thieves + 1 ≡ length rows.items) owners }
    ensures whole { IfOk result (λ left. WeighTheSame
        ((recalled owners ++ stolen rows.items) ++ left) (made_of owners)) }
    ensures known { IfOk result (AllByRecursion (IsTrueOffer N.offers)) }
{
    let mut left = Items::new(alloc);
    while let Some(owner) = owners.take_last() {
        let thieves = take_column(alloc, &mut rows, owners.count())?;
        let mut more = close_deck(alloc, owner, thieves)?;
        left.append(&mut more)?;
    }
    Ok(left)
}
