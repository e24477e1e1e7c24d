//! How the workers of a new run are seated.
ghost use Rattle.std.specs.Prelude.{◌≡◌, ◌≤◌, [], length, map, IfOk};
ghost use Rattle.std.specs.List.{AllByRecursion};
ghost use Rattle.event_lanes.specs.Posts.{AreNumbered};
ghost use Rattle.event_lanes.specs.Views.{back_of};
ghost use Rattle.split_paths.specs.Key.{IsTreeKey};
ghost use Rattle.work_pool.specs.Seats.{AreDesks, IsNewOwner, Stock};

use crate::column::{Row, push_row, take_column};
use crate::homes::Home;
use event_lanes::{Hub, Lane};
use item_lists::Items;
use offer_deck::{Owner, Thief, deck_new};
use split_paths::{Named, Splitter};
use std::alloc::{AllocError, Global};

/// How many offers may be made on one deck.
const DECK_ROOM: u32 = 4096;

/// A deck for each of so many workers, and of each deck a thief for each other worker.
pub(crate) fn new_decks<X: Splitter, N: Named<X::Task, X::Leaf>>(
    alloc: Global,
    workers: u32,
) -> Result<(Items<Owner<X, N>>, Vec<Row<Thief<X, N>>>), AllocError>
    requires key { IsTreeKey N.events N.offers }
    requires workers { (1 ≤ workers) × (workers ≤ 16) }
    ensures count { IfOk result (λ made. length made.0 ≡ workers) }
    ensures owners { IfOk result (λ made. AllByRecursion (IsNewOwner workers) made.0) }
    ensures stock { IfOk result (λ made. Stock workers 0
        (map (λ owner. owner.deck) made.0) made.1.items) }
{
    let mut owners = Items::new(alloc);
    let mut columns = Vec::new(alloc);
    for _ in 0..workers {
        let Ok((owner, thieves)) = deck_new(alloc, DECK_ROOM, workers - 1) else {
            return Err(AllocError);
        };
        owners.push(owner)?;
        push_row(&mut columns, thieves)?;
    }
    Ok((owners, columns))
}

/// Gives each worker its lane, its deck and a thief of each other deck, the last worker first.
pub(crate) fn seat<X: Splitter, N: Named<X::Task, X::Leaf>>(
    alloc: Global,
    hub: &Hub<X, N>,
    mut lanes: Vec<Lane<X, N>>,
    mut owners: Items<Owner<X, N>>,
    mut columns: Vec<Row<Thief<X, N>>>,
) -> Result<Items<Home<X, N>>, AllocError>
    requires hub { AllByRecursion (λ lane. lane.hub ≡ hub.now.name) lanes.items }
    requires numbered { AreNumbered 0 (map back_of lanes.items) }
    requires empty { AllByRecursion (λ lane. lane.put ≡ []) lanes.items }
    requires count { length lanes.items ≡ length owners }
    requires owners { AllByRecursion (IsNewOwner (length owners)) owners }
    requires stock { Stock (length owners) 0 (map (λ owner. owner.deck) owners) columns.items }
    ensures desks { IfOk result (AreDesks hub.now.name (map (λ owner. owner.deck) owners) 0) }
    ensures count { IfOk result (λ desks. length desks ≡ length owners) }
{
    let mut desks = Items::new(alloc);
    while let Some(owner) = owners.take_last() {
        let Some(lane) = lanes.pop() else {
            unreachable!()
        };
        let thieves = take_column(alloc, &mut columns, owners.count())?;
        let desk = Home {
            lane,
            owner,
            thieves,
            event: None,
            generator: None,
            aside: Items::new(alloc),
            offer: None,
        };
        desks.push_front(desk)?;
    }
    Ok(desks)
}
