ghost use Rattle.std.specs.Prelude.{◌≡◌, ◌++◌, OnOk};
ghost use Rattle.std.specs.Option.{option_to_list};
ghost use Rattle.work_pool.specs.Homes.{no_homes, with_home};

use crate::column::Row;
use event_lanes::Lane;
use generators::Generator;
use item_lists::Items;
use offer_deck::{Owner, Thief};
use split_paths::{Event, Named, Offer, Splitter};
use std::alloc::{AllocError, Global};
use std::marker::Model;

/// What one worker hands back.
#[derive(Drop)]
pub(crate) struct Home<X: Splitter, N: Named<X::Task, X::Leaf>> {
    pub(crate) lane: Lane<X, N>,
    pub(crate) owner: Owner<X, N>,
    pub(crate) thieves: Vec<Thief<X, N>>,
    pub(crate) event: Option<Event<X::Leaf>>,
    pub(crate) generator: Option<Generator<X>>,
    /// Generators of which no turn is needed, as far as is known.
    pub(crate) aside: Items<Generator<X>>,
    pub(crate) offer: Option<Offer<X>>,
}

impl<X: Splitter, N: Named<X::Task, X::Leaf>> Model for Home<X, N> {
    ghost use Rattle.std.specs.Option.{option_to_list};
    ghost use Rattle.std.specs.Prelude.{◌++◌};
    ghost use Rattle.work_pool.specs.Homes.{HomeView};

    ghost Value = { HomeView X.Task X.Leaf };

    ghost view = { λ home. record {
      lane = home.lane;
      owner = home.owner;
      thieves = home.thieves.items;
      events = option_to_list home.event;
      waiting = option_to_list home.generator ++ home.aside;
      offers = option_to_list home.offer;
    } };
}

/// What the workers handed back, in their order.
#[derive(Drop)]
pub(crate) struct Homes<X: Splitter, N: Named<X::Task, X::Leaf>> {
    pub(crate) lanes: Vec<Lane<X, N>>,
    pub(crate) owners: Items<Owner<X, N>>,
    pub(crate) rows: Vec<Row<Thief<X, N>>>,
    pub(crate) events: Items<Event<X::Leaf>>,
    pub(crate) waiting: Items<Generator<X>>,
    pub(crate) offers: Items<Offer<X>>,
}

impl<X: Splitter, N: Named<X::Task, X::Leaf>> Model for Homes<X, N> {
    ghost use Rattle.work_pool.specs.Homes.{HomesView};

    ghost Value = { HomesView X.Task X.Leaf };

    ghost view = { λ homes. record {
      lanes = homes.lanes.items;
      owners = homes.owners;
      rows = homes.rows.items;
      events = homes.events;
      waiting = homes.waiting;
      offers = homes.offers;
    } };
}

/// Adds an item, if there is one.
fn push_some<A: Drop>(list: &mut Items<A>, item: Option<A>) -> Result<(), AllocError>
    ensures { OnOk result (list.new ≡ list.old ++ option_to_list item) }
{
    match item {
        Some(item) => list.push(item),
        None => Ok(()),
    }
}

impl<X: Splitter, N: Named<X::Task, X::Leaf>> Homes<X, N> {
    /// No home.
    pub(crate) fn new(alloc: Global) -> Homes<X, N>
        ensures { result ≡ no_homes }
    {
        Homes {
            lanes: Vec::new(alloc),
            owners: Items::new(alloc),
            rows: Vec::new(alloc),
            events: Items::new(alloc),
            waiting: Items::new(alloc),
            offers: Items::new(alloc),
        }
    }

    /// Adds the next worker's home.
    pub(crate) fn add(&mut self, home: Home<X, N>) -> Result<(), AllocError>
        ensures { OnOk result (self.new ≡ with_home self.old home) }
    {
        let Home {
            lane,
            owner,
            thieves,
            event,
            generator,
            mut aside,
            offer,
        } = home;
        self.lanes.push(lane)?;
        self.owners.push(owner)?;
        self.rows.push(Row::of(thieves))?;
        push_some(&mut self.events, event)?;
        push_some(&mut self.waiting, generator)?;
        self.waiting.append(&mut aside)?;
        push_some(&mut self.offers, offer)?;
        Ok(())
    }
}
