ghost use Rattle.split_paths.specs.Key.{IsTrueOffer};
ghost use Rattle.lanes_bench.specs.OneLeaf.{only_offers};

use crate::mark::{Emitter, Mark, OneLeaf, Owner, Thief};
use offer_deck::{Steal, deck_new};
use split_paths::Offer;
use std::alloc::{AllocError, Global};
use std::sync::Wait;

pub(crate) const THREADS: u32 = 4;

/// How many offers a deck takes in all.
const DECK_ROOM: u32 = 65536;

/// What a thread holds of the decks: its own, a thief of each other, and what it took.
#[derive(Drop)]
pub(crate) struct Hands {
    pub(crate) thread: u32,
    pub(crate) owner: Owner,
    pub(crate) thieves: Vec<Thief>,
    pub(crate) taken: Vec<Mark>,
}

impl Hands {
    fn new(
        alloc: Global,
        thread: u32,
        owner: Owner,
        others: (&mut Vec<Thief>, &mut Vec<Thief>, &mut Vec<Thief>),
    ) -> Result<Hands, AllocError> {
        let mut thieves = Vec::new(alloc);
        let (first, second, third) = others;
        if let (Some(one), Some(two), Some(three)) = (first.pop(), second.pop(), third.pop()) {
            thieves.push(one)?;
            thieves.push(two)?;
            thieves.push(three)?;
        }
        Ok(Hands {
            thread,
            owner,
            thieves,
            taken: Vec::new(alloc),
        })
    }

    /// Takes an offer of another thread, if there is one.
    fn steal<R: Wait>(&mut self, rt: &R, number: u32) -> Option<Offer<Emitter>> {
        let thief = self.thieves.get_mut(number as usize % 3)?;
        match thief.steal(rt) {
            Steal::Got(offer) => Some(offer),
            Steal::Empty => None,
        }
    }

    /// Takes an offer from its own deck or from another's.
    fn take<R: Wait>(&mut self, rt: &R, number: u32) -> Option<Offer<Emitter>> {
        if number % 4 == 0 {
            self.owner.recall()
        } else {
            self.steal(rt, number)
        }
    }

    /// Makes an offer, and takes one.
    pub(crate) fn trade<R: Wait>(
        &mut self,
        rt: &R,
        offer: Offer<Emitter>,
        number: u32,
    ) -> Result<(), AllocError>
        requires { IsTrueOffer only_offers offer }
    {
        if let Err(back) = self.owner.offer(offer) {
            self.taken.push(back.task)?;
        }
        if let Some(offer) = self.take(rt, number) {
            self.taken.push(offer.task)?;
        }
        Ok(())
    }
}

/// What each thread holds, in the order of their numbers.
#[tactic(auto, using(crate::proofs::OneLeaf::one_leaf))]
pub(crate) fn all_hands(alloc: Global) -> Result<Vec<Hands>, AllocError> {
    let (a, mut of_a) = deck_new::<Emitter, OneLeaf>(alloc, DECK_ROOM, 3)?;
    let (b, mut of_b) = deck_new::<Emitter, OneLeaf>(alloc, DECK_ROOM, 3)?;
    let (c, mut of_c) = deck_new::<Emitter, OneLeaf>(alloc, DECK_ROOM, 3)?;
    let (d, mut of_d) = deck_new::<Emitter, OneLeaf>(alloc, DECK_ROOM, 3)?;
    let mut all = Vec::new(alloc);
    all.push(Hands::new(alloc, 0, a, (&mut of_b, &mut of_c, &mut of_d))?)?;
    all.push(Hands::new(alloc, 1, b, (&mut of_a, &mut of_c, &mut of_d))?)?;
    all.push(Hands::new(alloc, 2, c, (&mut of_a, &mut of_b, &mut of_d))?)?;
    all.push(Hands::new(alloc, 3, d, (&mut of_a, &mut of_b, &mut of_c))?)?;
    Ok(all)
}
