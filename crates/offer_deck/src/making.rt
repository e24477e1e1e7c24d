ghost use Rattle.std.specs.Prelude.{◌≤◌, [], IfOk};
ghost use Rattle.split_paths.specs.Key.{IsTreeKey};
ghost use Rattle.offer_deck.specs.Dealt.{AreNewThieves};
ghost use Rattle.offer_deck.specs.Views.{IsNewDeck};

use crate::desk::Desk;
use crate::owner::Owner;
use crate::thief::Thief;
use split_paths::{Named, Splitter};
use std::alloc::{AllocError, Global};

/// A deck with room for so many offers in all, and so many thieves of it.
pub fn deck_new<X: Splitter, N: Named<X::Task, X::Leaf>>(
    alloc: Global,
    room: u32,
    thieves: u32,
) -> Result<(Owner<X, N>, Vec<Thief<X, N>>), AllocError>
    requires key { IsTreeKey N.events N.offers }
    requires room { (1 ≤ room) × (room ≤ 65536) }
    requires thieves { thieves ≤ 15 }
    ensures { IfOk result (λ made. IsNewDeck made.0 made.1.items room thieves) }
{
    let desk = Desk::new(alloc, room)?;
    let (desk, dealt) = with_thieves(alloc, desk, thieves);
    match dealt {
        Ok(all) => Ok((Owner { desk }, all)),
        Err(error) => {
            drop(desk);
            Err(error)
        }
    }
}

fn with_thieves<X: Splitter, N: Named<X::Task, X::Leaf>>(
    alloc: Global,
    mut desk: Desk<X, N>,
    count: u32,
) -> (Desk<X, N>, Result<Vec<Thief<X, N>>, AllocError>)
    requires { AreNewThieves desk [] desk.room 0 }
    ensures { IfOk result.1 (λ all. AreNewThieves result.0 all.items desk.room count) }
{
    let dealt = deal(alloc, &mut desk, count);
    (desk, dealt)
}

/// The thieves of a new deck.
fn deal<X: Splitter, N: Named<X::Task, X::Leaf>>(
    alloc: Global,
    desk: &mut Desk<X, N>,
    count: u32,
) -> Result<Vec<Thief<X, N>>, AllocError>
    requires { AreNewThieves desk.old [] desk.old.room 0 }
    ensures { IfOk result (λ all. AreNewThieves desk.new all.items desk.old.room count) }
{
    let mut all = Vec::new(alloc);
    for _ in 0..count {
        let thief = desk.thief()?;
        all.push(thief)?;
    }
    Ok(all)
}
