ghost use Rattle.std.specs.Prelude.{◌≡◌, ◌≤◌, ◌∷◌, [], length, IfOk};
ghost use Rattle.std.specs.List.{AllByRecursion};
ghost use Rattle.split_paths.specs.Key.{IsTrueOffer, IsTreeKey};
ghost use Rattle.offer_deck.specs.Fourfold.{fourfold_child};

use crate::{Owner, Sole, Steal, Thief, deck_new};
use split_paths::{Named, Offer, Path, Splitter, Step};
use std::alloc::{AllocError, Global};
use std::marker::Brand;
use std::process::Abort;
use std::sync::Wait;
use std::test::Fail;

/// A splitter that gives each task back as a leaf.
#[derive(Drop)]
struct Emitter;

impl Splitter for Emitter {
    type Task = u32;

    type Leaf = u32;

    ghost use Rattle.split_paths.specs.declared.splitter.Step.TheVariants.{Emit};

    ghost step = { λ splitter task. Emit task };

    ghost lawful_task = { λ splitter task. Unit {0} };

    ghost lawful_leaf = { λ splitter leaf. Unit {0} };

    ghost keeps_lawful = { λ splitter task lawful. tt };

    fn expand(&self, _alloc: Global, task: u32) -> Result<Step<u32, u32>, AllocError> {
        Ok(Step::Emit(task))
    }
}

fn is_sent<T: Send>(_: &T) {}

/// Both ends of a deck are moved between threads, where tasks and leaves can be.
fn crosses<X: Splitter, N: Named<X::Task, X::Leaf>>(
    owner: &Owner<X, N>,
    thief: &Thief<X, N>,
    sole: &Sole<X, N>,
)
where
    X: Send + Sync,
    N: Send + Sync,
    X::Task: Send,
    X::Leaf: Send,
{
    is_sent(owner);
    is_sent(thief);
    is_sent(sole);
}

/// The offer of a child.
fn child(alloc: Global, n: u32) -> Result<Offer<Emitter>, AllocError>
    requires { 1 ≤ n }
    ensures { IfOk result (λ offer. offer ≡ fourfold_child n) }
{
    let path = Path::root(alloc).child(n)?;
    Ok(Offer {
        path,
        steps: 1,
        task: n,
    })
}

fn is_child(offer: &Offer<Emitter>, n: u32) -> bool {
    offer.path.items() == [n].as_slice() && offer.steps == 1 && offer.task == n
}

/// There is room for the offer.
fn offers<N: Named<u32, u32>, R: Abort>(
    rt: &R,
    owner: &mut Owner<Emitter, N>,
    offer: Offer<Emitter>,
)
    requires { IsTrueOffer N.offers offer }
    ensures deck { owner.new.deck ≡ owner.old.deck }
    ensures thieves { owner.new.thieves ≡ owner.old.thieves }
{
    if let Err(_) = owner.offer(offer) {
        panic!(rt; "there is room for an offer");
    }
}

/// There is no room for the offer, which comes back.
fn is_handed_back<N: Named<u32, u32>, R: Abort>(
    rt: &R,
    owner: &mut Owner<Emitter, N>,
    offer: Offer<Emitter>,
    n: u32,
)
    requires { IsTrueOffer N.offers offer }
    ensures { owner.new ≡ owner.old }
{
    let Err(back) = owner.offer(offer) else {
        panic!(rt; "there is no room for an offer");
    };
    assert!(rt; is_child(&back, n));
}

/// The owner takes the offer of a child.
fn recalls<N: Named<u32, u32>, R: Abort>(rt: &R, owner: &mut Owner<Emitter, N>, n: u32)
    ensures deck { owner.new.deck ≡ owner.old.deck }
    ensures thieves { owner.new.thieves ≡ owner.old.thieves }
{
    let Some(offer) = owner.recall() else {
        panic!(rt; "there is an offer");
    };
    assert!(rt; is_child(&offer, n));
}

/// The thief takes the offer of a child.
fn steals<N: Named<u32, u32>, R: Wait + Abort>(rt: &R, thief: &mut Thief<Emitter, N>, n: u32)
    ensures { thief.new.deck ≡ thief.old.deck }
{
    let Steal::Got(offer) = thief.steal(rt) else {
        panic!(rt; "there is an offer");
    };
    assert!(rt; is_child(&offer, n));
}

/// There is no offer for the thief.
fn steals_none<N: Named<u32, u32>, R: Wait + Abort>(rt: &R, thief: &mut Thief<Emitter, N>)
    ensures { thief.new ≡ thief.old }
{
    if let Steal::Got(_) = thief.steal(rt) {
        panic!(rt; "there is no offer");
    }
}

/// The owner sees whether its deck is empty.
fn sees<N: Named<u32, u32>, R: Abort>(rt: &R, owner: &mut Owner<Emitter, N>, empty: bool)
    ensures { owner.new ≡ owner.old }
{
    assert!(rt; owner.is_empty() == empty);
}

/// A thief takes the first of two offers, and the owner the second.
fn share<N: Named<u32, u32>, R: Wait + Abort>(
    rt: &R,
    owner: &mut Owner<Emitter, N>,
    thief: &mut Thief<Emitter, N>,
    first: Offer<Emitter>,
    second: Offer<Emitter>,
)
    requires first { IsTrueOffer N.offers first }
    requires second { IsTrueOffer N.offers second }
    ensures deck { owner.new.deck ≡ owner.old.deck }
    ensures thieves { owner.new.thieves ≡ owner.old.thieves }
    ensures thief { thief.new.deck ≡ thief.old.deck }
{
    sees(rt, owner, true);
    offers(rt, owner, first);
    offers(rt, owner, second);
    steals(rt, thief, 1);
    sees(rt, owner, false);
    recalls(rt, owner, 2);
    sees(rt, owner, true);
    steals_none(rt, thief);
}

/// The third offer fills the deck.
fn fill<N: Named<u32, u32>, R: Abort>(
    rt: &R,
    owner: &mut Owner<Emitter, N>,
    third: Offer<Emitter>,
    fourth: Offer<Emitter>,
)
    requires third { IsTrueOffer N.offers third }
    requires fourth { IsTrueOffer N.offers fourth }
    ensures deck { owner.new.deck ≡ owner.old.deck }
    ensures thieves { owner.new.thieves ≡ owner.old.thieves }
{
    offers(rt, owner, third);
    is_handed_back(rt, owner, fourth, 4);
}

/// The deck is closed, and the third offer is left.
fn ends<N: Named<u32, u32>, R: Abort>(
    rt: &R,
    owner: Owner<Emitter, N>,
    thieves: Vec<Thief<Emitter, N>>,
)
    requires deck { AllByRecursion (λ thief. thief.deck ≡ owner.deck) thieves.items }
    requires all { length thieves.items ≡ owner.thieves }
{
    let mut sole = owner.close(thieves);
    let Some(offer) = sole.recall() else {
        panic!(rt; "an offer is left");
    };
    assert!(rt; is_child(&offer, 3));
    assert!(rt; sole.recall().is_none());
}

fn only<N: Named<u32, u32>, R: Abort>(rt: &R, thieves: Vec<Thief<Emitter, N>>) -> Thief<Emitter, N>
    requires { length thieves.items ≡ 1 }
    ensures { thieves.items ≡ result ∷ [] }
{
    let mut thieves = thieves;
    thieves.pop().expect(rt, "a thief")
}

fn trade<N: Named<u32, u32>, R: Wait + Abort>(
    rt: &R,
    alloc: Global,
    early: (Offer<Emitter>, Offer<Emitter>),
    late: (Offer<Emitter>, Offer<Emitter>),
) -> Result<(), AllocError>
    requires key { IsTreeKey N.events N.offers }
    requires early { IsTrueOffer N.offers early.0 × IsTrueOffer N.offers early.1 }
    requires late { IsTrueOffer N.offers late.0 × IsTrueOffer N.offers late.1 }
{
    let (mut owner, thieves) = deck_new::<Emitter, N>(alloc, 3, 1)?;
    let mut thief = only(rt, thieves);
    let (first, second) = early;
    share(rt, &mut owner, &mut thief, first, second);
    let (third, fourth) = late;
    fill(rt, &mut owner, third, fourth);
    let thieves = vec![in alloc; thief]?;
    ends(rt, owner, thieves);
    Ok(())
}

#[test]
fn a_thief_and_its_owner_take_each_offer_once(rt: HostRuntime) -> Result<(), Fail> {
    let early = (child(rt.alloc(), 1)?, child(rt.alloc(), 2)?);
    let late = (child(rt.alloc(), 3)?, child(rt.alloc(), 4)?);
    trade::<Brand, HostRuntime>(&rt, rt.alloc(), early, late)?;
    Ok(())
}
