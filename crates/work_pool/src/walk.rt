ghost use Rattle.std.specs.Prelude.{◌≡◌, ◌≤◌, IfOk, IfErr};
ghost use Rattle.work_pool.specs.Taken.{IfReady};
ghost use Rattle.std.specs.List.{AllByRecursion};
ghost use Rattle.collector.specs.Notes.{IsCollector, IsNoted, to_give};
ghost use Rattle.work_pool.specs.Noting.{AreNoted};
ghost use Rattle.work_pool.specs.Taken.{Took, IsCut, IsEnd};

use crate::taker::{End, PoolError, Taker};
use collector::{Advance, Collector};
use split_paths::{Named, Path, Splitter, Why};
use std::alloc::{AllocError, Global};

/// The path with these numbers.
fn path_with(alloc: Global, numbers: &[u32]) -> Result<Path, AllocError>
    requires { AllByRecursion (λ i. 1 ≤ i) numbers.now }
    ensures { IfOk result (λ path. path ≡ numbers.now) }
{
    let mut path = Path::root(alloc);
    for number in numbers {
        path = path.child(*number)?;
    }
    Ok(path)
}

/// Hands out the answer, where all events were noted.
#[tactic(auto, using(crate::proofs::Handing::hand_rules))]
pub(crate) fn hand_out<X: Splitter, N: Named<X::Task, X::Leaf>, K: Taker<X::Leaf>>(
    alloc: Global,
    collector: &mut Collector<X, N>,
    each: &mut K,
) -> Result<End, PoolError<K::Fault>>
    requires walk { IsCollector N.events collector.old }
    requires noted { AreNoted N.events collector.old N.events }
    requires may { AllByRecursion (λ pair. K.may each.old pair.1)
        (to_give N.events collector.old).chains }
    ensures took { IfOk result (λ end. Took K.takes each.old
        (to_give N.events collector.old).chains each.new) }
    ensures cut { IfErr result (λ error. IsCut K.takes K.fails each.old
        (to_give N.events collector.old).chains error each.new) }
    ensures end { IfOk result (IsEnd (to_give N.events collector.old).stop) }
{
    loop {
        match collector.advance() {
            Advance::Item(path, leaf) => {
                match each.take(path, leaf) {
                    Ok(()) => {}
                    Err(fault) => return Err(PoolError::Each(fault)),
                }
            }
            Advance::Waiting => unreachable!(),
            Advance::Finished => return Ok(End::Finished),
            Advance::Stopped(why) => {
                return match path_with(alloc, collector.cursor()) {
                    Ok(path) => Ok(End::Stopped(path, why)),
                    Err(_) => Err(PoolError::Memory),
                };
            }
        }
    }
}

/// Hands out what is ready of the answer, and says how it ends where it has ended.
#[tactic(auto, using(crate::proofs::Handing::hand_rules))]
pub(crate) fn hand_ready<X: Splitter, N: Named<X::Task, X::Leaf>, K: Taker<X::Leaf>>(
    alloc: Global,
    collector: &mut Collector<X, N>,
    each: &mut K,
) -> Result<Option<End>, PoolError<K::Fault>>
    requires walk { IsCollector N.events collector.old }
    requires may { AllByRecursion (λ pair. K.may each.old pair.1)
        (to_give N.events collector.old).chains }
    ensures walk { IsCollector N.events collector.new }
    ensures notes { (path : _) → IsNoted N.events collector.old path
        → IsNoted N.events collector.new path }
    ensures ready { IfOk result (λ ready. IfReady K.takes K.fails each.old
        (to_give N.events collector.old) each.new (to_give N.events collector.new) ready) }
    ensures may { IfOk result (λ ready. AllByRecursion (λ pair. K.may each.new pair.1)
        (to_give N.events collector.new).chains) }
    ensures cut { IfErr result (λ error. IsCut K.takes K.fails each.old
        (to_give N.events collector.old).chains error each.new) }
{
    loop {
        match collector.advance() {
            Advance::Item(path, leaf) => {
                match each.take(path, leaf) {
                    Ok(()) => {}
                    Err(fault) => return Err(PoolError::Each(fault)),
                }
            }
            Advance::Waiting => return Ok(None),
            Advance::Finished => return Ok(Some(End::Finished)),
            Advance::Stopped(why) => {
                return match path_with(alloc, collector.cursor()) {
                    Ok(path) => Ok(Some(End::Stopped(path, why))),
                    Err(_) => Err(PoolError::Memory),
                };
            }
        }
    }
}
