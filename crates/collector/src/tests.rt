ghost use Rattle.std.specs.Prelude.{◌≡◌, [], ◌++◌, IfOk, IfSome, OnOk, All};
ghost use Rattle.split_paths.specs.Key.{IsTreeKey, IsTrueEvent};
ghost use Rattle.collector.specs.Notes.{IsCollector};
ghost use Rattle.collector.specs.Samples.{brush_events, fork_events};

use crate::{Advance, Collector};
use split_paths::{Event, Named, Outcome, Path, Splitter, Step};
use std::alloc::{AllocError, Global};
use std::fmt::Write;
use std::marker::Brand;
use std::test::Fail;

/// A splitter that isn't asked for any step: the tests note the events themselves.
#[derive(Drop)]
struct Still;

impl Splitter for Still {
    type Task = u32;

    type Leaf = u32;

    ghost use Rattle.split_paths.specs.declared.splitter.Step.TheVariants.{Gone};

    ghost step = { λ splitter task. Gone };

    ghost lawful_task = { λ splitter task. Unit {0} };

    ghost lawful_leaf = { λ splitter leaf. Unit {0} };

    ghost keeps_lawful = { λ splitter task lawful. tt };

    fn expand(&self, _alloc: Global, _task: u32) -> Result<Step<u32, u32>, AllocError> {
        Ok(Step::Gone)
    }
}

fn is_sent<T: Send>(_: &T) {}

fn is_shared<T: Sync>(_: &T) {}

/// What is moved between threads and shared by them, where leaves and the key can be.
fn crosses<X: Splitter, N: Named<X::Task, X::Leaf> + Send + Sync>(
    collector: &Collector<X, N>,
    answer: &Advance<X::Leaf>,
)
where
    X::Leaf: Send + Sync,
{
    is_sent(collector);
    is_shared(collector);
    is_sent(answer);
    is_shared(answer);
}

/// The numbers of a path, joined by points, or a hyphen.
fn joined(alloc: Global, numbers: &[u32]) -> Result<String, AllocError> {
    let Some((first, others)) = numbers.split_first() else {
        return String::from_str(alloc, "-");
    };
    let mut text = format!(in alloc; "{first}")?;
    for number in others {
        write!(text, ".{number}")?;
    }
    Ok(text)
}

/// Advances as far as it goes, and writes what was answered, a line each; that it waits, if asked to.
fn advance_all<N: Named<u32, u32> + Send + Sync>(
    alloc: Global,
    collector: &mut Collector<Still, N>,
    waits: bool,
    text: &mut String,
) -> Result<(), AllocError>
    requires { IsCollector N.events collector.old }
    ensures { IsCollector N.events collector.new }
{
    loop {
        let answer = collector.advance();
        crosses(collector, &answer);
        match answer {
            Advance::Item(path, leaf) => write!(text, "{} {leaf}\n", path.text()?)?,
            Advance::Waiting => {
                if waits {
                    write!(text, "waits {}\n", joined(alloc, collector.cursor())?)?;
                }
                return Ok(());
            }
            Advance::Finished => {
                text.push_str("finished\n")?;
                return Ok(());
            }
            Advance::Stopped(_) => {
                text.push_str("stopped\n")?;
                return Ok(());
            }
        }
    }
}

/// Takes an event away, the one at this place counted round.
fn take_at<N: Named<u32, u32>>(events: &mut Vec<Event<u32>>, k: u32) -> Option<Event<u32>>
    requires { All (IsTrueEvent N.events) events.old.items }
    ensures left { All (IsTrueEvent N.events) events.new.items }
    ensures event { IfSome result (IsTrueEvent N.events) }
{
    if events.is_empty() {
        return None;
    }
    let place = k as usize % events.len();
    Some(events.remove(place))
}

/// Notes the events of a tree in an order, and advances after each as far as it goes.
fn walk<N: Named<u32, u32> + Send + Sync>(
    alloc: Global,
    mut events: Vec<Event<u32>>,
    order: &[u32],
    waits: bool,
) -> Result<String, AllocError>
    requires key { IsTreeKey N.events N.offers }
    requires events { events.items ≡ N.events }
{
    let mut collector = Collector::<Still, N>::new(alloc);
    let mut text = String::new(alloc);
    for k in order {
        let Some(event) = take_at::<N>(&mut events, *k) else {
            break;
        };
        collector.note(event)?;
        advance_all(alloc, &mut collector, waits, &mut text)?;
    }
    Ok(text)
}

fn leaf(path: Path, outcome: Outcome<u32>) -> Event<u32>
    ensures { result ≡ Event.Leaf path outcome }
{
    Event::Leaf { path, outcome }
}

fn split(path: Path, kids: u32) -> Event<u32>
    ensures { result ≡ Event.Split path kids }
{
    Event::Split { path, kids }
}

/// A root with two children, of which the first has two.
fn fork(alloc: Global) -> Result<Vec<Event<u32>>, AllocError>
    ensures { IfOk result (λ events. events.items ≡ fork_events) }
{
    let root = Path::root(alloc);
    let first = root.child(1)?;
    let second = root.child(2)?;
    let mut events = Vec::new(alloc);
    let (left, right) = (first.child(1)?, first.child(2)?);
    events.push(split(root, 2))?;
    events.push(split(first, 2))?;
    events.push(leaf(left, Outcome::Gone))?;
    events.push(leaf(right, Outcome::Chain(7)))?;
    events.push(leaf(second, Outcome::Gone))?;
    Ok(events)
}

/// At each of n splits a leaf, the next split and nothing; then a split into nothing and a leaf.
fn push_brush(events: &mut Vec<Event<u32>>, path: Path, n: u32) -> Result<(), AllocError>
    ensures { OnOk result (events.new.items ≡ events.old.items ++ brush_events path n) }
{
    let first = path.child(1)?;
    let second = path.child(2)?;
    if n == 0 {
        events.push(split(path, 2))?;
        events.push(leaf(first, Outcome::Gone))?;
        events.push(leaf(second, Outcome::Chain(7)))?;
        return Ok(());
    }
    let third = path.child(3)?;
    events.push(split(path, 3))?;
    events.push(leaf(first, Outcome::Chain(7)))?;
    push_brush(events, second, n - 1)?;
    events.push(leaf(third, Outcome::Gone))?;
    Ok(())
}

fn walk_fork<N: Named<u32, u32> + Send + Sync>(
    alloc: Global,
    order: &[u32],
) -> Result<String, AllocError>
    requires key { IsTreeKey N.events N.offers }
    requires events { N.events ≡ fork_events }
{
    let events = fork(alloc)?;
    walk::<N>(alloc, events, order, true)
}

fn walk_brush<N: Named<u32, u32> + Send + Sync>(
    alloc: Global,
    n: u32,
    order: &[u32],
) -> Result<String, AllocError>
    requires key { IsTreeKey N.events N.offers }
    requires events { N.events ≡ brush_events [] n }
{
    let mut events = Vec::new(alloc);
    push_brush(&mut events, Path::root(alloc), n)?;
    walk::<N>(alloc, events, order, false)
}

#[test]
fn it_waits_for_the_first_event_that_is_missing(rt: HostRuntime) -> Result<(), Fail> {
    let order = [4, 3, 0, 0, 0];
    let text = walk_fork::<Brand>(rt.alloc(), &order)?;
    assert_eq!(rt;
        text.as_str(),
        "waits -\nwaits -\nwaits 1\nwaits 1.1\n1.2 7\nfinished\n"
    );
    Ok(())
}

#[test]
fn six_events_give_one_answer_in_every_order(rt: HostRuntime) -> Result<(), Fail> {
    for i in 0u32..720 {
        let order = [i % 6, i / 6 % 5, i / 30 % 4, i / 120 % 3, i / 360, 0];
        let text = walk_brush::<Brand>(rt.alloc(), 1, &order)?;
        assert_eq!(rt; text.as_str(), "1 7\n2.2 7\nfinished\n", "in order {i}");
    }
    Ok(())
}

#[test]
fn shuffled_events_give_the_answer_in_path_order(rt: HostRuntime) -> Result<(), Fail> {
    let mut order = Vec::new(rt.alloc());
    let mut k: u32 = 1;
    for _ in 0..201 {
        k = k.wrapping_mul(1664525).wrapping_add(1013904223);
        order.push(k >> 16)?;
    }
    let mut want = String::new(rt.alloc());
    let mut front = String::new(rt.alloc());
    for _ in 0..66 {
        write!(want, "{}1 7\n", front.as_str())?;
        front.push_str("2.")?;
    }
    write!(want, "{}2 7\nfinished\n", front.as_str())?;
    let text = walk_brush::<Brand>(rt.alloc(), 66, &order)?;
    assert_eq!(rt; text.as_str(), want.as_str());
    Ok(())
}
