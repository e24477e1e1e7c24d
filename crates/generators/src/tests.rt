ghost use Rattle.std.specs.Prelude.{◌≡◌, ◌++◌, IfOk, string_bytes};
ghost use Rattle.split_paths.specs.Tree.{events_to_come};
ghost use Rattle.generators.specs.Turns.{AreLawful};

use crate::{Generator, Starved, Turn};
use split_paths::{Event, Offer, Outcome, Path, Splitter, Step, Tasks};
use std::alloc::{AllocError, Global};
use std::test::Fail;

/// A splitter of numbers: 0 is nothing, 1 is solved, 2 doesn't fit, 3 has the child 0, 4 has two
/// children that are solved, and any other has the three numbers before it as children.
#[derive(Drop)]
struct Countdown;

impl Splitter for Countdown {
    type Task = u32;

    type Leaf = u32;

    ghost use Rattle.generators.specs.Countdown.{countdown, countdown_is_lawful};

    ghost step = { λ splitter task. countdown task };

    ghost lawful_task = { λ splitter task. Unit {0} };

    ghost lawful_leaf = { λ splitter leaf. Unit {0} };

    ghost keeps_lawful = { λ splitter task lawful. countdown_is_lawful task };

    fn expand(&self, alloc: Global, task: u32) -> Result<Step<u32, u32>, AllocError> {
        let mut kids = Tasks::new(alloc);
        match task {
            0 => return Ok(Step::Gone),
            1 => return Ok(Step::Emit(task)),
            2 => return Ok(Step::TooWide),
            3 => kids.push(0)?,
            4 => {
                kids.push(1)?;
                kids.push(1)?;
            }
            _ => {
                kids.push(task - 1)?;
                kids.push(task - 2)?;
                kids.push(task - 3)?;
            }
        }
        Ok(Step::Kids(kids))
    }
}

fn is_sent<T: Send>(_: &T) {}

fn is_shared<T: Sync>(_: &T) {}

/// What is moved between threads and shared by them, where tasks and leaves can be.
fn crosses<X: Splitter>(generator: &Generator<X>, turn: &Turn<X::Leaf>, starved: &Starved)
where
    X::Task: Send + Sync,
    X::Leaf: Send + Sync,
{
    is_sent(generator);
    is_shared(generator);
    is_sent(turn);
    is_shared(turn);
    is_sent(starved);
    is_shared(starved);
}

#[test]
fn a_generator_crosses_threads(rt: HostRuntime) -> Result<(), Fail> {
    let generator = below(rt.alloc(), 1, 1)?;
    let starved = Starved {
        path: Path::root(rt.alloc()),
    };
    crosses(&generator, &Turn::Done, &starved);
    Ok(())
}

/// The generator of the tree below a number.
fn below(alloc: Global, task: u32, steps: u32) -> Result<Generator<Countdown>, AllocError>
    ensures { IfOk result (AreLawful (λ _. Unit {0})) }
{
    let path = Path::root(alloc);
    Generator::of(alloc, Offer { path, steps, task })
}

/// All events that are still to come.
fn walk<X: Splitter>(
    alloc: Global,
    splitter: &X,
    mut generator: Generator<X>,
) -> Result<Vec<Event<X::Leaf>>, AllocError>
    requires { AreLawful (X.lawful_task splitter.now) generator }
    ensures { IfOk result (λ events. events.items ≡ events_to_come (X.step splitter.now) generator) }
{
    let mut events = Vec::new(alloc);
    loop {
        match generator.turn(splitter) {
            Ok(Turn::Quiet) => {}
            Ok(Turn::Event(event)) => events.push(event)?,
            Ok(Turn::Done) => return Ok(events),
            Err(_) => return Err(AllocError),
        }
    }
}

/// An event in words.
fn line(alloc: Global, event: &Event<u32>) -> Result<String, AllocError> {
    match event {
        Event::Split { path, kids } => format!(in alloc; "{} split {kids}", path.text()?),
        Event::Leaf { path, outcome } => {
            let end = match outcome {
                Outcome::Gone => "gone",
                Outcome::Chain(_) => "chain",
                Outcome::Steps => "steps",
                Outcome::TooWide => "wide",
            };
            format!(in alloc; "{} {end}", path.text()?)
        }
    }
}

fn lines(alloc: Global, events: &[Event<u32>]) -> Result<String, AllocError> {
    let mut text = String::new(alloc);
    for event in events {
        text.push_str(&line(alloc, event)?)?;
        text.push('\n')?;
    }
    Ok(text)
}

#[test]
fn all_events_come_in_path_order(rt: HostRuntime) -> Result<(), Fail> {
    for (task, steps, want) in [
        (
            6,
            9,
            "- split 3\n1 split 3\n1.1 split 2\n1.1.1 chain\n1.1.2 chain\n1.2 gone\n1.3 wide\n\
             2 split 2\n2.1 chain\n2.2 chain\n3 gone\n",
        ),
        (
            6,
            2,
            "- split 3\n1 split 3\n1.1 steps\n1.2 steps\n1.3 steps\n2 split 2\n2.1 steps\n\
             2.2 steps\n3 steps\n",
        ),
        (3, 2, "- gone\n"),
        (3, 1, "- steps\n"),
        (1, 1, "- chain\n"),
        (6, 0, "- steps\n"),
    ] {
        let generator = below(rt.alloc(), task, steps)?;
        let events = walk(rt.alloc(), &Countdown, generator)?;
        assert_eq!(rt;
            lines(rt.alloc(), &events)?.as_str(),
            want,
            "at {task} and {steps}"
        );
    }
    Ok(())
}

/// The next turn in words.
fn turn_line(alloc: Global, generator: &mut Generator<Countdown>) -> Result<String, AllocError>
    requires { AreLawful (λ _. Unit {0}) generator.old }
    ensures { AreLawful (λ _. Unit {0}) generator.new }
{
    match generator.turn(&Countdown) {
        Ok(Turn::Quiet) => String::from_str(alloc, "quiet"),
        Ok(Turn::Event(event)) => line(alloc, &event),
        Ok(Turn::Done) => String::from_str(alloc, "done"),
        Err(_) => Err(AllocError),
    }
}

/// What is given, in words.
fn line_of(alloc: Global, given: Option<Offer<Countdown>>) -> Result<String, AllocError> {
    match given {
        Some(offer) => {
            format!(in alloc;
                "{} task {} with {} steps",
                offer.path.text()?,
                offer.task,
                offer.steps
            )
        }
        None => String::from_str(alloc, "nothing"),
    }
}

fn given_line(alloc: Global, generator: &mut Generator<Countdown>) -> Result<String, AllocError>
    requires { AreLawful (λ _. Unit {0}) generator.old }
    ensures { AreLawful (λ _. Unit {0}) generator.new }
{
    let given = generator.give();
    line_of(alloc, given)
}

fn next_line(alloc: Global, generator: &mut Generator<Countdown>) -> Result<String, AllocError> {
    let given = generator.give_next()?;
    line_of(alloc, given)
}

#[test]
fn the_last_waiting_task_is_given(rt: HostRuntime) -> Result<(), Fail> {
    let mut generator = below(rt.alloc(), 4, 9)?;
    assert_eq!(rt; given_line(rt.alloc(), &mut generator)?.as_str(), "nothing");
    assert_eq!(rt;
        turn_line(rt.alloc(), &mut generator)?.as_str(),
        "- split 2"
    );
    assert_eq!(rt;
        given_line(rt.alloc(), &mut generator)?.as_str(),
        "2 task 1 with 8 steps"
    );
    assert_eq!(rt; given_line(rt.alloc(), &mut generator)?.as_str(), "nothing");
    assert_eq!(rt; turn_line(rt.alloc(), &mut generator)?.as_str(), "1 chain");
    assert_eq!(rt; turn_line(rt.alloc(), &mut generator)?.as_str(), "done");
    Ok(())
}

#[test]
fn the_second_waiting_task_is_given_next(rt: HostRuntime) -> Result<(), Fail> {
    let mut generator = below(rt.alloc(), 5, 9)?;
    assert_eq!(rt; next_line(rt.alloc(), &mut generator)?.as_str(), "nothing");
    assert_eq!(rt;
        turn_line(rt.alloc(), &mut generator)?.as_str(),
        "- split 3"
    );
    assert_eq!(rt;
        next_line(rt.alloc(), &mut generator)?.as_str(),
        "2 task 3 with 8 steps"
    );
    assert_eq!(rt;
        next_line(rt.alloc(), &mut generator)?.as_str(),
        "3 task 2 with 8 steps"
    );
    assert_eq!(rt; next_line(rt.alloc(), &mut generator)?.as_str(), "nothing");
    Ok(())
}

#[test]
fn what_waits_is_told_without_a_step(rt: HostRuntime) -> Result<(), Fail> {
    let mut generator = below(rt.alloc(), 3, 9)?;
    assert_eq!(rt; generator.count(), 1);
    assert_eq!(rt; turn_line(rt.alloc(), &mut generator)?.as_str(), "quiet");
    assert!(rt; !generator.is_done());
    assert_eq!(rt; turn_line(rt.alloc(), &mut generator)?.as_str(), "- gone");
    assert!(rt; generator.is_done());
    Ok(())
}
