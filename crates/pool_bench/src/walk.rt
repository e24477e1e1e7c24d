use crate::tree::{Shares, Tree};
use generators::{Generator, Turn};
use split_paths::{Event, Offer, Outcome, Path};
use std::alloc::{AllocError, Global};

/// What a walk hands out, in path order.
#[derive(Drop)]
pub(crate) struct Answer {
    pub(crate) pairs: Vec<(Path, u32)>,
    /// The path of the leaf that stopped it.
    pub(crate) stop: Option<Path>,
    /// How many events were met.
    pub(crate) events: u64,
}

impl Answer {
    fn new(alloc: Global) -> Answer {
        Answer {
            pairs: Vec::new(alloc),
            stop: None,
            events: 0,
        }
    }

    /// Adds an event, and tells whether the answer ends at it.
    fn note(&mut self, event: Event<u32>) -> Result<bool, AllocError> {
        self.events = self.events.saturating_add(1);
        match event {
            Event::Split { .. } => Ok(false),
            Event::Leaf { path, outcome } => match outcome {
                Outcome::Gone => Ok(false),
                Outcome::Chain(leaf) => {
                    self.pairs.push((path, leaf))?;
                    Ok(false)
                }
                Outcome::Steps | Outcome::TooWide => {
                    self.stop = Some(path);
                    Ok(true)
                }
            },
        }
    }
}

/// The answer of a tree, by a walk on one thread.
pub(crate) fn walked(alloc: Global, tree: Tree) -> Result<Answer, AllocError> {
    let splitter = Shares { wide: tree.wide };
    let root = Offer::<Shares> {
        path: Path::root(alloc),
        steps: tree.steps,
        task: tree.task,
    };
    let mut generator = Generator::of(alloc, root)?;
    let mut answer = Answer::new(alloc);
    loop {
        match generator.turn(&splitter) {
            Ok(Turn::Quiet) => {}
            Ok(Turn::Event(event)) => {
                if answer.note(event)? {
                    return Ok(answer);
                }
            }
            Ok(Turn::Done) => return Ok(answer),
            Err(_) => return Err(AllocError),
        }
    }
}
