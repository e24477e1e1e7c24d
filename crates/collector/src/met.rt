ghost use Rattle.std.specs.Prelude.{◌≡◌};
ghost use Rattle.split_paths.specs.Walk.{path_of};
ghost use Rattle.collector.specs.Moves.{stop_of};
ghost use Rattle.collector.specs.Notes.{event_of};

use split_paths::{Event, Outcome, Path, Why};

/// What is met at a path.
#[derive(Debug, Drop)]
pub(crate) enum Met<L> {
    /// So many children.
    Split(u32),
    /// Nothing.
    Gone,
    /// A leaf of the answer.
    Chain(L),
    /// What stops the answer.
    Stop(Why),
}

/// Where a walk stands by its cursor.
#[derive(Clone, Copy, Debug)]
pub(crate) enum Position {
    /// The event at the cursor is the next to be met.
    Here,
    /// The event at the cursor was met, and what is below it.
    Passed,
    /// All events were met.
    Ended,
}

impl<L> Met<L> {
    /// What stops the answer here, if anything does.
    pub(crate) fn stop(&self) -> Option<Why>
        ensures { result ≡ stop_of self.now }
    {
        match self {
            Met::Stop(why) => Some(*why),
            _ => None,
        }
    }
}

/// The path of an event.
pub(crate) fn path_at<L>(event: &Event<L>) -> &Path
    ensures { result.now ≡ path_of event.now }
{
    match event {
        Event::Split { path, .. } => path,
        Event::Leaf { path, .. } => path,
    }
}

/// An event's path, and what is met there.
pub(crate) fn parts_of<L>(event: Event<L>) -> (Path, Met<L>)
    ensures event { event_of result.0 result.1 ≡ event }
    ensures path { path_of event ≡ result.0 }
{
    match event {
        Event::Split { path, kids } => (path, Met::Split(kids)),
        Event::Leaf { path, outcome } => {
            let met = match outcome {
                Outcome::Gone => Met::Gone,
                Outcome::Chain(leaf) => Met::Chain(leaf),
                Outcome::Steps => Met::Stop(Why::Steps),
                Outcome::TooWide => Met::Stop(Why::Size),
            };
            (path, met)
        }
    }
}
