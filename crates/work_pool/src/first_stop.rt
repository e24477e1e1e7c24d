//! A branch at which the answer stops, as a hint of what is not needed.
use crossbeam_utils::CachePadded;
use split_paths::{Event, Outcome, Path};
use std::sync::atomic::{AtomicBool, Ordering};
use std::sync::{Mutex, Wait};

/// The first branch in path order that is known to stop the answer, if one is.
///
/// The answer ends there or before, so nothing that comes after it is needed.
#[derive(Drop)]
pub(crate) struct FirstStop {
    /// Read without the lock as long as no stop is known, which is nearly always.
    is_known: CachePadded<AtomicBool>,
    path: Mutex<Option<Path>>,
}

impl FirstStop {
    /// No stop is known.
    pub(crate) fn new() -> FirstStop {
        FirstStop {
            is_known: CachePadded::new(AtomicBool::new(false)),
            path: Mutex::new(None),
        }
    }

    /// Notes an event that stops the answer. Without memory for its path it is left out.
    pub(crate) fn note<R: Wait, L>(&self, rt: &R, event: &Event<L>) {
        let path = match event {
            Event::Leaf {
                path,
                outcome: Outcome::Steps | Outcome::TooWide,
            } => path,
            _ => return,
        };
        if let Ok(path) = path.clone() {
            self.keep_first(rt, path);
        }
    }

    /// Keeps the path, unless one that comes before it is known.
    fn keep_first<R: Wait>(&self, rt: &R, path: Path) {
        let mut known = self.path.lock(rt);
        match &*known {
            Some(stop) if *stop <= path => {}
            _ => *known = Some(path),
        }
        self.is_known.store(true, Ordering::SeqCst);
    }

    /// Whether a known stop stands at this path or before it.
    pub(crate) fn is_reached<R: Wait>(&self, rt: &R, path: &Path) -> bool {
        if !self.is_known.load(Ordering::SeqCst) {
            return false;
        }
        match &*self.path.lock(rt) {
            Some(stop) => *stop <= *path,
            None => false,
        }
    }
}

#[cfg(test)]
mod tests {
    use super::*;
    use split_paths::Event;
    use std::test::Fail;

    #[test]
    fn the_first_of_several_stops_is_kept(rt: HostRuntime) -> Result<(), Fail> {
        let root = Path::root(rt.alloc());
        let (first, second) = (root.child(1)?, root.child(2)?);
        let stop = FirstStop::new();
        let met = |path: Path, outcome: Outcome<u32>| Event::Leaf { path, outcome };
        stop.note(&rt, &met(first.clone()?, Outcome::Chain(4)));
        assert!(rt; !stop.is_reached(&rt, &second));
        stop.note(&rt, &met(second.clone()?, Outcome::TooWide));
        assert!(rt; !stop.is_reached(&rt, &first));
        assert!(rt; stop.is_reached(&rt, &second));
        stop.note(&rt, &met(first.clone()?, Outcome::Steps));
        stop.note(&rt, &met(second.clone()?, Outcome::Steps));
        assert!(rt; stop.is_reached(&rt, &first));
        assert!(rt; !stop.is_reached(&rt, &root));
        Ok(())
    }
}
