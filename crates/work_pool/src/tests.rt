ghost use Rattle.std.specs.Prelude.{◌≡◌, ◌<◌, ◌+◌, [], ◌∷◌, IfOk};

mod trees;

use crate::{End, PoolError, PoolSize, Taker, pool_run};
use split_paths::{Path, Splitter, Step, Tasks};
use std::alloc::{AllocError, Global};
use std::fmt::Write;
use std::sync::Arc;
use std::sync::atomic::{AtomicBool, AtomicU32, Ordering};
use std::test::Fail;
use std::thread::yield_now;

/// A tree of thirteen tasks, which counts how often each is expanded. One of them has no memory.
#[derive(Drop)]
struct Counted {
    counts: Vec<AtomicU32>,
    starved: u32,
}

/// Three tasks, numbered from this one on.
fn three_from(alloc: Global, first: u32) -> Result<Tasks<u32>, AllocError>
    requires { first < 100 }
    ensures { IfOk result (λ tasks. tasks ≡ first ∷ (first + 1) ∷ (first + 2) ∷ []) }
{
    let mut tasks = Tasks::new(alloc);
    tasks.push(first)?;
    tasks.push(first + 1)?;
    tasks.push(first + 2)?;
    Ok(tasks)
}

impl Splitter for Counted {
    type Task = u32;

    type Leaf = u32;

    ghost use Rattle.work_pool.specs.Samples.{thirteen, thirteen_is_lawful};

    ghost step = { λ splitter task. thirteen task };

    ghost lawful_task = { λ splitter task. Unit {0} };

    ghost lawful_leaf = { λ splitter leaf. Unit {0} };

    ghost keeps_lawful = { λ splitter task lawful. thirteen_is_lawful task };

    fn expand(&self, alloc: Global, task: u32) -> Result<Step<u32, u32>, AllocError> {
        if task == self.starved {
            return Err(AllocError);
        }
        if let Some(count) = self.counts.get(task as usize) {
            count.fetch_add(1, Ordering::SeqCst);
        }
        match task {
            0 => Ok(Step::Kids(three_from(alloc, 1)?)),
            1 => Ok(Step::Kids(three_from(alloc, 4)?)),
            2 => Ok(Step::Kids(three_from(alloc, 7)?)),
            3 => Ok(Step::Kids(three_from(alloc, 10)?)),
            _ => Ok(Step::Emit(task)),
        }
    }
}

/// Writes each pair down, a line each, until so many were taken.
#[derive(Drop)]
struct Lines {
    text: String,
    left: u32,
}

#[derive(Debug, Drop)]
enum Refusal {
    Memory,
    Full,
}

impl Taker<u32> for Lines {
    type Fault = Refusal;

    ghost takes = { λ before path leaf after. Unit {0} };

    ghost fails = { λ before path leaf fault after. Unit {0} };

    ghost may = { λ taker leaf. Unit {0} };

    fn take(&mut self, path: Path, leaf: u32) -> Result<(), Refusal> {
        if self.left == 0 {
            return Err(Refusal::Full);
        }
        self.left -= 1;
        let Ok(name) = path.text() else {
            return Err(Refusal::Memory);
        };
        match write!(self.text, "{name} {leaf}\n") {
            Ok(()) => Ok(()),
            Err(_) => Err(Refusal::Memory),
        }
    }
}

/// The tree of thirteen tasks, of which this one has no memory.
fn new_tree(alloc: Global, starved: u32) -> Result<Arc<Counted, Global>, AllocError> {
    let mut counts = Vec::new(alloc);
    for _ in 0..13 {
        counts.push(AtomicU32::new(0))?;
    }
    match Arc::new(alloc, Counted { counts, starved }) {
        Ok(splitter) => Ok(splitter),
        Err(_) => Err(AllocError),
    }
}

#[test]
fn each_task_is_expanded_once(rt: HostRuntime) -> Result<(), Fail> {
    for workers in [1u32, 2, 7, 16] {
        let splitter = new_tree(rt.alloc(), 100)?;
        let held = Arc::try_clone(&splitter)?;
        let mut lines = Lines {
            text: String::new(rt.alloc()),
            left: 100,
        };
        let size = PoolSize { workers, room: 1 };
        let end = pool_run(rt, rt.alloc(), splitter, 0, size, 100, &mut lines);
        assert!(rt; matches!(end, Ok(End::Finished)));
        assert_eq!(rt;
            lines.text.as_str(),
            "1.1 4\n1.2 5\n1.3 6\n2.1 7\n2.2 8\n2.3 9\n3.1 10\n3.2 11\n3.3 12\n"
        );
        for count in &held.counts {
            assert_eq!(rt; count.load(Ordering::SeqCst), 1);
        }
    }
    Ok(())
}

#[test]
fn a_fault_of_the_taker_ends_the_run(rt: HostRuntime) -> Result<(), Fail> {
    for workers in [1u32, 2, 7] {
        let mut lines = Lines {
            text: String::new(rt.alloc()),
            left: 2,
        };
        let size = PoolSize { workers, room: 2 };
        let end = pool_run(
            rt,
            rt.alloc(),
            new_tree(rt.alloc(), 100)?,
            0,
            size,
            100,
            &mut lines,
        );
        assert!(rt; matches!(end, Err(PoolError::Each(Refusal::Full))));
        assert_eq!(rt; lines.text.as_str(), "1.1 4\n1.2 5\n");
    }
    Ok(())
}

#[test]
fn a_branch_without_steps_stops_the_answer(rt: HostRuntime) -> Result<(), Fail> {
    for workers in [1u32, 2, 7] {
        let mut lines = Lines {
            text: String::new(rt.alloc()),
            left: 100,
        };
        let size = PoolSize { workers, room: 1 };
        let end = pool_run(
            rt,
            rt.alloc(),
            new_tree(rt.alloc(), 100)?,
            0,
            size,
            2,
            &mut lines,
        );
        let mut stop = String::new(rt.alloc());
        if let Ok(End::Stopped(path, _)) = end {
            stop = path.text()?;
        }
        assert_eq!(rt; stop.as_str(), "1.1");
        assert_eq!(rt; lines.text.as_str(), "");
    }
    Ok(())
}

#[test]
fn want_of_memory_ends_the_run(rt: HostRuntime) -> Result<(), Fail> {
    for workers in [1u32, 2, 7] {
        let mut lines = Lines {
            text: String::new(rt.alloc()),
            left: 100,
        };
        let size = PoolSize { workers, room: 2 };
        let splitter = new_tree(rt.alloc(), 6)?;
        let end = pool_run(rt, rt.alloc(), splitter, 0, size, 100, &mut lines);
        assert!(rt; matches!(end, Err(PoolError::Memory)));
        assert!(rt; "1.1 4\n1.2 5\n".starts_with(lines.text.as_str()));
    }
    Ok(())
}

/// A root with two children, which are leaves.
///
/// The second waits until a pair was taken, but not for ever.
#[derive(Drop)]
struct Patient {
    taken: Arc<AtomicBool, Global>,
    seen: AtomicBool,
}

/// Whether the word is set within a number of turns.
fn is_set_in_time(word: &AtomicBool) -> bool {
    for _ in 0..10_000_000u32 {
        if word.load(Ordering::SeqCst) {
            return true;
        }
        yield_now();
    }
    false
}

/// Two tasks.
fn two(alloc: Global) -> Result<Tasks<u32>, AllocError>
    ensures { IfOk result (λ tasks. tasks ≡ 1 ∷ 2 ∷ []) }
{
    let mut tasks = Tasks::new(alloc);
    tasks.push(1)?;
    tasks.push(2)?;
    Ok(tasks)
}

impl Splitter for Patient {
    type Task = u32;

    type Leaf = u32;

    ghost use Rattle.work_pool.specs.Samples.{two_leaves, two_leaves_are_lawful};

    ghost step = { λ splitter task. two_leaves task };

    ghost lawful_task = { λ splitter task. Unit {0} };

    ghost lawful_leaf = { λ splitter leaf. Unit {0} };

    ghost keeps_lawful = { λ splitter task lawful. two_leaves_are_lawful task };

    fn expand(&self, alloc: Global, task: u32) -> Result<Step<u32, u32>, AllocError> {
        if task == 0 {
            return Ok(Step::Kids(two(alloc)?));
        }
        if task == 2 && is_set_in_time(&*self.taken) {
            self.seen.store(true, Ordering::SeqCst);
        }
        Ok(Step::Emit(task))
    }
}

/// Sets a word at each pair.
#[derive(Drop)]
struct Bell {
    taken: Arc<AtomicBool, Global>,
}

impl Taker<u32> for Bell {
    type Fault = Refusal;

    ghost takes = { λ before path leaf after. Unit {0} };

    ghost fails = { λ before path leaf fault after. Unit {0} };

    ghost may = { λ taker leaf. Unit {0} };

    fn take(&mut self, _path: Path, _leaf: u32) -> Result<(), Refusal> {
        self.taken.store(true, Ordering::SeqCst);
        Ok(())
    }
}

#[test]
fn a_pair_goes_out_while_a_later_branch_is_expanded(rt: HostRuntime) -> Result<(), Fail> {
    for workers in [1u32, 2, 7] {
        let taken = Arc::new(rt.alloc(), AtomicBool::new(false))?;
        let patient = Patient {
            taken: Arc::try_clone(&taken)?,
            seen: AtomicBool::new(false),
        };
        let splitter = Arc::new(rt.alloc(), patient)?;
        let held = Arc::try_clone(&splitter)?;
        let size = PoolSize { workers, room: 1 };
        let end = pool_run(rt, rt.alloc(), splitter, 0, size, 9, &mut Bell { taken });
        assert!(rt; matches!(end, Ok(End::Finished)));
        assert!(rt; held.seen.load(Ordering::SeqCst));
    }
    Ok(())
}

/// A root with two children, which are leaves, and each of which waits until both are expanded, but
/// not for ever.
#[derive(Drop)]
struct Meeting {
    first: AtomicBool,
    second: AtomicBool,
    met: AtomicU32,
}

impl Splitter for Meeting {
    type Task = u32;

    type Leaf = u32;

    ghost use Rattle.work_pool.specs.Samples.{two_leaves, two_leaves_are_lawful};

    ghost step = { λ splitter task. two_leaves task };

    ghost lawful_task = { λ splitter task. Unit {0} };

    ghost lawful_leaf = { λ splitter leaf. Unit {0} };

    ghost keeps_lawful = { λ splitter task lawful. two_leaves_are_lawful task };

    fn expand(&self, alloc: Global, task: u32) -> Result<Step<u32, u32>, AllocError> {
        if task == 0 {
            return Ok(Step::Kids(two(alloc)?));
        }
        let (own, other) = if task == 1 {
            (&self.first, &self.second)
        } else {
            (&self.second, &self.first)
        };
        own.store(true, Ordering::SeqCst);
        if is_set_in_time(other) {
            self.met.fetch_add(1, Ordering::SeqCst);
        }
        Ok(Step::Emit(task))
    }
}

#[test]
fn two_branches_are_expanded_at_one_time(rt: HostRuntime) -> Result<(), Fail> {
    let meeting = Meeting {
        first: AtomicBool::new(false),
        second: AtomicBool::new(false),
        met: AtomicU32::new(0),
    };
    let splitter = Arc::new(rt.alloc(), meeting)?;
    let held = Arc::try_clone(&splitter)?;
    let mut lines = Lines {
        text: String::new(rt.alloc()),
        left: 2,
    };
    let size = PoolSize {
        workers: 2,
        room: 4,
    };
    let end = pool_run(rt, rt.alloc(), splitter, 0, size, 9, &mut lines);
    assert!(rt; matches!(end, Ok(End::Finished)));
    assert_eq!(rt; lines.text.as_str(), "1 1\n2 2\n");
    assert_eq!(rt; held.met.load(Ordering::SeqCst), 2);
    Ok(())
}
