use super::*;
use chains::Task;
use std::process::Abort;
use std::sync::Arc;
use std::sync::atomic::{AtomicBool, Ordering};
use std::test::Fail;
use std::thread::yield_now;
use tri_io::{MemSink, MemSource};

/// Two words, of which a task of either branch sets one and waits for the other.
#[derive(Drop)]
struct Meeting {
    first: AtomicBool,
    second: AtomicBool,
    is_late: AtomicBool,
}

/// Whether the word is set within a number of turns.
fn is_set_in_time(word: &AtomicBool) -> bool {
    for _ in 0..10_000_000u32 {
        if word.load(Ordering::SeqCst) {
            return true;
        }
        yield_now();
    }
    false
}

impl Meeting {
    fn meet(&self, own: &AtomicBool, other: &AtomicBool) {
        own.store(true, Ordering::SeqCst);
        if !is_set_in_time(other) {
            self.is_late.store(true, Ordering::SeqCst);
        }
    }
}

impl Watch for Meeting {
    fn expanding(&self, task: &Task) {
        if task.chain.at(1).is_some() {
            self.meet(&self.first, &self.second);
        } else if task.queue.count() == 2 {
            self.meet(&self.second, &self.first);
        }
    }
}

#[test]
fn two_workers_meet(rt: HostRuntime) -> Result<(), Fail> {
    let alloc = rt.alloc();
    let meeting = Arc::new(
        alloc,
        Meeting {
            first: AtomicBool::new(false),
            second: AtomicBool::new(false),
            is_late: AtomicBool::new(false),
        },
    )?;
    let held = Arc::try_clone(&meeting)?;
    let words = vec![in alloc; String::from_str(alloc, "--workers=2")?]?;
    let text = b"prime 5\norder x y\nx*y\n".to_vec(alloc)?;
    let mut source = MemSource::new(text, 4096, Vec::new(alloc));
    let mut sink = MemSink::new(alloc, 100, 4096, Vec::new(alloc))?;
    assert_eq!(rt;
        run_watched(rt, alloc, &words, &mut source, &mut sink, meeting),
        Status::Chains
    );
    assert_eq!(rt;
        sink.bytes(),
        b"chain 1\npoly y\nchain 2\npoly x\nend 2\n".as_slice()
    );
    assert!(rt; !held.is_late.load(Ordering::SeqCst));
    Ok(())
}
