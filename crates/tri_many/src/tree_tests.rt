ghost use Rattle.std.specs.Prelude.{◌≤◌};

use crate::watch::{Unwatched, WatchedCases};
use certificates::Leaf;
use solver_inputs::{Asked, asked_of_words};
use split_paths::Path;
use std::alloc::{AllocError, Global};
use std::fmt::Write;
use std::process::Abort;
use std::sync::{Arc, Wait};
use std::test::Fail;
use std::thread::Threads;
use tri_io::MemSource;
use work_pool::{End, PoolSize, Taker, pool_run};

const SPHERES: &[u8] =
    b"prime 101\norder x y z\nx^2 + y + z - 1\nx + y^2 + z - 1\nx + y + z^2 - 1\n";

/// Writes down where each chain stands, and of how many polynomials it is.
#[derive(Drop)]
struct Outline {
    text: String,
}

impl Taker<Leaf> for Outline {
    type Fault = AllocError;

    ghost takes = { λ before path leaf after. Unit {0} };

    ghost fails = { λ before path leaf fault after. Unit {0} };

    ghost may = { λ taker leaf. Unit {0} };

    fn take(&mut self, path: Path, leaf: Leaf) -> Result<(), AllocError> {
        let count = leaf.chain.polys().count();
        let name = path.text()?;
        match write!(self.text, "{name} {count}\n") {
            Ok(()) => Ok(()),
            Err(_) => Err(AllocError),
        }
    }
}

/// The cases of the spheres.
fn asked(alloc: Global) -> Result<Asked, Fail> {
    let words = Vec::new(alloc);
    let mut source = MemSource::new(SPHERES.to_vec(alloc)?, 4096, Vec::new(alloc));
    match asked_of_words(alloc, &words, true, &mut source) {
        Ok(asked) => Ok(asked),
        Err(_) => Err(AllocError)?,
    }
}

/// Walks the tree with room for one event.
fn check_outline<R: Abort + Threads + Wait + Copy + Send + Sync + 'static>(
    rt: R,
    alloc: Global,
    workers: u32,
) -> Result<(), Fail>
    requires { (1 ≤ workers) × (workers ≤ 16) }
{
    let Asked::System(command, cases) = asked(alloc)? else {
        return Err(AllocError)?;
    };
    let root = cases.root(alloc)?;
    let watch = Arc::new(alloc, Unwatched)?;
    let watched = Arc::new(alloc, WatchedCases { cases, watch })?;
    let mut outline = Outline {
        text: String::new(alloc),
    };
    let size = PoolSize { workers, room: 1 };
    let end = pool_run(rt, alloc, watched, root, size, command.steps, &mut outline);
    assert!(rt; matches!(end, Ok(End::Finished)));
    assert_eq!(rt; outline.text.as_str(), "1 3\n2 3\n");
    Ok(())
}

#[test]
fn a_tree_is_walked_with_room_for_one_event(rt: HostRuntime) -> Result<(), Fail> {
    for workers in [1u32, 2, 7] {
        check_outline(rt, rt.alloc(), workers)?;
    }
    Ok(())
}
