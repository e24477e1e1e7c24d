ghost use Rattle.std.specs.Prelude.{◌≡◌, ◌≤◌, IfOk};
ghost use Rattle.case_tree.specs.Systems.{IsTaskOf};

use super::*;
use certificates::Leaf;
use chains::{Chain, NonZero, Task};
use sparse_poly::{Poly, Polys};
use split_paths::{Splitter, Step};
use std::alloc::{AllocError, Global};
use std::process::Abort;
use std::test::Fail;
use system_parser::{ParseFault, parse};

const SYSTEM: &[u8] = b"prime 5\norder x y\nx + 4\nx^2 + 4\n";

/// The cases of the system, within a width.
fn cases(alloc: Global, width: u32) -> Result<Cases, ParseFault>
    requires some { 1 ≤ width }
    requires most { width ≤ 1_000_000 }
{
    Ok(Cases::new(parse(alloc, SYSTEM)?, width))
}

/// The task without a queue whose triangular set is the input at the place `i`.
fn on_input(rt: &impl Abort, alloc: Global, cases: &Cases, i: usize) -> Result<Task, AllocError>
    ensures { IfOk result (IsTaskOf cases.now) }
{
    let root = cases.root(alloc)?;
    assert!(rt; i < root.queue.count());
    let t = root.queue.at(i).copy()?;
    Ok(Task {
        chain: Chain::empty(alloc).with_poly(alloc, t)?,
        queue: Polys::new(alloc),
        nonzero: NonZero::empty(alloc),
    })
}

/// The task in which the input at the place `i` doesn't vanish.
fn off_input(
    rt: &impl Abort,
    alloc: Global,
    cases: &Cases,
    task: Task,
    i: usize,
) -> Result<Task, AllocError>
    requires { IsTaskOf cases.now task }
    ensures { IfOk result (IsTaskOf cases.now) }
{
    let root = cases.root(alloc)?;
    assert!(rt; i < root.queue.count());
    let h = root.queue.at(i);
    assert!(rt; !h.is_zero());
    let nonzero = task.nonzero.with(alloc, cases.system().field, h)?;
    Ok(Task {
        chain: task.chain.copy(alloc)?,
        queue: Polys::new(alloc),
        nonzero,
    })
}

/// The task on the input at the place `i`, and off another one where it is given.
fn finishing(
    rt: &impl Abort,
    alloc: Global,
    cases: &Cases,
    i: usize,
    off: Option<usize>,
) -> Result<Task, AllocError>
    ensures { IfOk result (IsTaskOf cases.now) }
{
    let task = on_input(rt, alloc, cases, i)?;
    match off {
        None => Ok(task),
        Some(place) => off_input(rt, alloc, cases, task, place),
    }
}

fn expanded<X: Splitter>(
    splitter: &X,
    alloc: Global,
    task: X::Task,
) -> Result<Step<X::Task, X::Leaf>, AllocError>
    requires { X.lawful_task splitter.now task }
{
    splitter.expand(alloc, task)
}

/// What a step is called.
fn called(step: &Step<Task, Leaf>) -> &'static str {
    match step {
        Step::Gone => "gone",
        Step::Emit(_) => "emitted",
        Step::TooWide => "too wide",
        Step::Kids(_) => "imposed",
    }
}

#[test]
fn a_task_without_a_queue_is_finished(rt: HostRuntime) -> Result<(), Fail> {
    let alloc = rt.alloc();
    for (width, i, off, name) in [
        // x + 4 divides both inputs.
        (2, 0, None, "emitted"),
        // x^2 + 4 doesn't divide x + 4, and takes no product.
        (1, 1, None, "imposed"),
        // x + 4 divides what doesn't vanish.
        (2, 0, Some(1), "gone"),
        // The product of 1 and x + 4 has two terms.
        (1, 0, None, "too wide"),
        (1, 0, Some(1), "too wide"),
    ] {
        let cases = cases(alloc, width)?;
        let task = finishing(&rt, alloc, &cases, i, off)?;
        let step = expanded(&cases, alloc, task)?;
        assert_eq!(rt; called(&step), name, "at the width {width}");
    }
    Ok(())
}

/// Whether the list has this polynomial alone.
fn has_only(list: &Polys, f: &Poly) -> bool {
    list.count() == 1 && list.at(0) == f
}

#[test]
fn a_remainder_is_imposed_on_the_same_chain(rt: HostRuntime) -> Result<(), Fail> {
    let alloc = rt.alloc();
    let cases = cases(alloc, 100)?;
    let task = finishing(&rt, alloc, &cases, 1, None)?;
    let inputs = &cases.system().inputs;
    assert_eq!(rt; inputs.count(), 2);
    match cases.expand(alloc, task)? {
        Step::Kids(kids) => {
            assert_eq!(rt; kids.count(), 1);
            let kid = kids.at(0);
            assert!(rt; has_only(&kid.queue, inputs.at(0)));
            assert!(rt; has_only(kid.chain.polys(), inputs.at(1)));
            assert!(rt; kid.nonzero.polys().is_empty());
        }
        other => assert_eq!(rt; called(&other), "imposed"),
    }
    Ok(())
}

#[test]
fn a_root_keeps_what_must_not_vanish(rt: HostRuntime) -> Result<(), Fail> {
    let alloc = rt.alloc();
    for (text, imposed, kept) in [
        // A constant says nothing.
        (b"prime 5\norder x y\nx*y\nnonzero 3\n".as_slice(), 1, 0),
        // 2*x and x are one.
        (
            b"prime 5\norder x y\nx*y\nnonzero 2*x\nnonzero x\nnonzero y\n",
            1,
            2,
        ),
        // 1 is imposed before the input.
        (b"prime 5\norder x y\nx*y\nnonzero x\nnonzero 0\n", 2, 0),
    ] {
        assert!(rt; text.len() <= 1_048_576);
        let cases = Cases::new(parse(alloc, text)?, 10);
        let root = cases.root(alloc)?;
        assert_eq!(rt; root.queue.count(), imposed);
        assert_eq!(rt; root.nonzero.polys().count(), kept);
    }
    Ok(())
}

fn is_sent<T: Send>(_: &T) {}

fn is_shared<T: Sync>(_: &T) {}

#[test]
fn cases_tasks_and_chains_cross_threads(rt: HostRuntime) -> Result<(), Fail> {
    let alloc = rt.alloc();
    let cases = cases(alloc, 1)?;
    let root = cases.root(alloc)?;
    is_sent(&cases);
    is_shared(&cases);
    is_sent(&root);
    is_shared(&root);
    is_sent(&root.chain);
    is_shared(&root.chain);
    assert_eq!(rt; cases.system().field.prime(), 5);
    assert_eq!(rt; root.queue.count(), 2);
    assert!(rt; root.chain.polys().is_empty());
    assert!(rt; root.nonzero.polys().is_empty());
    Ok(())
}
