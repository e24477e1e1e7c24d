ghost use Rattle.std.specs.Prelude.{◌≡◌, false, List, [], map, IfOk};
ghost use Rattle.polynomials.specs.Polynomials.{Polynomial, ArePolynomials};
ghost use Rattle.zero_sets.specs.ZeroSets.{IsTriangular};
ghost use Rattle.impose_laws.specs.TaskForms.{IsTaskOver};
ghost use Rattle.case_rules.specs.Finish.{has_zero_remainder, first_remainder, imposing, finish_step, step_by_nonzero, step_by_inputs};

use certificates::{Certificates, Leaf};
use chains::Task;
use mono_words::VARS;
use pseudo_division::reduce;
use regularise::certified;
use sparse_poly::{Poly, Polys, Work};
use split_paths::{Step, Tasks};
use std::alloc::{AllocError, Global};

/// The step of a task whose queue is empty, in the tree of a system with these inputs.
pub fn finish(
    alloc: Global,
    w: &Work,
    inputs: &Polys,
    task: Task,
) -> Result<Step<Task, Leaf>, AllocError>
    requires inputs { ArePolynomials w.now.field VARS inputs.now }
    requires over { IsTaskOver w.now.field VARS task }
    requires triangular { IsTriangular task.chain }
    requires queue { task.queue ≡ [] }
    ensures { IfOk result (λ made. (nonzero : List Polynomial) → made ≡ finish_step VARS w.now.width
        (record { prime = w.now.field; inputs = inputs.now; nonzero = nonzero }) task) }
{
    match has_zero_remainder(w, task.nonzero.polys(), task.chain.polys())? {
        None => Ok(Step::TooWide),
        Some(true) => Ok(Step::Gone),
        Some(false) => finish_initials(alloc, w, inputs, task),
    }
}

/// The step where no polynomial that doesn't vanish reduces to 0: the initials are certified first.
fn finish_initials(
    alloc: Global,
    w: &Work,
    inputs: &Polys,
    task: Task,
) -> Result<Step<Task, Leaf>, AllocError>
    requires inputs { ArePolynomials w.now.field VARS inputs.now }
    requires over { IsTaskOver w.now.field VARS task }
    requires triangular { IsTriangular task.chain }
    requires queue { task.queue ≡ [] }
    ensures { IfOk result (λ made. made ≡ step_by_nonzero w.now.field VARS w.now.width task.chain
        task.nonzero inputs.now false) }
{
    match certified(alloc, w, &task.chain, &task.nonzero)? {
        Step::Gone => Ok(Step::Gone),
        Step::TooWide => Ok(Step::TooWide),
        Step::Kids(fs) => Ok(Step::Kids(imposing_each(alloc, &task, &fs)?)),
        Step::Emit(certificates) => finish_inputs(alloc, w, inputs, task, certificates),
    }
}

/// The step where the initials have these certificates.
fn finish_inputs(
    alloc: Global,
    w: &Work,
    inputs: &Polys,
    task: Task,
    certificates: Certificates,
) -> Result<Step<Task, Leaf>, AllocError>
    requires inputs { ArePolynomials w.now.field VARS inputs.now }
    requires over { IsTaskOver w.now.field VARS task }
    requires triangular { IsTriangular task.chain }
    requires queue { task.queue ≡ [] }
    ensures { IfOk result (λ made. made ≡ step_by_inputs w.now.field VARS w.now.width task.chain
        task.nonzero inputs.now certificates) }
{
    match first_remainder(w, inputs, task.chain.polys())? {
        None => Ok(Step::TooWide),
        Some(None) => Ok(Step::Emit(emitted(task, certificates))),
        Some(Some(remainder)) => {
            let mut kids = Tasks::new(alloc);
            kids.push(imposing(task, remainder)?)?;
            Ok(Step::Kids(kids))
        }
    }
}

/// The triangular set of a task, with certificates.
fn emitted(task: Task, certificates: Certificates) -> Leaf
    ensures { result ≡ record { chain = task.chain; certificates = certificates } }
{
    let Task {
        chain,
        queue: _,
        nonzero: _,
    } = task;
    Leaf {
        chain,
        certificates,
    }
}

/// The task that imposes one polynomial.
fn imposing(task: Task, f: Poly) -> Result<Task, AllocError>
    requires { task.queue ≡ [] }
    ensures { IfOk result (λ kid. kid ≡ imposing task.chain task.nonzero f) }
{
    let Task {
        chain,
        queue,
        nonzero,
    } = task;
    let mut queue = queue;
    queue.push(f)?;
    Ok(Task {
        chain,
        queue,
        nonzero,
    })
}

/// The tasks that impose one of several polynomials, in their order.
fn imposing_each(alloc: Global, task: &Task, fs: &Polys) -> Result<Tasks<Task>, AllocError>
    requires { task.now.queue ≡ [] }
    ensures { IfOk result (λ kids.
        kids ≡ map (imposing task.now.chain task.now.nonzero) fs.now) }
{
    let mut kids = Tasks::new(alloc);
    for i in 0..fs.count() {
        let kid = imposing(task.copy(alloc)?, fs.at(i).copy()?)?;
        kids.push(kid)?;
    }
    Ok(kids)
}

/// Whether one of the list reduces to 0 by the chain; `None` where a product doesn't fit.
fn has_zero_remainder(w: &Work, list: &Polys, chain: &Polys) -> Result<Option<bool>, AllocError>
    requires list { ArePolynomials w.now.field VARS list.now }
    requires chain { ArePolynomials w.now.field VARS chain.now }
    requires triangular { IsTriangular chain.now }
    ensures { IfOk result (λ r. r
        ≡ has_zero_remainder w.now.field VARS w.now.width chain.now list.now) }
{
    for i in 0..list.count() {
        match reduce(*w, list.at(i), chain)? {
            None => return Ok(None),
            Some(remainder) => {
                if remainder.is_zero() {
                    return Ok(Some(true));
                }
            }
        }
    }
    Ok(Some(false))
}

/// The first remainder of the inputs by the chain that isn't 0; `None` where a product doesn't fit.
fn first_remainder(
    w: &Work,
    inputs: &Polys,
    chain: &Polys,
) -> Result<Option<Option<Poly>>, AllocError>
    requires inputs { ArePolynomials w.now.field VARS inputs.now }
    requires chain { ArePolynomials w.now.field VARS chain.now }
    requires triangular { IsTriangular chain.now }
    ensures { IfOk result (λ r. r
        ≡ first_remainder w.now.field VARS w.now.width chain.now inputs.now) }
{
    for i in 0..inputs.count() {
        match reduce(*w, inputs.at(i), chain)? {
            None => return Ok(None),
            Some(remainder) => {
                if !remainder.is_zero() {
                    return Ok(Some(Some(remainder)));
                }
            }
        }
    }
    Ok(Some(None))
}
