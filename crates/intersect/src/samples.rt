ghost use Rattle.std.specs.Prelude.{IfOk};
ghost use Rattle.polynomials.specs.Polynomials.{IsPolynomial, ArePolynomials};
ghost use Rattle.impose_laws.specs.TaskForms.{IsTaskOver};

use crate::impose;
use chains::{Chain, NonZero, Task};
use field_table::Field;
use mono_words::{Mono, VARS};
use sparse_poly::{Poly, Polys, Work};
use split_paths::{Step, Tasks};
use std::alloc::{AllocError, Global};
use std::test::Fail;

/// A term `c x^d y^e z^g`.
type Term = (u32, u16, u16, u16);

/// The chain, the queue, and the polynomials that don't vanish.
type Parts<'a> = [&'a [&'a [Term]]; 3];

/// The modulus, the width, a task, and its children where each product fits.
pub type Sample = (u64, u32, Parts<'static>, Option<&'static [Parts<'static>]>);

/// The polynomial with these terms.
fn poly(alloc: Global, f: Field, terms: &[Term]) -> Result<Poly, AllocError>
    ensures { IfOk result (IsPolynomial f VARS) }
{
    let mut list = Vec::new(alloc);
    for (c, d, e, g) in terms {
        let x = Mono::power(0, *d);
        let y = Mono::power(1, *e);
        let z = Mono::power(2, *g);
        if *c < f.prime() {
            list.push((x.max_exponents(y).max_exponents(z), *c))?;
        }
    }
    Poly::from_terms(alloc, f, &list)
}

fn polys(alloc: Global, f: Field, all: &[&[Term]]) -> Result<Polys, AllocError>
    ensures { IfOk result (ArePolynomials f VARS) }
{
    let mut list = Polys::new(alloc);
    for terms in all {
        list.push(poly(alloc, f, terms)?)?;
    }
    Ok(list)
}

fn chain(alloc: Global, f: Field, all: &[&[Term]]) -> Result<Chain, AllocError>
    ensures { IfOk result (ArePolynomials f VARS) }
{
    let mut chain = Chain::empty(alloc);
    for terms in all {
        chain = chain.with_poly(alloc, poly(alloc, f, terms)?)?;
    }
    Ok(chain)
}

fn nonzero(alloc: Global, f: Field, all: &[&[Term]]) -> Result<NonZero, AllocError>
    ensures { IfOk result (ArePolynomials f VARS) }
{
    f.facts();
    let mut known = NonZero::empty(alloc);
    for terms in all {
        let h = poly(alloc, f, terms)?;
        if !h.is_zero() {
            known.add(f, &h)?;
        }
    }
    Ok(known)
}

fn task(alloc: Global, f: Field, parts: &Parts<'_>) -> Result<Task, AllocError>
    ensures { IfOk result (IsTaskOver f VARS) }
{
    Ok(Task {
        chain: chain(alloc, f, parts[0])?,
        queue: polys(alloc, f, parts[1])?,
        nonzero: nonzero(alloc, f, parts[2])?,
    })
}

/// Whether these are the polynomials of a list.
fn polys_are(alloc: Global, f: Field, list: &Polys, all: &[&[Term]]) -> Result<bool, AllocError> {
    for (i, terms) in all.iter().enumerate() {
        if i >= list.count() || *list.at(i) != poly(alloc, f, terms)? {
            return Ok(false);
        }
    }
    Ok(list.count() == all.len())
}

fn task_is(alloc: Global, f: Field, task: &Task, parts: &Parts<'_>) -> Result<bool, AllocError> {
    Ok(
        polys_are(alloc, f, task.chain.polys(), parts[0])?
            && polys_are(alloc, f, &task.queue, parts[1])?
            && polys_are(alloc, f, task.nonzero.polys(), parts[2])?,
    )
}

fn tasks_are(
    alloc: Global,
    f: Field,
    tasks: &Tasks<Task>,
    all: &[Parts<'_>],
) -> Result<bool, AllocError> {
    for (i, parts) in all.iter().enumerate() {
        if i >= tasks.count() || !task_is(alloc, f, tasks.at(i), parts)? {
            return Ok(false);
        }
    }
    Ok(tasks.count() == all.len())
}

/// Whether the step is to these children; `None` is the step that is too wide.
fn step_is(
    alloc: Global,
    f: Field,
    step: &Step<Task, Chain>,
    kids: Option<&[Parts<'_>]>,
) -> Result<bool, AllocError> {
    match kids {
        None => Ok(matches!(step, Step::TooWide)),
        Some(all) => match step {
            Step::Gone => Ok(all.is_empty()),
            Step::Kids(tasks) => tasks_are(alloc, f, tasks, all),
            _ => Ok(false),
        },
    }
}

fn crosses<T: Send + Sync>(_: &T) {}

/// Whether imposing the first of a queue gives these children.
fn gives(
    alloc: Global,
    p: u64,
    width: u32,
    parts: &Parts<'_>,
    kids: Option<&[Parts<'_>]>,
) -> Result<bool, Fail> {
    let field = Field::of(p)?;
    let w = Work { field, width };
    let task = task(alloc, field, parts)?;
    if task.queue.is_empty() {
        return Ok(false);
    }
    let step: Step<Task, Chain> = impose(alloc, w, task)?;
    crosses(&step);
    Ok(step_is(alloc, field, &step, kids)?)
}

/// Whether each of these tasks has these children.
pub fn all_give(alloc: Global, samples: &[Sample]) -> Result<bool, Fail> {
    for (p, width, parts, kids) in samples {
        if !gives(alloc, *p, *width, parts, *kids)? {
            return Ok(false);
        }
    }
    Ok(true)
}
