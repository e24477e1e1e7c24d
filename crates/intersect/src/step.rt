ghost use Rattle.std.specs.Prelude.{◌≡◌, ◌≢◌, List, [], ◌∷◌, IfOk};
ghost use Rattle.polynomials.specs.Polynomials.{Polynomial, IsPolynomial};
ghost use Rattle.polynomials.specs.Views.{main_var};
ghost use Rattle.impose_rules.specs.Impose.{children_by_head, impose_step, step_to_fitting};
ghost use Rattle.impose_laws.specs.TaskForms.{IsTaskOver};
ghost use Rattle.row_laws.specs.Words.{IsReducedBy};
ghost use Rattle.intersect.specs.Children.{children_by_constant};
ghost use Rattle.intersect.specs.Covers.{CoversTask};

use crate::head::reduced_head;
use crate::rows::children_at;
use chains::Task;
use mono_words::VARS;
use sparse_poly::{Poly, Work};
use split_paths::{Step, Tasks};
use std::alloc::{AllocError, Global};

/// Imposes the first polynomial of the queue on the chain. It is reduced by the chain, loses
/// factors that don't vanish, and becomes monic. Where it is 0 then, the one child is the rest of
/// the task; where it is another constant, there is none. Else in the first child no lead vanishes,
/// and its chain has a member at the main variable: the polynomial itself where there was none, and
/// else the last of the remainder rows of the member there and the polynomial, provided that a zero
/// row follows. Each lead that may vanish, the initial among them, makes a further child. No leaf is
/// emitted, whatever leaves are.
pub fn impose<L>(alloc: Global, w: Work, task: Task) -> Result<Step<Task, L>, AllocError>
    requires over { IsTaskOver w.field VARS task }
    requires queue { task.queue ≢ [] }
    ensures step { IfOk result (λ made. (f : Polynomial) (rest : List Polynomial)
        → task.queue ≡ f ∷ rest
        → made ≡ impose_step w.field VARS w.width task.chain f rest task.nonzero) }
    ensures cover { IfOk result (CoversTask w.field task) }
{
    w.field.facts();
    let Task {
        chain,
        queue,
        nonzero,
    } = task;
    chain.facts();
    let mut rest = queue;
    match rest.take_first() {
        None => unreachable!(),
        Some(f) => {
            let left = Task {
                chain,
                queue: rest,
                nonzero,
            };
            imposed(alloc, &w, &f, left)
        }
    }
}

/// Imposes `f` on what is left of a task.
fn imposed<L>(alloc: Global, w: &Work, f: &Poly, left: Task) -> Result<Step<Task, L>, AllocError>
    requires over { IsTaskOver w.now.field VARS left }
    requires head { IsPolynomial w.now.field VARS f.now }
    ensures { IfOk result (λ made. made
        ≡ impose_step w.now.field VARS w.now.width left.chain f.now left.queue left.nonzero) }
{
    match reduced_head(alloc, w, f, &left)? {
        None => Ok(Step::TooWide),
        Some(r) => Ok(step_to_fitting(children_by_head(alloc, w, r, left)?)),
    }
}

/// The step to these children.
fn step_to_fitting<L>(kids: Option<Tasks<Task>>) -> Step<Task, L>
    ensures { result ≡ step_to_fitting kids }
{
    match kids {
        None => Step::TooWide,
        Some(kids) => {
            if kids.is_empty() {
                Step::Gone
            } else {
                Step::Kids(kids)
            }
        }
    }
}

/// The children where `r`, which is reduced by the chain, is imposed.
fn children_by_head(
    alloc: Global,
    w: &Work,
    r: Poly,
    left: Task,
) -> Result<Option<Tasks<Task>>, AllocError>
    requires head { IsPolynomial w.now.field VARS r }
    requires over { IsTaskOver w.now.field VARS left }
    requires reduced { IsReducedBy r left.chain }
    ensures { IfOk result (λ kids. kids ≡ children_by_head w.now.field VARS w.now.width
        left.chain left.queue left.nonzero r (main_var r)) }
{
    match r.main_var() {
        None => Ok(Some(children_by_constant(alloc, &r, left)?)),
        Some(v) => children_at(alloc, w, v, r, left),
    }
}

/// The task itself where a constant is 0, and nothing else.
fn children_by_constant(alloc: Global, r: &Poly, left: Task) -> Result<Tasks<Task>, AllocError>
    ensures { IfOk result (λ kids. kids ≡ children_by_constant r.now left) }
{
    let mut kids = Tasks::new(alloc);
    if r.is_zero() {
        kids.push(left)?;
    }
    Ok(kids)
}
