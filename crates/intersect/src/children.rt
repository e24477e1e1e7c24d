ghost use Rattle.std.specs.Prelude.{◌≡◌, ◌≢◌, ◌≤◌, ◌-◌, [], map, take, get_or, length, All, IfOk};
ghost use Rattle.polynomials.specs.Polynomials.{ArePolynomials, monic};
ghost use Rattle.impose_rules.specs.Leads.{with_all_nonzero};
ghost use Rattle.intersect.specs.Cases.{AreCasesOf, IsCaseOf};
ghost use Rattle.intersect.specs.Heads.{IsHeadOver};
ghost use Rattle.intersect.specs.Children.{child_in, child_with_member, child_with_lead, child_with_initial};

use crate::cases::{Case, HeadCases};
use crate::head::Head;
use chains::{NonZero, Task};
use mono_words::VARS;
use sparse_poly::{Poly, Polys, Work};
use split_paths::Tasks;
use std::alloc::{AllocError, Global};

/// The children of a task in these cases. The last one takes over what the task has; those before it
/// are made of copies.
pub fn children_in(
    alloc: Global,
    w: &Work,
    head: &Head,
    cases: HeadCases,
    left: Task,
) -> Result<Tasks<Task>, AllocError>
    requires head { IsHeadOver w.now.field head.now }
    requires cases { AreCasesOf (length head.now.leads) cases }
    ensures { IfOk result (λ kids. kids ≡ map (child_in w.now.field head.now left) cases) }
{
    let mut before = cases;
    match before.take_last() {
        None => Ok(Tasks::new(alloc)),
        Some(last) => {
            let mut kids = children_of_copies(alloc, w, head, before, &left)?;
            kids.push(child_in(alloc, w, head, last, left)?)?;
            Ok(kids)
        }
    }
}

/// The children of copies of a task.
fn children_of_copies(
    alloc: Global,
    w: &Work,
    head: &Head,
    cases: HeadCases,
    left: &Task,
) -> Result<Tasks<Task>, AllocError>
    requires head { IsHeadOver w.now.field head.now }
    requires cases { AreCasesOf (length head.now.leads) cases }
    ensures { IfOk result (λ kids. kids ≡ map (child_in w.now.field head.now left.now) cases) }
{
    let mut kids = Tasks::new(alloc);
    let mut rest = cases;
    while let Some(case) = rest.take_first() {
        kids.push(child_in(alloc, w, head, case, left.copy(alloc)?)?)?;
    }
    Ok(kids)
}

/// The child in one case.
fn child_in(
    alloc: Global,
    w: &Work,
    head: &Head,
    case: Case,
    left: Task,
) -> Result<Task, AllocError>
    requires head { IsHeadOver w.now.field head.now }
    requires case { IsCaseOf (length head.now.leads) case }
    ensures { IfOk result (λ kid. kid ≡ child_in w.now.field head.now left case) }
{
    match case {
        Case::Member(t) => child_with_member(alloc, w, head, t, left),
        Case::Lead(j) => child_with_lead(w, head, j, left),
        Case::Initial => child_with_initial(w, head, left),
    }
}

/// The child where no lead vanishes.
fn child_with_member(
    alloc: Global,
    w: &Work,
    head: &Head,
    t: Poly,
    left: Task,
) -> Result<Task, AllocError>
    requires head { IsHeadOver w.now.field head.now }
    ensures { IfOk result (λ kid. kid ≡ child_with_member w.now.field head.now left t) }
{
    let Task {
        chain,
        queue,
        nonzero,
    } = left;
    let count = head.leads.count();
    Ok(Task {
        chain: chain.with_poly(alloc, t)?,
        queue,
        nonzero: with_leads(w, nonzero, &head.leads, count)?,
    })
}

/// The child where lead number `j` vanishes.
fn child_with_lead(w: &Work, head: &Head, j: usize, left: Task) -> Result<Task, AllocError>
    requires head { IsHeadOver w.now.field head.now }
    requires from { 1 ≤ j }
    requires to { j ≤ length head.now.leads }
    ensures { IfOk result (λ kid. kid ≡ child_with_lead w.now.field head.now left j) }
{
    let Task {
        chain,
        queue,
        nonzero,
    } = left;
    let mut more = queue;
    more.push_front(head.poly.copy()?)?;
    more.push_front(monic_lead(w, head, j)?)?;
    Ok(Task {
        chain,
        queue: more,
        nonzero: with_leads(w, nonzero, &head.leads, j - 1)?,
    })
}

/// Lead number `j`, monic.
fn monic_lead(w: &Work, head: &Head, j: usize) -> Result<Poly, AllocError>
    requires head { IsHeadOver w.now.field head.now }
    requires from { 1 ≤ j }
    requires to { j ≤ length head.now.leads }
    ensures { IfOk result (λ r. r ≡ monic w.now.field (get_or head.now.leads (j - 1) [])) }
{
    head.leads.at(j - 1).monic(w.field)
}

/// The child where the initial vanishes.
fn child_with_initial(w: &Work, head: &Head, left: Task) -> Result<Task, AllocError>
    requires { IsHeadOver w.now.field head.now }
    ensures { IfOk result (λ kid. kid ≡ child_with_initial head.now left) }
{
    let Task {
        chain,
        queue,
        nonzero,
    } = left;
    let mut more = queue;
    more.push_front(head.poly.tail_in(head.variable)?)?;
    more.push_front(head.poly.lead_in(head.variable)?)?;
    Ok(Task {
        chain,
        queue: more,
        nonzero,
    })
}

/// With the first leads, as many as `count` says.
fn with_leads(
    w: &Work,
    nonzero: NonZero,
    leads: &Polys,
    count: usize,
) -> Result<NonZero, AllocError>
    requires over { ArePolynomials w.now.field VARS leads.now }
    requires leads { All (λ l. l ≢ []) leads.now }
    requires count { count ≤ length leads.now }
    ensures { IfOk result (λ r. r ≡ with_all_nonzero w.now.field nonzero (take count leads.now)) }
{
    let mut all = nonzero;
    for i in 0..count {
        all.add(w.field, leads.at(i))?;
    }
    Ok(all)
}
