ghost use Rattle.std.specs.Prelude.{◌≡◌, ◌<◌, ◌++◌, true, false, [], IfOk};
ghost use Rattle.std.specs.List.{list_any};
ghost use Rattle.polynomials.specs.Polynomials.{ArePolynomials, is_zero};
ghost use Rattle.system_parser.specs.Systems.{text_system_of};
ghost use Rattle.impose_rules.specs.Leads.{with_all_nonzero};
ghost use Rattle.case_rules.specs.Cases.{root_by_zero, root_task};
ghost use Rattle.case_tree.specs.Systems.{IsSolvable, polynomial_system_of};

use chains::{Chain, NonZero, Task};
use field_table::Field;
use mono_words::VARS;
use sparse_poly::{Poly, Polys, System};
use std::alloc::{AllocError, Global};

/// The task of a whole system.
pub fn root_of(alloc: Global, system: &System) -> Result<Task, AllocError>
    requires { IsSolvable (text_system_of system.now) }
    ensures { IfOk result (λ task. task
        ≡ root_task VARS (polynomial_system_of (text_system_of system.now))) }
{
    if has_zero(&system.nonzero) {
        root_at_zero(alloc, system)
    } else {
        root_off_zero(alloc, system)
    }
}

/// The task where 0 is one of the polynomials that must not vanish.
fn root_at_zero(alloc: Global, system: &System) -> Result<Task, AllocError>
    ensures { IfOk result (λ task. task
        ≡ root_by_zero VARS (polynomial_system_of (text_system_of system.now)) true) }
{
    system.field.facts();
    let mut one = Polys::new(alloc);
    one.push(Poly::constant(alloc, system.field, 1)?)?;
    Ok(Task {
        chain: Chain::empty(alloc),
        queue: with_copies(one, &system.inputs)?,
        nonzero: NonZero::empty(alloc),
    })
}

/// The task where 0 is none of them.
fn root_off_zero(alloc: Global, system: &System) -> Result<Task, AllocError>
    requires over { ArePolynomials system.now.field VARS system.now.nonzero }
    requires nonzero { list_any is_zero system.now.nonzero ≡ false }
    ensures { IfOk result (λ task. task
        ≡ root_by_zero VARS (polynomial_system_of (text_system_of system.now)) false) }
{
    Ok(Task {
        chain: Chain::empty(alloc),
        queue: with_copies(Polys::new(alloc), &system.inputs)?,
        nonzero: all_nonzero(alloc, system.field, &system.nonzero)?,
    })
}

/// Whether 0 is one of the list.
fn has_zero(list: &Polys) -> bool
    ensures { result ≡ list_any is_zero list.now }
{
    for i in 0..list.count() {
        if list.at(i).is_zero() {
            return true;
        }
    }
    false
}

/// With copies of the list behind.
fn with_copies(start: Polys, list: &Polys) -> Result<Polys, AllocError>
    ensures { IfOk result (λ all. all ≡ start ++ list.now) }
{
    let mut all = start;
    for i in 0..list.count() {
        all.push(list.at(i).copy()?)?;
    }
    Ok(all)
}

/// The list as polynomials that don't vanish.
fn all_nonzero(alloc: Global, field: Field, list: &Polys) -> Result<NonZero, AllocError>
    requires over { ArePolynomials field VARS list.now }
    requires nonzero { list_any is_zero list.now ≡ false }
    ensures { IfOk result (λ all. all ≡ with_all_nonzero field [] list.now) }
{
    let mut all = NonZero::empty(alloc);
    for i in 0..list.count() {
        all.add(field, list.at(i))?;
    }
    Ok(all)
}
