ghost use Rattle.std.specs.Prelude.{◌≡◌, ◌≤◌, ℕ, IfOk, Contains};
ghost use Rattle.polynomials.specs.Monomials.{most_exponent};
ghost use Rattle.polynomials.specs.Polynomials.{Polynomial};
ghost use Rattle.polynomials.specs.Views.{degree_in};
ghost use Rattle.system_text.specs.Laws.{IsSystem};
ghost use Rattle.system_parser.specs.Systems.{text_system_of};
ghost use Rattle.case_rules.specs.Cases.{root_task};
ghost use Rattle.case_laws.specs.Laws.{HasSolutions};
ghost use Rattle.case_tree.specs.Systems.{IsTaskOf, polynomial_system_of, step_of};

use crate::finish::finish;
use crate::root::root_of;
use certificates::Leaf;
use chains::Task;
use intersect::impose;
use mono_words::VARS;
use sparse_poly::{Polys, System, Work};
use split_paths::{Splitter, Step};
use std::alloc::{AllocError, Global};
use std::marker::Model;

/// A system whose common zeros are split into cases, and the width that products have to fit.
#[derive(Drop)]
pub struct Cases {
    system: System,
    width: u32,
}

impl Model for Cases {
    ghost use Rattle.system_parser.specs.Systems.{text_system_of};
    ghost use Rattle.case_tree.specs.Systems.{CaseSystem, IsSolvable};

    ghost Value = { CaseSystem };

    ghost view = { λ c. record { system = text_system_of c.system; width = c.width } };

    ghost invariant = { λ c. IsSolvable (text_system_of c.system) };
}

impl Cases {
    /// The cases of a system; the width is from 1 to 1,000,000.
    pub fn new(system: System, width: u32) -> Cases
        requires lawful { IsSystem VARS (text_system_of system) }
        requires some { 1 ≤ width }
        requires most { width ≤ 1_000_000 }
        ensures system { result.system ≡ text_system_of system }
        ensures width { result.width ≡ width }
    {
        system.field.facts();
        facts_of(&system.inputs);
        facts_of(&system.nonzero);
        Cases { system, width }
    }

    /// The system.
    pub fn system(&self) -> &System
        ensures { text_system_of result.now ≡ self.now.system }
    {
        &self.system
    }

    /// The task with which the cases begin: all inputs are to be imposed, where no polynomial that
    /// must not vanish does.
    pub fn root(&self, alloc: Global) -> Result<Task, AllocError>
        ensures task { IfOk result (λ task. task
            ≡ root_task VARS (polynomial_system_of self.now.system)) }
        ensures lawful { IfOk result (IsTaskOf self.now) }
        ensures solutions { IfOk result (HasSolutions (polynomial_system_of self.now.system)) }
    {
        root_of(alloc, &self.system)
    }

    /// Imposes the first polynomial of the queue, or finishes the task where none is left.
    fn step(&self, alloc: Global, task: Task) -> Result<Step<Task, Leaf>, AllocError>
        requires { IsTaskOf self.now task }
        ensures { IfOk result (λ made. made ≡ step_of self.now task) }
    {
        let w = self.work();
        if task.queue.is_empty() {
            finish(alloc, &w, &self.system.inputs, task)
        } else {
            impose(alloc, w, task)
        }
    }

    /// The field and the width.
    fn work(&self) -> Work
        ensures field { result.field ≡ self.now.system.prime }
        ensures width { result.width ≡ self.now.width }
    {
        Work {
            field: self.system.field,
            width: self.width,
        }
    }
}

/// Does nothing: its clause tells what `Poly::facts` does, of each polynomial.
fn facts_of(list: &Polys)
    ensures { (f : Polynomial) → Contains list.now f → (v : ℕ) → degree_in v f ≤ most_exponent }
{
    for i in 0..list.count() {
        list.at(i).facts();
    }
}

impl Splitter for Cases {
    type Task = Task;

    type Leaf = Leaf;

    ghost use Rattle.std.specs.Prelude.{length};
    ghost use Rattle.mono_words.specs.declared.mono.TheConstants.{VARS};
    ghost use Rattle.case_laws.proofs.StepsKeepLaw.{system_steps_keep_law};
    ghost use Rattle.case_tree.specs.Systems.{IsTaskOf, IsLeafOf, polynomial_system_of, step_of};
    ghost use Rattle.case_tree.specs.Laws.{LowersTheRank};

    ghost step = { step_of };

    ghost lawful_task = { IsTaskOf };

    ghost lawful_leaf = { IsLeafOf };

    ghost keeps_lawful = { λ cases task lawful. system_steps_keep_law VARS
        (length cases.system.names) cases.width (polynomial_system_of cases.system) task lawful };

    fn expand(&self, alloc: Global, task: Task) -> Result<Step<Task, Leaf>, AllocError>
        requires { IsTaskOf self.now task }
        ensures step { IfOk result (λ made. made ≡ step_of self.now task) }

        // So no branch goes on for ever.
        ensures rank { IfOk result (LowersTheRank self.now task) }
    {
        self.step(alloc, task)
    }
}
