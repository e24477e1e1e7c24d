use case_tree::Cases;
use certificates::Leaf;
use chains::Task;
use split_paths::{Splitter, Step};
use std::alloc::{AllocError, Global};
use std::marker::Model;
use std::sync::Arc;

/// What is told of each task before a step of it is made, by the worker that makes it.
pub trait Watch: Drop {
    fn expanding(&self, task: &Task);
}

/// A watch that does nothing.
#[derive(Debug, Drop)]
pub struct Unwatched;

impl Watch for Unwatched {
    fn expanding(&self, _task: &Task) {}
}

/// The cases of a system, with a watch that is told of each task.
#[derive(Drop)]
pub struct WatchedCases<G: Watch> {
    pub cases: Cases,
    pub watch: Arc<G, Global>,
}

impl<G: Watch> Model for WatchedCases<G> {
    ghost use Rattle.case_tree.specs.Systems.{CaseSystem};

    ghost Value = { CaseSystem };

    ghost view = { λ watched. watched.cases };
}

impl<G: Watch> Splitter for WatchedCases<G> {
    type Task = Task;

    type Leaf = Leaf;

    ghost use Rattle.std.specs.Prelude.{length};
    ghost use Rattle.mono_words.specs.declared.mono.TheConstants.{VARS};
    ghost use Rattle.case_laws.proofs.StepsKeepLaw.{system_steps_keep_law};
    ghost use Rattle.case_tree.specs.Systems.{IsTaskOf, IsLeafOf, polynomial_system_of, step_of};

    ghost step = { step_of };

    ghost lawful_task = { IsTaskOf };

    ghost lawful_leaf = { IsLeafOf };

    ghost keeps_lawful = { λ cases task lawful. system_steps_keep_law VARS
        (length cases.system.names) cases.width (polynomial_system_of cases.system) task lawful };

    fn expand(&self, alloc: Global, task: Task) -> Result<Step<Task, Leaf>, AllocError> {
        self.watch.expanding(&task);
        self.cases.expand(alloc, task)
    }
}
