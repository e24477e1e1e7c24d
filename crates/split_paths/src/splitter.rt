use item_lists::Items;
use std::alloc::{AllocError, Global};

/// The children of a task, in order.
pub type Tasks<T> = Items<T>;

/// What one step makes of a task.
#[derive(Debug, Drop)]
pub enum Step<T, L> {
    /// Nothing is left of the task.
    Gone,
    /// The task is solved by this leaf.
    Emit(L),
    /// A product within the step doesn't fit.
    TooWide,
    /// The task gives way to these children.
    Kids(Tasks<T>),
}

/// What makes steps of tasks. A step depends on the splitter's data and on the task's alone.
pub trait Splitter: Drop {
    type Task: Drop;

    type Leaf: Drop;

    ghost use Rattle.split_paths.specs.declared.splitter.Step.{Step};
    ghost use Rattle.split_paths.specs.Lawful.{IsLawfulStep};
    ghost use Rattle.std.specs.Prelude.{IfOk, ◌≡◌};

    ghost step: { Self → Self.Task → Step Self.Task Self.Leaf };

    ghost lawful_task: { Self → Self.Task → Type 0 };

    ghost lawful_leaf: { Self → Self.Leaf → Type 0 };

    /// Makes one step of a task, which it takes.
    fn expand(
        &self,
        alloc: Global,
        task: Self::Task,
    ) -> Result<Step<Self::Task, Self::Leaf>, AllocError>
        requires { lawful_task self.now task }
        ensures { IfOk result (λ made. made ≡ step self.now task) };

    ghost keeps_lawful: { (splitter : Self) (task : Self.Task) → lawful_task splitter task
        → IsLawfulStep (lawful_task splitter) (lawful_leaf splitter) (step splitter task) };
}

#[cfg(test)]
mod tests {
    use super::*;
    use crate::event::Event;
    use crate::key::Offer;
    use crate::path::Path;
    use std::test::Fail;

    /// A splitter that gives each task back as a leaf.
    #[derive(Drop)]
    struct Emitter;

    impl Splitter for Emitter {
        type Task = u32;

        type Leaf = u32;

        ghost use Rattle.split_paths.specs.declared.splitter.Step.TheVariants.{Emit};

        ghost step = { λ splitter task. Emit task };

        ghost lawful_task = { λ splitter task. Unit {0} };

        ghost lawful_leaf = { λ splitter leaf. Unit {0} };

        ghost keeps_lawful = { λ splitter task lawful. tt };

        fn expand(&self, _alloc: Global, task: u32) -> Result<Step<u32, u32>, AllocError> {
            Ok(Step::Emit(task))
        }
    }

    fn is_sent<T: Send>(_: &T) {}

    fn is_shared<T: Sync>(_: &T) {}

    /// What is moved between threads and shared by them, where tasks and leaves can be.
    fn crosses<X: Splitter>(offer: &Offer<X>, event: &Event<X::Leaf>, step: &Step<X::Task, X::Leaf>)
    where
        X::Task: Send + Sync,
        X::Leaf: Send + Sync,
    {
        is_sent(offer);
        is_shared(offer);
        is_sent(event);
        is_shared(event);
        is_sent(step);
        is_shared(step);
    }

    fn expanded<X: Splitter>(
        splitter: &X,
        alloc: Global,
        task: X::Task,
    ) -> Result<Step<X::Task, X::Leaf>, AllocError>
        requires { X.lawful_task splitter.now task }
    {
        splitter.expand(alloc, task)
    }

    #[test]
    fn a_step_is_made_through_the_trait(rt: HostRuntime) -> Result<(), Fail> {
        let step = expanded(&Emitter, rt.alloc(), 7)?;
        assert!(rt; matches!(&step, Step::Emit(7)));
        let offer = Offer::<Emitter> {
            path: Path::root(rt.alloc()),
            steps: 1,
            task: 7,
        };
        let event = Event::Split {
            path: Path::root(rt.alloc()),
            kids: 2,
        };
        crosses(&offer, &event, &step);
        assert_eq!(rt; offer.steps, 1);
        Ok(())
    }
}
