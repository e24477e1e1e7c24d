ghost use Rattle.split_paths.specs.declared.splitter.Step.{Step};
ghost use Rattle.tree_laws.specs.Laws.{AnswersCoverTheRoot, AnswersAreEmitted};

use crate::property::Property;

/// Whatever step the tree is made by: where it loses no point, its answer loses none.
pub fn answers_cover_the_root<T, L, LawfulTask, LawfulLeaf, InTask, InLeaf>()
where
    LawfulTask: Property<T>,
    LawfulLeaf: Property<L>,
    InTask: Property<T>,
    InLeaf: Property<L>,
    ensures { (step : T → Step T L)
        → AnswersCoverTheRoot step LawfulTask.holds LawfulLeaf.holds InTask.holds InLeaf.holds }
{}

/// Whatever step the tree is made by: what holds of all that it emits holds of its answer.
pub fn answers_are_emitted<T, L, LawfulTask, LawfulLeaf, Emitted>()
where
    LawfulTask: Property<T>,
    LawfulLeaf: Property<L>,
    Emitted: Property<L>,
    ensures { (step : T → Step T L)
        → AnswersAreEmitted step LawfulTask.holds LawfulLeaf.holds Emitted.holds }
{}
