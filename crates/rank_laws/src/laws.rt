ghost use Rattle.rank_laws.specs.Ends.{EveryBranchEnds, SystemsNeedSomeSteps};
ghost use Rattle.rank_laws.specs.Laws.{CaseStepsLowerTheRank, ImposedChildrenHaveLessRank};

/// Each child that an imposed polynomial gives has less rank.
pub fn imposed_children_have_less_rank()
    ensures { ImposedChildrenHaveLessRank }
{}

/// Each child of a step has less rank than its task.
pub fn case_steps_lower_the_rank()
    ensures { CaseStepsLowerTheRank }
{}

/// Some number of steps is enough for every branch below a task.
pub fn every_branch_ends()
    ensures { EveryBranchEnds }
{}

/// Some number of steps is enough for every branch of a system.
pub fn systems_need_some_steps()
    ensures { SystemsNeedSomeSteps }
{}
