ghost use Rattle.case_tree.specs.Laws.{StepsLoseNoCommonZero, EmitsCommonZerosAlone, StepsLowerTheRank};

/// No step of a system's task loses a solution, unless a product doesn't fit.
pub fn steps_lose_no_common_zero()
    ensures { StepsLoseNoCommonZero }
{}

/// What a step of a system's task emits has solutions of the system alone.
pub fn emits_common_zeros_alone()
    ensures { EmitsCommonZerosAlone }
{}

/// Each child of a step of a system's task has less rank than the task, so no branch goes on for ever.
pub fn steps_lower_the_rank()
    ensures { StepsLowerTheRank }
{}
