ghost use Rattle.case_laws.specs.Laws.{RootsStartWell, ZeroLeavesNothing, CaseStepsKeepLaw, CaseStepsLoseNoZero, EmittedLeavesAreSound, AnswersAreLawful, AnswersAreSound, AnswersHaveCommonZeros};

/// The tree of a system starts with a lawful task that has all its solutions.
pub fn roots_start_well()
    ensures { RootsStartWell }
{}

/// A system has no solution where 0 must not vanish, and its first step finds none.
pub fn zero_leaves_nothing()
    ensures { ZeroLeavesNothing }
{}

/// Steps make lawful tasks and triangular sets of lawful tasks, and no degree passes the limit.
pub fn case_steps_keep_law()
    ensures { CaseStepsKeepLaw }
{}

/// No step loses a solution, unless a product doesn't fit.
pub fn case_steps_lose_no_zero()
    ensures { CaseStepsLoseNoZero }
{}

/// What a step emits has common zeros of the inputs alone.
pub fn emitted_leaves_are_sound()
    ensures { EmittedLeavesAreSound }
{}

/// An answer is made of lawful triangular sets, stopped or not.
pub fn answers_are_lawful()
    ensures { AnswersAreLawful }
{}

/// An answer has common zeros of the inputs alone, stopped or not.
pub fn answers_are_sound()
    ensures { AnswersAreSound }
{}

/// An answer that isn't stopped has all solutions of the system.
pub fn answers_have_common_zeros()
    ensures { AnswersHaveCommonZeros }
{}
