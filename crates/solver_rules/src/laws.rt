ghost use Rattle.solver_rules.specs.Laws.{RunsHaveOneEnding};

/// A run whose source tells its bytes has one expected status and text.
pub fn runs_have_one_ending()
    ensures { RunsHaveOneEnding }
{}
