ghost use Rattle.step_bounds.specs.Bounds.{LinearSystemsAreNeverStopped, SystemsInOneVariableAreNeverStopped};
ghost use Rattle.step_bounds.specs.Terms.{TermsAreFew};

/// Polynomials of low degree have few terms.
pub fn terms_are_few()
    ensures { TermsAreFew }
{}

/// A linear system ends within limits that are known in advance.
pub fn linear_systems_are_never_stopped()
    ensures { LinearSystemsAreNeverStopped }
{}

/// So does a system in one variable.
pub fn systems_in_one_variable_are_never_stopped()
    ensures { SystemsInOneVariableAreNeverStopped }
{}
