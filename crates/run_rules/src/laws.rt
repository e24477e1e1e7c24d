ghost use Rattle.run_rules.specs.Programs.{Program};
ghost use Rattle.run_rules.specs.Laws.{HasKnownCommands, HasKnownEndings};

/// A program, which the law names by a type.
pub trait NamedProgram<O, S> {
    ghost program: { Program O S };
}

/// A run has one expected ending, where no words are two commands.
pub fn endings_are_known<O, S, P: NamedProgram<O, S>>()
    ensures { HasKnownCommands P.program → HasKnownEndings P.program }
{}
