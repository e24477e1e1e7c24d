ghost use Rattle.std.specs.Prelude.{◌<◌, ◌≤◌};
ghost use Rattle.mono_words.specs.declared.mono.TheConstants.{VARS};

use mono_words::VARS;

/// What is made.
#[derive(Clone, Copy, Debug)]
pub(crate) enum Operation {
    /// The product of both operands.
    Mul,
    /// The quotient of their product by the right one.
    Quo,
    /// The pseudo-remainder of the left one by the right one in the greatest variable.
    Prem,
}

impl Operation {
    fn of(name: &str) -> Option<Operation> {
        match name {
            "mul" => Some(Operation::Mul),
            "quo" => Some(Operation::Quo),
            "prem" => Some(Operation::Prem),
            _ => None,
        }
    }

    pub(crate) fn name(self) -> &'static str {
        match self {
            Operation::Mul => "mul",
            Operation::Quo => "quo",
            Operation::Prem => "prem",
        }
    }
}

/// Which monomials an operand has.
#[derive(Clone, Copy, Debug)]
pub(crate) enum Fill {
    /// The least ones whose exponents are below the side, but for the greatest variable's.
    Dense,
    /// Some whose exponents are below the side.
    Sparse,
}

impl Fill {
    fn of(name: &str) -> Option<Fill> {
        match name {
            "dense" => Some(Fill::Dense),
            "sparse" => Some(Fill::Sparse),
            _ => None,
        }
    }

    pub(crate) fn name(self) -> &'static str {
        match self {
            Fill::Dense => "dense",
            Fill::Sparse => "sparse",
        }
    }
}

/// An operation and its operands.
#[derive(Clone, Copy, Debug)]
pub(crate) struct Trial {
    pub(crate) operation: Operation,
    pub(crate) fill: Fill,
    pub(crate) variables: usize,
    pub(crate) side: u32,
    /// How many terms the operands are made of.
    pub(crate) left: u32,
    pub(crate) right: u32,
    /// How often the operation is done. Where it isn't, an operand stands for the result.
    pub(crate) repeats: u32,
    ghost some_variables: { 0 < variables },
    ghost few_variables: { variables ≤ VARS },
    ghost some_side: { 0 < side },
}

impl Trial {
    fn of(
        operation: Operation,
        fill: Fill,
        variables: u32,
        side: u32,
        left: u32,
        right: u32,
        repeats: u32,
    ) -> Trial {
        Trial {
            operation,
            fill,
            variables: (variables as usize).clamp(1, VARS),
            side: side.max(1),
            left,
            right,
            repeats,
        }
    }
}

/// What is made where no word says it.
pub(crate) fn short_trials() -> [Trial; 8] {
    [
        Trial::of(Operation::Mul, Fill::Dense, 2, 6, 31, 32, 1),
        Trial::of(Operation::Mul, Fill::Sparse, 3, 1001, 31, 32, 1),
        Trial::of(Operation::Mul, Fill::Sparse, 8, 41, 4, 250, 1),
        Trial::of(Operation::Quo, Fill::Dense, 3, 4, 31, 32, 1),
        Trial::of(Operation::Quo, Fill::Sparse, 3, 1001, 250, 4, 1),
        Trial::of(Operation::Quo, Fill::Sparse, 6, 4, 31, 32, 1),
        Trial::of(Operation::Prem, Fill::Dense, 2, 5, 45, 25, 1),
        Trial::of(Operation::Prem, Fill::Dense, 4, 2, 72, 40, 1),
    ]
}

/// The number in a place of the words, and 1 where there is none.
fn number_at(words: &[String], place: usize) -> u32 {
    let Some(word) = words.get(place) else {
        return 1;
    };
    match word.as_str().parse::<u32>() {
        Ok(number) => number,
        Err(_) => 1,
    }
}

/// The trial that the words ask for: the names of the operation and of the fill, and then the
/// numbers in their order.
pub(crate) fn trial_of(words: &[String]) -> Option<Trial> {
    let (Some(operation), Some(fill)) = (words.get(0), words.get(1)) else {
        return None;
    };
    let (Some(operation), Some(fill)) = (Operation::of(operation.as_str()), Fill::of(fill.as_str()))
    else {
        return None;
    };
    Some(Trial::of(
        operation,
        fill,
        number_at(words, 2),
        number_at(words, 3),
        number_at(words, 4),
        number_at(words, 5),
        number_at(words, 6),
    ))
}
