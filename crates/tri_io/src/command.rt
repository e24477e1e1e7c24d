ghost use Rattle.std.specs.Prelude.{map, string_bytes, IfOk, IsErrOf};
ghost use Rattle.tri_io.specs.Commands.{Options, IsCommand, CommandsAreKnown};

use crate::{NumberOption, WordsFault, numbers_of};
use std::alloc::Global;
use std::marker::Model;

// How many workers there are where the words don't say it.
const USUAL_WORKERS: u32 = 4;

// How many workers there are.
const WORKERS: NumberOption = NumberOption {
    name: "workers",
    least: 1,
    most: 16,
    default: Some(USUAL_WORKERS),
};

// How many steps each branch may take.
const STEPS: NumberOption = NumberOption {
    name: "steps",
    least: 1,
    most: 1_000_000,
    default: Some(10_000),
};

// The width that products have to fit.
const WIDTH: NumberOption = NumberOption {
    name: "width",
    least: 1,
    most: 1_000_000,
    default: Some(100_000),
};

// The number that a system is made from, in place of one that is read.
const MADE: NumberOption = NumberOption {
    name: "made",
    least: 1,
    most: 9_000,
    default: None,
};

/// The numbers of a command line's options, the default where an option isn't given and has one.
#[derive(Debug, Drop)]
pub struct Command {
    /// How many workers there are.
    pub workers: u32,

    /// How many steps each branch may take.
    pub steps: u32,

    /// The width that products have to fit.
    pub width: u32,

    /// The number that the system is made from, where it isn't read.
    pub made: Option<u32>,
}

impl Model for Command {
    ghost use Rattle.tri_io.specs.Commands.{Options};

    ghost Value = { Options };

    ghost view = { λ c. record {
      workers = c.workers;
      steps = c.steps;
      width = c.width;
      made = c.made;
    } };
}

/// The command that the words are, without the program's name.
///
/// An option is `--NAME=NUMBER` or `--NAME NUMBER`, with its name in full and each at most once.
/// There is no help word.
pub fn command_of(
    alloc: Global,
    words: &[String],
    with_workers: bool,
) -> Result<Command, WordsFault>
    ensures command { IfOk result (λ c. IsCommand with_workers (map string_bytes words.now) c) }
    ensures refused { IsErrOf result WordsFault.NotACommand → (options : Options)
        → IsCommand with_workers (map string_bytes words.now) options → ⊥ }
{
    if with_workers {
        let numbers = numbers_of(alloc, &[WORKERS, STEPS, WIDTH, MADE], words)?;
        match numbers.as_slice() {
            [Some(workers), Some(steps), Some(width), made] => Ok(Command {
                workers: *workers,
                steps: *steps,
                width: *width,
                made: *made,
            }),
            _ => unreachable!(),
        }
    } else {
        let numbers = numbers_of(alloc, &[STEPS, WIDTH, MADE], words)?;
        match numbers.as_slice() {
            [Some(steps), Some(width), made] => Ok(Command {
                workers: USUAL_WORKERS,
                steps: *steps,
                width: *width,
                made: *made,
            }),
            _ => unreachable!(),
        }
    }
}

/// No words are two commands.
pub fn commands_are_known()
    ensures { CommandsAreKnown }
{}

#[cfg(test)]
mod tests {
    use super::*;
    use std::alloc::AllocError;
    use std::test::Fail;

    fn words_of(alloc: Global, line: &str) -> Result<Vec<String>, AllocError> {
        let mut words = Vec::new(alloc);
        for word in line.split_whitespace() {
            words.push(String::from_str(alloc, word)?)?;
        }
        Ok(words)
    }

    // Workers, steps and width of the command, if it is one.
    fn values_of(alloc: Global, words: &[String], with_workers: bool) -> Option<(u32, u32, u32)> {
        match command_of(alloc, words, with_workers) {
            Ok(command) => Some((command.workers, command.steps, command.width)),
            Err(_) => None,
        }
    }

    // From which number the command makes a system, if it is a command.
    fn made_of(alloc: Global, words: &[String], with_workers: bool) -> Option<Option<u32>> {
        match command_of(alloc, words, with_workers) {
            Ok(command) => Some(command.made),
            Err(_) => None,
        }
    }

    #[test]
    fn words_are_read_as_the_rules_say(rt: HostRuntime) -> Result<(), Fail> {
        for (line, values) in [
            ("", Some((4, 10_000, 100_000))),
            ("--steps=7 --width 9", Some((4, 7, 9))),
            ("--width=5 --steps=6", Some((4, 6, 5))),
            ("--workers 3 --width 8 --steps=1", Some((3, 1, 8))),
            ("--steps 1000000", Some((4, 1_000_000, 100_000))),
            ("--width 1000000", Some((4, 10_000, 1_000_000))),
            ("--workers=16", Some((16, 10_000, 100_000))),
            ("--workers 17", None),
            ("--workers 0", None),
            ("--steps 1000001", None),
            ("--width=4294967297", None),
            ("--steps 5 --steps 5", None),
            ("--steps=5 --width 6 --steps 5", None),
            ("--steps 05", None),
            ("--steps +5", None),
            ("--width=-5", None),
            ("--width=5x", None),
            ("--steps=5=5", None),
            ("--steps", None),
            ("--steps=", None),
            ("--steps --width=5", None),
            ("--steps 5 6", None),
            ("--ste=5", None),
            ("--Steps=5", None),
            ("-s 5", None),
            ("-steps 5", None),
            ("steps=5", None),
            ("--", None),
            ("-- --steps 5", None),
            ("--help", None),
            ("--version", None),
        ] {
            let words = words_of(rt.alloc(), line)?;
            assert_eq!(rt; values_of(rt.alloc(), &words, true), values, "at {line}");
        }
        Ok(())
    }

    #[test]
    fn a_system_is_made_from_a_number(rt: HostRuntime) -> Result<(), Fail> {
        for (line, made) in [
            ("", Some(None)),
            ("--made 1", Some(Some(1))),
            ("--made=9000", Some(Some(9_000))),
            ("--steps 3 --made=7 --width 2", Some(Some(7))),
            ("--made 0", None),
            ("--made 9001", None),
            ("--made 07", None),
            ("--made", None),
            ("--mad 7", None),
            ("--made 7 --made 7", None),
        ] {
            let words = words_of(rt.alloc(), line)?;
            for with_workers in [true, false] {
                assert_eq!(rt;
                    made_of(rt.alloc(), &words, with_workers),
                    made,
                    "at {line}"
                );
            }
        }
        Ok(())
    }

    #[test]
    fn workers_are_an_option_only_where_there_are_some(rt: HostRuntime) -> Result<(), Fail> {
        for (line, with_workers, values) in [
            ("--workers 2", true, Some((2, 10_000, 100_000))),
            ("--workers 2", false, None),
            ("--workers=4", false, None),
            ("--steps 2", false, Some((4, 2, 100_000))),
        ] {
            let words = words_of(rt.alloc(), line)?;
            assert_eq!(rt;
                values_of(rt.alloc(), &words, with_workers),
                values,
                "at {line}"
            );
        }
        Ok(())
    }
}
