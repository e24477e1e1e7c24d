ghost use Rattle.std.specs.Prelude.{◌≡◌, ◌≢◌, ℕ, List, Some, map, option_map, codes, false, IfOk, IfSome, OnOk, OnErr, IsErrOf, string_bytes};
ghost use Rattle.std.specs.List.{list_any};
ghost use Rattle.std.specs.Option.{option_or};
ghost use Rattle.std.specs.Str.{bytes_eq};
ghost use Rattle.std.specs.Str.Parse.{digits_value};
ghost use Rattle.clap.specs.Words.{app_of, first_value, found_of, kind_of, rule_of};
ghost use Rattle.tri_io.specs.Commands.{AreItems, HasNumbers, IsNumberOf, Item};
ghost use Rattle.tri_io.specs.Texts.{AreRules, AreTexts, app_of_names, rule_names, option_rule, text_of};

use crate::NumberOption;
use clap::error::ErrorKind;
use clap::{Arg, ArgAction, ArgMatches, Command};
use std::alloc::{AllocError, Global};
use thiserror::Error;

/// Why words aren't read as a command.
#[derive(Debug, Drop, Error)]
pub enum WordsFault {
    /// They are no command.
    #[error("the words are no command")]
    NotACommand,

    /// There was no memory to read them.
    #[error("out of memory")]
    Memory(AllocError),
}

/// The numbers that the words give these options, in the options' order.
///
/// An option is `--NAME=NUMBER` or `--NAME NUMBER`, with its name in full and each at most once.
/// There is no help word.
pub fn numbers_of<'a>(
    alloc: Global,
    options: &[NumberOption],
    words: &'a [String],
) -> Result<Vec<Option<u32>>, WordsFault>
    requires { AreRules options.now }
    ensures numbers { IfOk result (λ numbers.
        HasNumbers options.now (map string_bytes words.entry.now) numbers.items) }
    ensures refused { IsErrOf result WordsFault.NotACommand → (items : List Item)
        → AreItems options.now (map string_bytes words.entry.now) items → ⊥ }
{
    let matches = matches_of(alloc, options, words)?;
    let mut numbers = Vec::new(alloc);
    for option in options {
        let number = number_in(&matches, option)?;
        numbers
            .push(number)
            .map_err(|_| WordsFault::Memory(AllocError))?;
    }
    Ok(numbers)
}

/// What the words give these options, as texts.
fn matches_of<'a>(
    alloc: Global,
    options: &[NumberOption],
    words: &'a [String],
) -> Result<ArgMatches<'a>, WordsFault>
    requires { AreRules options.now }
    ensures texts { IfOk result (λ m. (items : List Item)
        × AreTexts (rule_names options.now) (map string_bytes words.entry.now) items
        × ((name : List ℕ) → first_value (found_of m) name ≡ text_of name items)) }
    ensures refused { IsErrOf result WordsFault.NotACommand → (items : List Item)
        → AreItems options.now (map string_bytes words.entry.now) items → ⊥ }
{
    // The parser would pass over this word at the end.
    if has_break(words) {
        return Err(WordsFault::NotACommand);
    }
    let command = match command_with(alloc, options) {
        Ok(command) => command,
        Err(error) => return Err(WordsFault::Memory(error)),
    };
    match command.try_get_matches_from(words) {
        Ok(matches) => Ok(matches),
        Err(error) => Err(fault_of(&error)),
    }
}

/// Whether one of the words is two hyphens.
fn has_break(words: &[String]) -> bool
    ensures { result ≡ list_any (λ word. bytes_eq (string_bytes word) (codes "--")) words.now }
{
    words.iter().any(|word| word.as_str() == "--")
}

/// Why the parser doesn't take words.
fn fault_of(error: &clap::Error) -> WordsFault
    ensures { result ≡ WordsFault.NotACommand → kind_of error.now ≢ ErrorKind.OutOfMemory }
{
    match error.kind() {
        ErrorKind::OutOfMemory => WordsFault::Memory(AllocError),
        _ => WordsFault::NotACommand,
    }
}

/// The parser's command with these options.
fn command_with<'a>(alloc: Global, options: &[NumberOption]) -> Result<Command<'a>, AllocError>
    ensures { IfOk result (λ c. app_of c ≡ app_of_names (rule_names options.now)) }
{
    let mut command = Command::new(alloc, "options")
        .no_binary_name(true)
        .disable_help_flag(true)
        .disable_version_flag(true);
    for option in options {
        command = command.arg(text_option(alloc, option.name))?;
    }
    Ok(command)
}

/// The parser's option of this name.
fn text_option<'a>(alloc: Global, name: &'a str) -> Arg<'a>
    ensures rule { rule_of result ≡ option_rule name.entry.now }
    ensures local { result.global ≡ false }
{
    Arg::new(alloc, name).long(name).action(ArgAction::Set)
}

/// The number of the option: the one that the words give, or else its own.
fn number_in(matches: &ArgMatches<'_>, option: &NumberOption) -> Result<Option<u32>, WordsFault>
    ensures lawful { OnOk result
        (IfSome (first_value (found_of matches.now) option.now.name) (IsNumberOf option.now)) }
    ensures number { IfOk result (λ number. number ≡ option_or
        (option_map (digits_value 10) (first_value (found_of matches.now) option.now.name))
        option.now.default) }
    ensures refused { OnErr result ((digits : List ℕ)
        × (first_value (found_of matches.now) option.now.name ≡ Some digits)
        × (IsNumberOf option.now digits → ⊥)) }
{
    match matches.get_str(option.name) {
        Some(digits) => match option.number_of(digits) {
            Some(number) => Ok(Some(number)),
            None => Err(WordsFault::NotACommand),
        },
        None => Ok(option.default),
    }
}
