ghost use Rattle.std.specs.Prelude.{◌≡◌, ◌<◌, ◌≤◌, ◌++◌, List, [], ◌∷◌, length, IfOk, OnOk};
ghost use Rattle.std.specs.List.{AllByRecursion, list_any};
ghost use Rattle.std.specs.Str.{bytes_eq};
ghost use Rattle.std.specs.String.{string_bytes};
ghost use Rattle.std.specs.Str.Parse.{AllDigits};
ghost use Rattle.system_text.specs.Tokens.{Token as TextToken, Placed as TextPlaced};
ghost use Rattle.system_text.specs.Heads.{after_word, word_first, prime_number, read_prime, with_name, read_order, names_from, reserved_names};
ghost use Rattle.system_parser.specs.Tokens.{token_of, placed_of, IsSpelled};
ghost use Rattle.system_parser.specs.Readings.{GivesExactly, Gives};
ghost use Rattle.system_parser.specs.Systems.{names_of};

use crate::faults::{Fault, LineFault};
use crate::names::place_of;
use crate::numbers::number_of;
use crate::tokens::{Cursor, Placed, Token};
use field_table::Field;
use mono_words::VARS;
use sparse_poly::Names;
use std::alloc::{AllocError, Global};

/// The field of the line `prime P`.
pub fn read_prime(line: &[u8]) -> Result<Field, Fault>
    requires { length line.now ≤ 1_048_576 }
    ensures { GivesExactly (λ f. f) result (read_prime line.now) }
{
    let end = line.len() as u32 + 1;
    let mut tokens = Cursor::new(line);
    take_word(&mut tokens, b"prime", 2, end)?;
    match tokens.next() {
        None => Err(Fault {
            number: 2,
            byte: end,
        }),
        Some(t) => prime_of(&t, &mut tokens),
    }
}

fn prime_of(t: &Placed<'_>, tokens: &mut Cursor<'_>) -> Result<Field, Fault>
    requires { IsSpelled (token_of t.now.token) }
    ensures { GivesExactly (λ f. f) result
        (prime_number (placed_of t.now) (token_of t.now.token) tokens.old) }
{
    match t.token {
        Token::Number(digits) => prime_number(t, digits, tokens),
        _ => Err(Fault::misplaced(2, t)),
    }
}

fn prime_number(t: &Placed<'_>, digits: &[u8], tokens: &mut Cursor<'_>) -> Result<Field, Fault>
    requires { AllDigits 10 digits.now }
    ensures { GivesExactly (λ f. f) result
        (prime_number (placed_of t.now) (TextToken.Number digits.now) tokens.old) }
{
    let Some(p) = number_of(digits) else {
        return Err(Fault {
            number: 9,
            byte: t.first,
        });
    };
    match Field::of(p) {
        Err(_) => Err(Fault {
            number: 3,
            byte: t.first,
        }),
        Ok(field) => match tokens.next() {
            None => Ok(field),
            Some(next) => Err(Fault::misplaced(2, &next)),
        }
    }
}

/// Takes the word that a head line begins with.
fn take_word(tokens: &mut Cursor<'_>, word: &[u8], number: u8, end: u32) -> Result<(), Fault>
    ensures { GivesExactly (λ _. tokens.new) result (word_first number word.now end tokens.old) }
{
    match tokens.next() {
        None => Err(Fault { number, byte: end }),
        Some(t) => is_word(&t, word, number),
    }
}

fn is_word(t: &Placed<'_>, word: &[u8], number: u8) -> Result<(), Fault>
    ensures { (ts : List TextPlaced) → GivesExactly (λ _. ts) result
        (after_word number word.now (placed_of t.now) (token_of t.now.token) ts) }
{
    match t.token {
        Token::Name(name) => if name == word {
            Ok(())
        } else {
            Err(Fault::misplaced(number, t))
        },
        _ => Err(Fault::misplaced(number, t)),
    }
}

/// The names of the line `order NAME ..`.
pub fn read_order(alloc: Global, line: &[u8]) -> Result<Names, LineFault>
    requires { length line.now ≤ 1_048_576 }
    ensures names { Gives names_of result (read_order VARS line.now) }
    ensures most { IfOk result (λ names. length names ≤ VARS) }
{
    let end = line.len() as u32 + 1;
    let mut tokens = Cursor::new(line);
    take_word(&mut tokens, b"order", 4, end)?;
    read_names(alloc, &mut tokens, end)
}

/// The names of an order line, after its word.
fn read_names(alloc: Global, tokens: &mut Cursor<'_>, end: u32) -> Result<Names, LineFault>
    ensures names { Gives names_of result (names_from VARS end [] tokens.old) }
    ensures most { IfOk result (λ names. length names ≤ VARS) }
{
    let mut names = Names::new(alloc);
    while let Some(t) = tokens.next() {
        add_name(alloc, &mut names, &t)?;
    }
    if names.is_empty() {
        return Err(LineFault::Refused(Fault {
            number: 4,
            byte: end,
        }));
    }
    Ok(names)
}

/// Adds one more name, where it may stand after these.
fn add_name(alloc: Global, names: &mut Names, t: &Placed<'_>) -> Result<(), LineFault>
    requires { IsSpelled (token_of t.now.token) }
    ensures names { Gives (λ _. names_of names.new) result
        (with_name VARS (names_of names.old) (placed_of t.now) (token_of t.now.token)) }
    ensures most { OnOk result (length names.new ≤ VARS) }
{
    match t.token {
        Token::Name(name) => {
            check_name(names, t, name)?;
            names.push(text_of(alloc, name)?)?;
            Ok(())
        }
        _ => Err(LineFault::Refused(Fault::misplaced(4, t))),
    }
}

/// Whether a name may stand after these.
fn check_name(names: &Names, t: &Placed<'_>, name: &[u8]) -> Result<(), Fault>
    ensures names { GivesExactly (λ _. names_of names.now ++ name.now ∷ []) result
        (with_name VARS (names_of names.now) (placed_of t.now) (TextToken.Name name.now)) }
    ensures room { OnOk result (length names.now < VARS) }
{
    if is_reserved(name) {
        return Err(Fault {
            number: 4,
            byte: t.first,
        });
    }
    if names.count() >= VARS {
        return Err(Fault {
            number: 5,
            byte: t.first,
        });
    }
    if place_of(names, name).is_some() {
        return Err(Fault {
            number: 6,
            byte: t.first,
        });
    }
    Ok(())
}

/// Whether no variable has this name.
fn is_reserved(name: &[u8]) -> bool
    ensures { result ≡ list_any (bytes_eq name.now) reserved_names }
{
    name == b"prime".as_slice() || name == b"order".as_slice() || name == b"nonzero".as_slice()
}

/// A name as text.
fn text_of(alloc: Global, name: &[u8]) -> Result<String, AllocError>
    requires { AllByRecursion (λ b. b < 128) name.now }
    ensures { IfOk result (λ text. string_bytes text ≡ name.now) }
{
    let mut text = String::new(alloc);
    for b in name {
        text.push(*b as char)?;
    }
    Ok(text)
}
