ghost use Rattle.std.specs.Prelude.{◌≡◌, ◌≢◌, ◌<◌, ◌≤◌, length, slice_index, IfSome};
ghost use Rattle.system_text.specs.Tokens.{sign_or_stray, tokens};
ghost use Rattle.system_parser.specs.Tokens.{token_of, token_length, BeginWith, IsSpelled, TakesToken};

use crate::characters::{
    is_character, is_digit, is_letter, leading_digits, leading_name_characters, leading_spaces,
    without_first,
};
use std::marker::Model;

/// A token of a line, whose bytes it borrows.
#[derive(Clone, Copy, Debug)]
pub enum Token<'a> {
    /// A letter, then letters, digits and underscores.
    Name(&'a [u8]),
    /// `0`, or digits of which the first isn't `0`.
    Number(&'a [u8]),
    Plus,
    Minus,
    Times,
    Power,
    Open,
    Close,
    /// A character that begins no token.
    Stray,
    /// A byte that is no character.
    NotText,
}

/// A token with the places of its first and its last byte, counted from 1.
#[derive(Clone, Copy, Debug)]
pub struct Placed<'a> {
    pub token: Token<'a>,
    pub first: u32,
    pub last: u32,
}

impl<'a> Token<'a> {
    /// The token that the bytes begin with.
    fn at(bytes: &'a [u8]) -> Self
        requires some { 0 < length bytes.now }
        requires no_space { slice_index bytes.now 0 ≢ 32 }
        ensures token { BeginWith bytes.now (token_of result) }
        ensures some { 0 < token_length (token_of result) }
        ensures within { token_length (token_of result) ≤ length bytes.now }
        ensures spelled { IsSpelled (token_of result) }
    {
        let first = bytes[0];
        if is_letter(first) {
            Token::Name(&bytes[..leading_name_characters(bytes)])
        } else if first == b'0' {
            Token::Number(&bytes[..1])
        } else if is_digit(first) {
            Token::Number(&bytes[..leading_digits(bytes)])
        } else {
            Token::sign_or_stray(first)
        }
    }

    fn sign_or_stray(b: u8) -> Self
        ensures token { token_of result ≡ sign_or_stray b }
        ensures length { token_length (token_of result) ≡ 1 }
        ensures spelled { IsSpelled (token_of result) }
    {
        match b {
            b'+' => Token::Plus,
            b'-' => Token::Minus,
            b'*' => Token::Times,
            b'^' => Token::Power,
            b'(' => Token::Open,
            b')' => Token::Close,
            _ => {
                if is_character(b) {
                    Token::Stray
                } else {
                    Token::NotText
                }
            }
        }
    }

    /// How many bytes it has.
    fn length(&self) -> usize
        ensures { result ≡ token_length (token_of self.now) }
    {
        match self {
            Token::Name(bytes) => bytes.len(),
            Token::Number(bytes) => bytes.len(),
            _ => 1,
        }
    }
}

/// What is left of a line, seen as its tokens.
#[derive(Drop)]
pub struct Cursor<'a> {
    rest: &'a [u8],
    place: u32,
}

impl<'a> Model for Cursor<'a> {
    ghost use Rattle.std.specs.Prelude.{◌+◌, ◌<◌, ◌^◌, List, length, None};
    ghost use Rattle.system_text.specs.Tokens.{Placed as TextPlaced, tokens_from};

    ghost Value = { List TextPlaced };

    ghost view = { λ c. tokens_from c.place None c.rest.now };

    ghost invariant = { λ c. (c.place + length c.rest.now < 2 ^ 32) × (0 < c.place) };
}

impl<'a> Cursor<'a> {
    pub fn new(line: &'a [u8]) -> Self
        requires { length line.now ≤ 1_048_576 }
        ensures { result ≡ tokens line.now }
    {
        Cursor {
            rest: line,
            place: 1,
        }
    }

    /// Takes the next token.
    pub fn next(&mut self) -> Option<Placed<'a>>
        ensures token { TakesToken result self.old self.new }
        ensures spelled { IfSome result (λ t. IsSpelled (token_of t.token)) }
    {
        let spaces = leading_spaces(self.rest);
        let start = without_first(self.rest, spaces);
        let first = self.place + spaces as u32;
        if start.is_empty() {
            return None;
        }
        let token = Token::at(start);
        let length = token.length();
        self.rest = without_first(start, length);
        self.place = first + length as u32;
        Some(Placed {
            token,
            first,
            last: self.place - 1,
        })
    }
}
