ghost use Rattle.std.specs.Prelude.{◌≡◌, ◌≤◌, ◌+◌, eqb, not, length, IfSome};
ghost use Rattle.std.specs.Option.{option_copied};
ghost use Rattle.std.specs.List.{prefix_len};
ghost use Rattle.system_text.specs.Lines.{lines_of};
ghost use Rattle.system_parser.specs.Systems.{TakesLine, after_first};

use std::marker::Model;

/// What is left of a text, seen as its lines.
#[derive(Drop)]
pub struct Lines<'a> {
    rest: Option<&'a [u8]>,
}

impl<'a> Model for Lines<'a> {
    ghost use Rattle.std.specs.Prelude.{◌≤◌, List, ℕ, length, IfSome};
    ghost use Rattle.std.specs.Option.{option_copied};
    ghost use Rattle.system_parser.specs.Systems.{lines_left};

    ghost Value = { List (List ℕ) };

    ghost view = { λ s. lines_left (option_copied s.rest) };

    ghost invariant = { λ s. IfSome s.rest (λ bytes. length bytes.now ≤ 1_048_576) };
}

impl<'a> Lines<'a> {
    pub fn new(bytes: &'a [u8]) -> Self
        requires { length bytes.now ≤ 1_048_576 }
        ensures lines { result ≡ lines_of bytes.now }
        ensures count { length result ≤ length bytes.now + 1 }
    {
        Lines { rest: Some(bytes) }
    }

    /// Takes the next line, without its line feed.
    pub fn next(&mut self) -> Option<&'a [u8]>
        ensures line { TakesLine (option_copied result) self.old self.new }
        ensures short { IfSome result (λ line. length line.now ≤ 1_048_576) }
    {
        match self.rest {
            None => None,
            Some(bytes) => {
                let length = line_length(bytes);
                let (line, rest) = bytes.split_at(length);
                self.rest = after_line_feed(rest);
                Some(line)
            }
        }
    }
}

/// How many bytes stand before the first line feed.
fn line_length(bytes: &[u8]) -> usize
    ensures count { result ≡ prefix_len (λ b. not (eqb b 10)) bytes.now }
    ensures within { result ≤ length bytes.now }
{
    bytes.iter().take_while(|b| **b != b'\n').count()
}

/// What stands after a line feed, where there is one.
fn after_line_feed(rest: &[u8]) -> Option<&[u8]>
    ensures { option_copied result ≡ after_first rest.now }
{
    match rest.split_first() {
        None => None,
        Some((_, after)) => Some(after),
    }
}
