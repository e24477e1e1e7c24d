ghost use Rattle.std.specs.Prelude.{◌≡◌, ◌≤◌, ℕ, length, IfOk, OnOk};
ghost use Rattle.polynomials.specs.Polynomials.{IsPolynomial};
ghost use Rattle.system_text.specs.Readings.{start};
ghost use Rattle.system_text.specs.Factors.{opened_at, at_sum};
ghost use Rattle.system_text.specs.Sums.{closed_at, next_term, after_factor, after_bare, after_base_token, step, ended_with, line_ended, read_tokens, read_sum};
ghost use Rattle.system_text.specs.Lines.{is_nonzero_line, is_nonzero_word, read_nonzero};
ghost use Rattle.system_parser.specs.Tokens.{token_of, placed_of, IsSpelled};
ghost use Rattle.system_parser.specs.Readings.{Gives};
ghost use Rattle.system_parser.specs.Sums.{frame_of, frames_of, reading_of, IsReading};
ghost use Rattle.system_parser.specs.Systems.{setting_over};

use crate::faults::{Fault, LineFault};
use crate::frames::Frame;
use crate::tokens::{Cursor, Placed, Token};
use item_lists::Items;
use mono_words::VARS;
use sparse_poly::{Poly, System};
use std::alloc::Global;
use std::mem;

// The greatest exponent of a parenthesis.
const MOST_POWER: u16 = 64;

// The most parentheses that are open.
const MOST_DEPTH: usize = 64;

/// A base that was read, and what its power may be.
#[derive(Debug, Drop)]
pub struct Base {
    /// Its value.
    pub value: Poly,
    /// The place of its last byte.
    pub last: u32,
    /// The greatest exponent.
    pub most: u16,
}

/// Where the reading of a sum stands.
#[derive(Debug, Drop)]
pub enum Mode {
    /// Before its first token.
    AtSum,
    /// Before a factor.
    AtFactor,
    /// After a base.
    AfterBase(Base),
    /// After the sign of a power.
    AtExponent(Base),
    /// After a factor, with the product of the term so far.
    AfterFactor(Poly),
}

/// The sums that are open, and where the reading stands in the innermost.
#[derive(Debug, Drop)]
pub struct Reading {
    pub alloc: Global,
    /// The sums round this one, the innermost first.
    pub outer: Items<Frame>,
    pub frame: Frame,
    pub mode: Mode,
}

/// Reads a line as a sum over the field and the names of a system.
pub fn read_sum(alloc: Global, over: &System, line: &[u8]) -> Result<Poly, LineFault>
    requires names { length over.now.names ≤ VARS }
    requires short { length line.now ≤ 1_048_576 }
    ensures value { Gives (λ f. f) result (read_sum (setting_over over.now) line.now) }
    ensures over { IfOk result (IsPolynomial over.now.field VARS) }
{
    read_tokens(alloc, over, Cursor::new(line), line.len() as u32 + 1)
}

/// Reads a nonzero line, whose first token is its word, as the sum after it.
pub fn read_nonzero(alloc: Global, over: &System, line: &[u8]) -> Result<Poly, LineFault>
    requires names { length over.now.names ≤ VARS }
    requires short { length line.now ≤ 1_048_576 }
    ensures value { Gives (λ f. f) result (read_nonzero (setting_over over.now) line.now) }
    ensures over { IfOk result (IsPolynomial over.now.field VARS) }
{
    let mut tokens = Cursor::new(line);
    tokens.next();
    read_tokens(alloc, over, tokens, line.len() as u32 + 1)
}

/// Whether the first token of the line is the name `nonzero`.
pub fn is_nonzero_line(line: &[u8]) -> bool
    requires { length line.now ≤ 1_048_576 }
    ensures { result ≡ is_nonzero_line line.now }
{
    match Cursor::new(line).next() {
        None => false,
        Some(t) => is_nonzero_word(t.token),
    }
}

fn is_nonzero_word(token: Token<'_>) -> bool
    ensures { result ≡ is_nonzero_word (token_of token.entry) }
{
    match token {
        Token::Name(name) => name == b"nonzero".as_slice(),
        _ => false,
    }
}

/// Reads tokens up to the line's end as a sum.
fn read_tokens(
    alloc: Global,
    over: &System,
    mut tokens: Cursor<'_>,
    end: u32,
) -> Result<Poly, LineFault>
    requires { length over.now.names ≤ VARS }
    ensures value { Gives (λ f. f) result
        (read_tokens (setting_over over.now) end tokens.entry start) }
    ensures over { IfOk result (IsPolynomial over.now.field VARS) }
{
    let mut reading = Reading::start(alloc);
    while let Some(t) = tokens.next() {
        reading.step(over, &t)?;
    }
    reading.ended(over, end)
}

impl Reading {
    /// The reading of a line before its first token.
    fn start(alloc: Global) -> Self
        ensures state { (p : ℕ) → reading_of p result ≡ start }
        ensures reading { (p : ℕ) → IsReading p result }
    {
        Reading {
            alloc,
            outer: Items::new(alloc),
            frame: Frame::new(alloc),
            mode: Mode::AtSum,
        }
    }

    /// Takes the next token.
    fn step(&mut self, over: &System, t: &Placed<'_>) -> Result<(), LineFault>
        requires names { length over.now.names ≤ VARS }
        requires reading { IsReading over.now.field self.old }
        requires spelled { IsSpelled (token_of t.now.token) }
        ensures state { Gives (λ _. reading_of over.now.field self.new) result
            (step (setting_over over.now) (placed_of t.now) (reading_of over.now.field self.old)) }
        ensures reading { OnOk result (IsReading over.now.field self.new) }
    {
        match mem::replace(&mut self.mode, Mode::AtFactor) {
            Mode::AtSum => self.at_sum(over, t),
            Mode::AtFactor => self.at_factor(over, t),
            Mode::AfterBase(base) => self.after_base(over, base, t),
            Mode::AtExponent(base) => self.at_exponent(over, base, t),
            Mode::AfterFactor(product) => self.after_factor(over, product, t),
        }
    }

    fn at_sum(&mut self, over: &System, t: &Placed<'_>) -> Result<(), LineFault>
        requires names { length over.now.names ≤ VARS }
        requires reading { IsReading over.now.field self.old }
        requires spelled { IsSpelled (token_of t.now.token) }
        ensures state { Gives (λ _. reading_of over.now.field self.new) result
            (at_sum (setting_over over.now) (frames_of over.now.field self.old.outer)
            (frame_of over.now.field self.old.frame) (placed_of t.now) (token_of t.now.token)) }
        ensures reading { OnOk result (IsReading over.now.field self.new) }
    {
        match t.token {
            Token::Minus => {
                self.frame.is_negative = true;
                self.mode = Mode::AtFactor;
                Ok(())
            }
            _ => self.at_factor(over, t),
        }
    }

    pub fn open(&mut self, over: &System, t: &Placed<'_>) -> Result<(), LineFault>
        requires reading { IsReading over.now.field self.old }
        ensures state { Gives (λ _. reading_of over.now.field self.new) result
            (opened_at (setting_over over.now) (frames_of over.now.field self.old.outer)
            (frame_of over.now.field self.old.frame) (placed_of t.now)) }
        ensures reading { OnOk result (IsReading over.now.field self.new) }
    {
        if self.outer.count() >= MOST_DEPTH {
            return Err(LineFault::Refused(Fault {
                number: 12,
                byte: t.first,
            }));
        }
        let around = mem::replace(&mut self.frame, Frame::new(self.alloc));
        self.outer.push_front(around)?;
        self.mode = Mode::AtSum;
        Ok(())
    }

    fn after_base(&mut self, over: &System, base: Base, t: &Placed<'_>) -> Result<(), LineFault>
        requires reading { IsReading over.now.field self.old }
        requires over { IsPolynomial over.now.field VARS base.value }
        requires spelled { IsSpelled (token_of t.now.token) }
        ensures state { Gives (λ _. reading_of over.now.field self.new) result
            (after_base_token (setting_over over.now) (frames_of over.now.field self.old.outer)
            (frame_of over.now.field self.old.frame)
            base.value base.last base.most (placed_of t.now) (token_of t.now.token)) }
        ensures reading { OnOk result (IsReading over.now.field self.new) }
    {
        match t.token {
            Token::Power => {
                self.mode = Mode::AtExponent(base);
                Ok(())
            }
            _ => self.after_bare(over, base, t),
        }
    }

    /// The base has no power.
    fn after_bare(&mut self, over: &System, base: Base, t: &Placed<'_>) -> Result<(), LineFault>
        requires reading { IsReading over.now.field self.old }
        requires over { IsPolynomial over.now.field VARS base.value }
        requires spelled { IsSpelled (token_of t.now.token) }
        ensures state { Gives (λ _. reading_of over.now.field self.new) result
            (after_bare (setting_over over.now) (frames_of over.now.field self.old.outer)
            (frame_of over.now.field self.old.frame) base.value base.last (placed_of t.now)) }
        ensures reading { OnOk result (IsReading over.now.field self.new) }
    {
        match self.times(over, base.value)? {
            None => Err(LineFault::Refused(Fault {
                number: 11,
                byte: base.last,
            })),
            Some(product) => self.after_factor(over, product, t),
        }
    }

    fn after_factor(
        &mut self,
        over: &System,
        product: Poly,
        t: &Placed<'_>,
    ) -> Result<(), LineFault>
        requires reading { IsReading over.now.field self.old }
        requires over { IsPolynomial over.now.field VARS product }
        requires spelled { IsSpelled (token_of t.now.token) }
        ensures state { Gives (λ _. reading_of over.now.field self.new) result
            (after_factor (setting_over over.now) (frames_of over.now.field self.old.outer)
            (frame_of over.now.field self.old.frame)
            product (placed_of t.now) (token_of t.now.token)) }
        ensures reading { OnOk result (IsReading over.now.field self.new) }
    {
        match t.token {
            Token::Times => {
                self.frame.product = Some(product);
                self.mode = Mode::AtFactor;
                Ok(())
            }
            Token::Plus => self.next_term(over, product, false),
            Token::Minus => self.next_term(over, product, true),
            Token::Close => self.close(over, product, t),
            _ => Err(LineFault::Refused(Fault::misplaced(8, t))),
        }
    }

    fn next_term(
        &mut self,
        over: &System,
        product: Poly,
        is_negative: bool,
    ) -> Result<(), LineFault>
        requires reading { IsReading over.now.field self.old }
        requires over { IsPolynomial over.now.field VARS product }
        ensures state { Gives (λ _. reading_of over.now.field self.new) result
            (next_term (setting_over over.now) (frames_of over.now.field self.old.outer)
            (frame_of over.now.field self.old.frame) is_negative product) }
        ensures reading { OnOk result (IsReading over.now.field self.new) }
    {
        self.frame.end_term(over.field, &product)?;
        self.frame.is_negative = is_negative;
        self.frame.product = None;
        self.mode = Mode::AtFactor;
        Ok(())
    }

    /// The sum in parentheses becomes a base of the sum round it.
    fn close(&mut self, over: &System, product: Poly, t: &Placed<'_>) -> Result<(), LineFault>
        requires reading { IsReading over.now.field self.old }
        requires over { IsPolynomial over.now.field VARS product }
        ensures state { Gives (λ _. reading_of over.now.field self.new) result
            (closed_at (setting_over over.now) (frames_of over.now.field self.old.outer)
            (frame_of over.now.field self.old.frame) (placed_of t.now) product) }
        ensures reading { OnOk result (IsReading over.now.field self.new) }
    {
        match self.outer.take_first() {
            None => Err(LineFault::Refused(Fault::misplaced(8, t))),
            Some(around) => {
                let mut closed = mem::replace(&mut self.frame, around);
                closed.end_term(over.field, &product)?;
                let value = closed.sum(over.field)?;
                self.mode = Mode::AfterBase(Base {
                    value,
                    last: t.last,
                    most: MOST_POWER,
                });
                Ok(())
            }
        }
    }

    /// The line ends here.
    fn ended(mut self, over: &System, end: u32) -> Result<Poly, LineFault>
        requires reading { IsReading over.now.field self }
        ensures value { Gives (λ f. f) result
            (line_ended (setting_over over.now) end (reading_of over.now.field self)) }
        ensures over { IfOk result (IsPolynomial over.now.field VARS) }
    {
        match mem::replace(&mut self.mode, Mode::AtFactor) {
            Mode::AfterBase(base) => match self.times(over, base.value)? {
                None => Err(LineFault::Refused(Fault {
                    number: 11,
                    byte: base.last,
                })),
                Some(product) => self.whole(over, product, end),
            },
            Mode::AfterFactor(product) => self.whole(over, product, end),
            _ => Err(LineFault::Refused(Fault {
                number: 8,
                byte: end,
            })),
        }
    }

    /// The whole sum, where no parenthesis is open.
    fn whole(mut self, over: &System, product: Poly, end: u32) -> Result<Poly, LineFault>
        requires reading { IsReading over.now.field self }
        requires product { IsPolynomial over.now.field VARS product }
        ensures value { Gives (λ f. f) result (ended_with (setting_over over.now)
            (frames_of over.now.field self.outer)
            (frame_of over.now.field self.frame) end product) }
        ensures over { IfOk result (IsPolynomial over.now.field VARS) }
    {
        if !self.outer.is_empty() {
            return Err(LineFault::Refused(Fault {
                number: 8,
                byte: end,
            }));
        }
        self.frame.end_term(over.field, &product)?;
        Ok(self.frame.sum(over.field)?)
    }
}
