ghost use Rattle.std.specs.Prelude.{◌≡◌, ◌≤◌, length, IfOk, IfSome, OnOk};
ghost use Rattle.std.specs.Str.Parse.{AllDigits};
ghost use Rattle.polynomials.specs.Polynomials.{IsPolynomial};
ghost use Rattle.polynomials.specs.Fits.{power_within};
ghost use Rattle.system_text.specs.Limits.{text_width};
ghost use Rattle.system_text.specs.Factors.{with_factor, variable_at, number_base, at_factor, after_factor_at, power_factor, exponent_at, at_exponent, place_of_name};
ghost use Rattle.system_parser.specs.Tokens.{token_of, placed_of, IsSpelled};
ghost use Rattle.system_parser.specs.Readings.{Gives};
ghost use Rattle.system_parser.specs.Sums.{frame_of, frames_of, reading_of, IsReading};
ghost use Rattle.system_parser.specs.Systems.{setting_over};

use crate::faults::{Fault, LineFault};
use crate::names::place_of;
use crate::numbers::number_of;
use crate::powers::{power, product};
use crate::sums::{Base, Mode, Reading};
use crate::tokens::{Placed, Token};
use mono_words::{Mono, VARS};
use sparse_poly::{Poly, System};
use std::alloc::AllocError;

// The greatest exponent of a name or a number.
const MOST_EXPONENT: u16 = 65_535;

impl Reading {
    /// Takes the first token of a factor.
    pub fn at_factor(&mut self, over: &System, t: &Placed<'_>) -> Result<(), LineFault>
        requires names { length over.now.names ≤ VARS }
        requires reading { IsReading over.now.field self.old }
        requires spelled { IsSpelled (token_of t.now.token) }
        ensures state { Gives (λ _. reading_of over.now.field self.new) result
            (at_factor (setting_over over.now) (frames_of over.now.field self.old.outer)
            (frame_of over.now.field self.old.frame) (placed_of t.now) (token_of t.now.token)) }
        ensures reading { OnOk result (IsReading over.now.field self.new) }
    {
        match t.token {
            Token::Name(name) => self.variable(over, t, name),
            Token::Number(digits) => self.number(over, t, digits),
            Token::Open => self.open(over, t),
            _ => Err(LineFault::Refused(Fault::misplaced(8, t))),
        }
    }

    fn variable(&mut self, over: &System, t: &Placed<'_>, name: &[u8]) -> Result<(), LineFault>
        requires names { length over.now.names ≤ VARS }
        requires reading { IsReading over.now.field self.old }
        ensures state { Gives (λ _. reading_of over.now.field self.new) result
            (variable_at (setting_over over.now) (frames_of over.now.field self.old.outer)
            (frame_of over.now.field self.old.frame)
            (placed_of t.now) (place_of_name 0 (setting_over over.now).names name.now)) }
        ensures reading { OnOk result (IsReading over.now.field self.new) }
    {
        match place_of(&over.names, name) {
            None => Err(LineFault::Refused(Fault {
                number: 7,
                byte: t.first,
            })),
            Some(v) => {
                over.field.facts();
                let value = Poly::from_terms(self.alloc, over.field, &[(Mono::power(v, 1), 1)])?;
                self.mode = Mode::AfterBase(Base {
                    value,
                    last: t.last,
                    most: MOST_EXPONENT,
                });
                Ok(())
            }
        }
    }

    fn number(&mut self, over: &System, t: &Placed<'_>, digits: &[u8]) -> Result<(), LineFault>
        requires reading { IsReading over.now.field self.old }
        requires digits { AllDigits 10 digits.now }
        ensures state { Gives (λ _. reading_of over.now.field self.new) result
            (number_base (setting_over over.now) (frames_of over.now.field self.old.outer)
            (frame_of over.now.field self.old.frame) (placed_of t.now) digits.now) }
        ensures reading { OnOk result (IsReading over.now.field self.new) }
    {
        match number_of(digits) {
            None => Err(LineFault::Refused(Fault {
                number: 9,
                byte: t.first,
            })),
            Some(n) => {
                let value = Poly::constant(self.alloc, over.field, over.field.residue(n))?;
                self.mode = Mode::AfterBase(Base {
                    value,
                    last: t.last,
                    most: MOST_EXPONENT,
                });
                Ok(())
            }
        }
    }

    /// The product of the term with one more factor, where it fits.
    pub fn times(&self, over: &System, value: Poly) -> Result<Option<Poly>, AllocError>
        requires reading { IsReading over.now.field self.now }
        requires over { IsPolynomial over.now.field VARS value }
        ensures value { IfOk result (λ r. r ≡
            with_factor over.now.field self.now.frame.product value) }
        ensures over { IfOk result (λ r. IfSome r (IsPolynomial over.now.field VARS)) }
    {
        match &self.frame.product {
            None => Ok(Some(value)),
            Some(earlier) => product(over.field, earlier, &value),
        }
    }

    /// Takes the exponent of a base.
    pub fn at_exponent(
        &mut self,
        over: &System,
        base: Base,
        t: &Placed<'_>,
    ) -> Result<(), LineFault>
        requires reading { IsReading over.now.field self.old }
        requires over { IsPolynomial over.now.field VARS base.value }
        requires spelled { IsSpelled (token_of t.now.token) }
        ensures state { Gives (λ _. reading_of over.now.field self.new) result
            (at_exponent (setting_over over.now) (frames_of over.now.field self.old.outer)
            (frame_of over.now.field self.old.frame)
            base.value base.most (placed_of t.now) (token_of t.now.token)) }
        ensures reading { OnOk result (IsReading over.now.field self.new) }
    {
        match t.token {
            Token::Number(digits) => self.exponent(over, base, t, digits),
            _ => Err(LineFault::Refused(Fault::misplaced(8, t))),
        }
    }

    fn exponent(
        &mut self,
        over: &System,
        base: Base,
        t: &Placed<'_>,
        digits: &[u8],
    ) -> Result<(), LineFault>
        requires reading { IsReading over.now.field self.old }
        requires over { IsPolynomial over.now.field VARS base.value }
        requires digits { AllDigits 10 digits.now }
        ensures state { Gives (λ _. reading_of over.now.field self.new) result
            (exponent_at (setting_over over.now) (frames_of over.now.field self.old.outer)
            (frame_of over.now.field self.old.frame)
            base.value base.most (placed_of t.now) digits.now) }
        ensures reading { OnOk result (IsReading over.now.field self.new) }
    {
        match number_of(digits) {
            None => Err(LineFault::Refused(Fault {
                number: 9,
                byte: t.first,
            })),
            Some(e) => if e > base.most as u64 {
                Err(LineFault::Refused(Fault {
                    number: 10,
                    byte: t.first,
                }))
            } else {
                self.raise(over, base.value, e as u16, t.last)
            }
        }
    }

    /// The power of a base becomes one more factor.
    fn raise(&mut self, over: &System, value: Poly, e: u16, last: u32) -> Result<(), LineFault>
        requires reading { IsReading over.now.field self.old }
        requires over { IsPolynomial over.now.field VARS value }
        ensures state { Gives (λ _. reading_of over.now.field self.new) result
            (power_factor (setting_over over.now) (frames_of over.now.field self.old.outer)
            (frame_of over.now.field self.old.frame)
            last (power_within over.now.field VARS text_width value e)) }
        ensures reading { OnOk result (IsReading over.now.field self.new) }
    {
        match power(self.alloc, over.field, value, e)? {
            None => Err(LineFault::Refused(Fault {
                number: 11,
                byte: last,
            })),
            Some(power) => self.factor(over, power, last),
        }
    }

    fn factor(&mut self, over: &System, value: Poly, last: u32) -> Result<(), LineFault>
        requires reading { IsReading over.now.field self.old }
        requires over { IsPolynomial over.now.field VARS value }
        ensures state { Gives (λ _. reading_of over.now.field self.new) result
            (after_factor_at (frames_of over.now.field self.old.outer)
            (frame_of over.now.field self.old.frame)
            last (with_factor over.now.field self.old.frame.product value)) }
        ensures reading { OnOk result (IsReading over.now.field self.new) }
    {
        match self.times(over, value)? {
            None => Err(LineFault::Refused(Fault {
                number: 11,
                byte: last,
            })),
            Some(product) => {
                self.mode = Mode::AfterFactor(product);
                Ok(())
            }
        }
    }
}
