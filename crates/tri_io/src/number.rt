ghost use Rattle.std.specs.Prelude.{SomeIff};
ghost use Rattle.std.specs.Str.Parse.{digits_value};
ghost use Rattle.tri_io.specs.Commands.{IsNumberOf};

use std::marker::Model;

/// An option of a command line that takes a number.
#[derive(Debug, Drop)]
pub struct NumberOption {
    /// Its name, without hyphens.
    pub name: &'static str,

    /// The least number that it takes.
    pub least: u32,

    /// The greatest.
    pub most: u32,

    /// Its number where it isn't given, if it has one then.
    pub default: Option<u32>,
}

impl Model for NumberOption {
    ghost use Rattle.tri_io.specs.Commands.{Rule};

    ghost Value = { Rule };

    ghost view = { λ o. record {
      name = o.name.now;
      least = o.least;
      most = o.most;
      default = o.default;
    } };
}

impl NumberOption {
    /// The number that the digits are, where the option takes it. The first digit shows that there
    /// is no sign and no leading zero.
    pub fn number_of(&self, digits: &str) -> Option<u32>
        ensures { SomeIff result (IsNumberOf self.now digits.now) (digits_value 10 digits.now) }
    {
        let (least, most) = (self.least, self.most);
        match digits.as_bytes() {
            [b'1'..=b'9', ..] => match digits.parse::<u32>() {
                Ok(number) if least <= number && number <= most => Some(number),
                _ => None,
            },
            _ => None,
        }
    }
}
