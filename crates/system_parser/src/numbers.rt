ghost use Rattle.std.specs.Prelude.{◌≡◌};
ghost use Rattle.std.specs.Str.Parse.{AllDigits};
ghost use Rattle.system_parser.specs.Numbers.{number_read};

// How many digits a number may have.
const MOST_DIGITS: usize = 18;

/// The number that the digits write, where they aren't too many.
pub fn number_of(digits: &[u8]) -> Option<u64>
    requires { AllDigits 10 digits.now }
    ensures { result ≡ number_read digits.now }
{
    if digits.len() > MOST_DIGITS {
        return None;
    }
    let mut value: u64 = 0;
    for b in digits {
        value = value * 10 + (*b - b'0') as u64;
    }
    Some(value)
}
