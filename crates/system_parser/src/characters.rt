ghost use Rattle.std.specs.Prelude.{◌≡◌, ◌≤◌, eqb, length, drop};
ghost use Rattle.std.specs.List.{prefix_len};
ghost use Rattle.system_text.specs.Characters.{is_character, is_letter, is_digit, is_name_character};

/// Whether the byte may stand in a text.
pub fn is_character(b: u8) -> bool
    ensures { result ≡ is_character b }
{
    b >= b' ' && b <= b'~'
}

/// Whether the byte may begin a name.
pub fn is_letter(b: u8) -> bool
    ensures { result ≡ is_letter b }
{
    b.is_ascii_alphabetic()
}

pub fn is_digit(b: u8) -> bool
    ensures { result ≡ is_digit b }
{
    b.is_ascii_digit()
}

/// Whether the byte may stand in a name after its first.
pub fn is_name_character(b: u8) -> bool
    ensures { result ≡ is_name_character b }
{
    is_letter(b) || is_digit(b) || b == b'_'
}

/// How many spaces the bytes begin with.
pub fn leading_spaces(bytes: &[u8]) -> usize
    ensures count { result ≡ prefix_len (λ b. eqb b 32) bytes.now }
    ensures within { result ≤ length bytes.now }
{
    bytes.iter().take_while(|b| **b == b' ').count()
}

/// How many digits the bytes begin with.
pub fn leading_digits(bytes: &[u8]) -> usize
    ensures count { result ≡ prefix_len is_digit bytes.now }
    ensures within { result ≤ length bytes.now }
{
    bytes.iter().take_while(|b| is_digit(**b)).count()
}

/// How many bytes from the front may go on with a name.
pub fn leading_name_characters(bytes: &[u8]) -> usize
    ensures count { result ≡ prefix_len is_name_character bytes.now }
    ensures within { result ≤ length bytes.now }
{
    bytes.iter().take_while(|b| is_name_character(**b)).count()
}

/// The bytes after the first `count`.
pub fn without_first(bytes: &[u8], count: usize) -> &[u8]
    requires { count ≤ length bytes.now }
    ensures { result.now ≡ drop count bytes.now }
{
    bytes.split_at(count).1
}
