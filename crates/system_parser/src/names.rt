ghost use Rattle.std.specs.Prelude.{◌≡◌, ◌<◌, length, IfSome};
ghost use Rattle.system_text.specs.Factors.{place_of_name};
ghost use Rattle.system_parser.specs.Systems.{names_of};

use sparse_poly::Names;

/// The place of the first name with these bytes.
pub fn place_of(names: &Names, bytes: &[u8]) -> Option<usize>
    ensures place { result ≡ place_of_name 0 (names_of names.now) bytes.now }
    ensures within { IfSome result (λ i. i < length names.now) }
{
    for i in 0..names.count() {
        if names.at(i).as_bytes() == bytes {
            return Some(i);
        }
    }
    None
}
