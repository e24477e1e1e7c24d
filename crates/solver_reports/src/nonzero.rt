ghost use Rattle.std.specs.Prelude.{◌≡◌, length, map, IfOk, All, string_bytes};
ghost use Rattle.report_text.specs.Polynomials.{IsInLeast};
ghost use Rattle.report_text.specs.Answers.{nonzero_text};

use report_text::print_nonzero;
use sparse_poly::{Names, Polys};
use std::alloc::{AllocError, Global};

/// The lines of the polynomials that must not vanish.
pub fn nonzero_lines(alloc: Global, names: &Names, nonzero: &Polys) -> Result<String, AllocError>
    requires { All (IsInLeast (length names.now)) nonzero.now }
    ensures { IfOk result (λ text. string_bytes text
        ≡ nonzero_text (map string_bytes names.now) nonzero.now) }
{
    let mut text = String::new(alloc);
    for i in 0..nonzero.count() {
        let line = print_nonzero(alloc, names, nonzero.at(i))?;
        text.push_str(line.as_str())?;
    }
    Ok(text)
}
