ghost use Rattle.std.specs.Prelude.{◌≡◌};
ghost use Rattle.tree_laws.specs.Steps.{gives_way_to};
ghost use Rattle.regularise.specs.Answers.{as_step};

use certificates::Certificate;
use sparse_poly::Polys;

/// What becomes of an initial.
#[derive(Debug, Drop)]
pub enum Regular {
    /// It is regular.
    Certified(Certificate),
    /// There are no points where it doesn't vanish.
    Gone,
    /// At each such point one of these vanishes.
    Kids(Polys),
    /// A product doesn't fit the width.
    TooWide,
}

/// What gives way to these polynomials.
pub fn gives_way_to(list: Polys) -> Regular
    ensures { as_step result ≡ gives_way_to list }
{
    if list.is_empty() {
        Regular::Gone
    } else {
        Regular::Kids(list)
    }
}
