ghost use Rattle.std.specs.Prelude.{◌≡◌, IfOk};
ghost use Rattle.impose_rules.specs.Chains.{with_member};

use crate::lists::{is_above, is_below};
use sparse_poly::{Poly, Polys};
use std::alloc::{AllocError, Global};

/// A list with `t` at its main variable `v`, into which the polynomials with other ones move.
pub fn moved_with(alloc: Global, list: Polys, v: usize, t: Poly) -> Result<Polys, AllocError>
    ensures { IfOk result (λ r. r ≡ with_member v t list) }
{
    let mut lesser = Polys::new(alloc);
    let mut greater = Polys::new(alloc);
    let mut rest = list;
    while let Some(s) = rest.take_first() {
        if is_below(&s, v) {
            lesser.push(s)?;
        } else if is_above(&s, v) {
            greater.push(s)?;
        }
    }
    lesser.push(t)?;
    lesser.append(&mut greater)?;
    Ok(lesser)
}
