ghost use Rattle.std.specs.Prelude.{◌≡◌, IfOk};

use crate::poly::Poly;
use field_table::Field;
use item_lists::Items;
use std::alloc::{AllocError, Global};

/// A list of polynomials.
pub type Polys = Items<Poly>;

/// An equal list.
pub fn copied(alloc: Global, list: &Polys) -> Result<Polys, AllocError>
    ensures { IfOk result (λ r. r ≡ list.now) }
{
    let mut out = Polys::new(alloc);
    for i in 0..list.count() {
        out.push(list.at(i).copy()?)?;
    }
    Ok(out)
}

/// The names of the variables, the least first.
pub type Names = Items<String>;

/// Polynomials over a field with the names of their variables: those whose common zeros are sought,
/// and those that must not vanish there.
#[derive(Debug, Drop)]
pub struct System {
    /// What the coefficients are taken from.
    pub field: Field,
    /// The name of the variable `v` at the place `v`.
    pub names: Names,
    /// The polynomials, in the order in which they were given; they may repeat or be 0.
    pub inputs: Polys,
    /// The polynomials that must not vanish, in the order in which they were given; they may repeat
    /// or be 0.
    pub nonzero: Polys,
}
