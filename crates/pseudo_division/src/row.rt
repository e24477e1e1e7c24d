ghost use Rattle.std.specs.Prelude.{◌≡◌, IfOk};

use item_lists::Items;
use sparse_poly::{Poly, Polys, copied};
use std::alloc::{AllocError, Global};
use std::marker::Model;

/// A first entry, and its cofactors over polynomials that the caller knows.
#[derive(Drop)]
pub struct Row {
    pub first: Poly,
    pub cofactors: Polys,
}

impl Model for Row {
    ghost use Rattle.polynomials.specs.Polynomials.{Polynomial};
    ghost use Rattle.division_rules.specs.Rows.{Row};

    ghost Value = { Row Polynomial };

    ghost view = { λ row. record { first = row.first; cofactors = row.cofactors } };
}

/// A list of rows.
pub type Rows = Items<Row>;

impl Row {
    /// An equal row.
    pub fn copy(&self, alloc: Global) -> Result<Row, AllocError>
        ensures { IfOk result (λ r. r ≡ self.now) }
    {
        Ok(Row {
            first: self.first.copy()?,
            cofactors: copied(alloc, &self.cofactors)?,
        })
    }
}
