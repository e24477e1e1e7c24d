ghost use Rattle.std.specs.Prelude.{◌≡◌};

use pseudo_division::Row;
use sparse_poly::{Poly, Polys};
use std::marker::Model;

/// An identity of the initial, and whether it was composed since the initial was reduced.
#[derive(Drop)]
pub struct IdentitySoFar {
    pub row: Row,
    pub composed: bool,
}

impl Model for IdentitySoFar {
    ghost use Rattle.finish_rules.specs.Turns.{IdentitySoFar};

    ghost Value = { IdentitySoFar };

    ghost view = { λ s. record { row = s.row; composed = s.composed } };
}

impl IdentitySoFar {
    /// The polynomial so far.
    pub fn first(&self) -> &Poly
        ensures { result.now ≡ self.now.row.first }
    {
        &self.row.first
    }
}

/// What a turn makes of an identity.
#[derive(Drop)]
pub enum Turn {
    /// An identity for the turns at lesser variables.
    Further(IdentitySoFar),
    /// Polynomials one of which vanishes.
    Vanishing(Polys),
    /// A product doesn't fit the width.
    TooWide,
}
