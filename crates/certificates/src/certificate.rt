ghost use Rattle.std.specs.Prelude.{◌≡◌};
ghost use Rattle.finish_rules.specs.Identities.{certificate_of};

use item_lists::Items;
use pseudo_division::Row;
use sparse_poly::{Poly, Polys};
use std::alloc::Global;
use std::marker::Model;

/// An identity for the initial of a polynomial of a triangular set: a cofactor of the initial and one
/// of each polynomial below it, with the sum of their products.
#[derive(Debug, Drop)]
pub struct Certificate {
    of: usize,
    cofactor: Poly,
    below: Polys,
    value: Poly,
}

impl Model for Certificate {
    ghost use Rattle.zero_sets.specs.Certificates.{Certificate};

    ghost Value = { Certificate };

    ghost view = { λ c. record { of = c.of; cofactor = c.cofactor; below = c.below; value = c.value } };
}

/// A list of certificates.
pub type Certificates = Items<Certificate>;

impl Certificate {
    /// The certificate with these parts; nothing is tested.
    pub fn new(of: usize, cofactor: Poly, below: Polys, value: Poly) -> Certificate
        ensures { result ≡ record { of = of; cofactor = cofactor; below = below; value = value } }
    {
        Certificate {
            of,
            cofactor,
            below,
            value,
        }
    }

    /// The row of an initial, over it and the polynomials below the main variable `of`.
    pub fn of_row(alloc: Global, of: usize, row: Row) -> Certificate
        ensures { result ≡ certificate_of of row }
    {
        let Row { first, cofactors } = row;
        let mut below = cofactors;
        let cofactor = match below.take_first() {
            None => Poly::zero(alloc),
            Some(a) => a,
        };
        Certificate {
            of,
            cofactor,
            below,
            value: first,
        }
    }

    /// The main variable of the polynomial whose initial is certified.
    pub fn of(&self) -> usize
        ensures { result ≡ self.now.of }
    {
        self.of
    }

    /// The cofactor of the initial.
    pub fn cofactor(&self) -> &Poly
        ensures { result.now ≡ self.now.cofactor }
    {
        &self.cofactor
    }

    /// The cofactors of the polynomials with lesser main variables, in their order.
    pub fn below(&self) -> &Polys
        ensures { result.now ≡ self.now.below }
    {
        &self.below
    }

    /// The sum of the products.
    pub fn value(&self) -> &Poly
        ensures { result.now ≡ self.now.value }
    {
        &self.value
    }
}
