ghost use Rattle.std.specs.Prelude.{◌≡◌, [], IfOk, IfSome, IsSome};
ghost use Rattle.std.specs.Option.{option_copied};
ghost use Rattle.polynomials.specs.Views.{initial_of};
ghost use Rattle.zero_sets.specs.ZeroSets.{IsTriangular, member_in, members_below};
ghost use Rattle.chains.specs.Members.{with_polynomial, ChangesOne, IsNewMember, LowersMember};

use crate::lists::{copied_below, copied_with, is_at};
use crate::moves::moved_with;
use sparse_poly::{Poly, Polys, copied};
use std::alloc::{AllocError, Global};
use std::marker::Model;

/// A triangular set: polynomials that aren't constant, with strictly increasing main variables.
#[derive(Debug, Drop)]
pub struct Chain {
    polys: Polys,
}

impl Model for Chain {
    ghost use Rattle.std.specs.Prelude.{List};
    ghost use Rattle.polynomials.specs.Polynomials.{Polynomial};
    ghost use Rattle.zero_sets.specs.ZeroSets.{IsTriangular};

    ghost Value = { List Polynomial };

    ghost view = { λ c. c.polys };

    ghost invariant = { λ c. IsTriangular c.polys };
}

impl Chain {
    /// The set without polynomials.
    pub fn empty(alloc: Global) -> Chain
        ensures { result ≡ [] }
    {
        Chain {
            polys: Polys::new(alloc),
        }
    }

    /// The polynomials, the least main variable first.
    pub fn polys(&self) -> &Polys
        ensures value { result.now ≡ self.now }
        ensures triangular { IsTriangular self.now }
    {
        &self.polys
    }

    /// Does nothing: its clause tells what every chain is, where no polynomial is wanted.
    pub fn facts(&self)
        ensures triangular { IsTriangular self.now }
    {
        let _ = &self.polys;
    }

    /// The polynomial with the main variable `v`.
    pub fn at(&self, v: usize) -> Option<&Poly>
        ensures { option_copied result ≡ member_in v self.now }
    {
        for i in 0..self.polys.count() {
            let t = self.polys.at(i);
            if is_at(t, v) {
                return Some(t);
            }
        }
        None
    }

    /// The polynomials with lesser main variables than `v`.
    pub fn below(&self, alloc: Global, v: usize) -> Result<Polys, AllocError>
        ensures { IfOk result (λ r. r ≡ members_below v self.now) }
    {
        copied_below(alloc, &self.polys, v)
    }

    /// The initial of the polynomial with the main variable `v`.
    pub fn initial(&self, v: usize) -> Result<Poly, AllocError>
        requires { IsSome (member_in v self.now) }
        ensures { IfOk result (λ r. IfSome (member_in v self.now) (λ t. r ≡ initial_of t)) }
    {
        match self.at(v) {
            None => unreachable!(),
            Some(t) => {
                t.facts();
                t.lead_in(v)
            }
        }
    }

    /// The set with one polynomial more.
    pub fn extended(&self, alloc: Global, t: &Poly) -> Result<Chain, AllocError>
        requires { IsNewMember t.now self.now }
        ensures value { IfOk result (λ r. r ≡ with_polynomial t.now self.now) }
        ensures others { IfOk result (ChangesOne t.now self.now) }
    {
        self.copied_with(alloc, t)
    }

    /// The set with a polynomial in the place of the one with the same main variable.
    pub fn replaced(&self, alloc: Global, t: &Poly) -> Result<Chain, AllocError>
        requires { LowersMember t.now self.now }
        ensures value { IfOk result (λ r. r ≡ with_polynomial t.now self.now) }
        ensures others { IfOk result (ChangesOne t.now self.now) }
    {
        self.copied_with(alloc, t)
    }

    /// Copies, with a polynomial at its main variable.
    fn copied_with(&self, alloc: Global, t: &Poly) -> Result<Chain, AllocError>
        ensures value { IfOk result (λ r. r ≡ with_polynomial t.now self.now) }
        ensures others { IfOk result (ChangesOne t.now self.now) }
    {
        match t.main_var() {
            None => self.copy(alloc),
            Some(v) => Ok(Chain {
                polys: copied_with(alloc, &self.polys, v, t.copy()?)?,
            }),
        }
    }

    /// The set with a polynomial at its main variable; no other is copied. A constant changes nothing.
    pub fn with_poly(self, alloc: Global, t: Poly) -> Result<Chain, AllocError>
        ensures value { IfOk result (λ r. r ≡ with_polynomial t self) }
        ensures others { IfOk result (ChangesOne t self) }
    {
        match t.main_var() {
            None => Ok(self),
            Some(v) => Ok(Chain {
                polys: moved_with(alloc, self.polys, v, t)?,
            }),
        }
    }

    /// An equal set.
    pub fn copy(&self, alloc: Global) -> Result<Chain, AllocError>
        ensures { IfOk result (λ r. r ≡ self.now) }
    {
        Ok(Chain {
            polys: copied(alloc, &self.polys)?,
        })
    }
}
