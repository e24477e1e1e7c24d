ghost use Rattle.std.specs.Prelude.{◌≡◌, ◌≢◌, [], IfOk, OnOk, OnErr};
ghost use Rattle.polynomials.specs.Polynomials.{IsPolynomial, monic};
ghost use Rattle.zero_sets.specs.Tasks.{is_member, is_known_nonzero, with_nonzero};

use crate::monic_forms::is_monic_form;
use field_table::Field;
use mono_words::VARS;
use sparse_poly::{Poly, Polys, copied};
use std::alloc::{AllocError, Global};
use std::marker::Model;

/// Polynomials that don't vanish.
#[derive(Debug, Drop)]
pub struct NonZero {
    polys: Polys,
}

impl Model for NonZero {
    ghost use Rattle.std.specs.Prelude.{List};
    ghost use Rattle.polynomials.specs.Polynomials.{Polynomial};

    ghost Value = { List Polynomial };

    ghost view = { λ n. n.polys };
}

impl NonZero {
    /// No polynomials.
    pub fn empty(alloc: Global) -> NonZero
        ensures { result ≡ [] }
    {
        NonZero {
            polys: Polys::new(alloc),
        }
    }

    /// The polynomials, those that were added first in front.
    pub fn polys(&self) -> &Polys
        ensures { result.now ≡ self.now }
    {
        &self.polys
    }

    /// Whether `h`, which isn't 0, doesn't vanish: it is constant, or its monic form is one of them.
    pub fn knows(&self, f: Field, h: &Poly) -> bool
        requires over { IsPolynomial f VARS h.now }
        requires nonzero { h.now ≢ [] }
        ensures { result ≡ is_known_nonzero f self.now h.now }
    {
        h.is_constant() || self.has_monic_form(f, h)
    }

    /// Whether the monic form of `h` is one of them.
    fn has_monic_form(&self, f: Field, h: &Poly) -> bool
        requires over { IsPolynomial f VARS h.now }
        requires nonzero { h.now ≢ [] }
        ensures { result ≡ is_member (monic f h.now) self.now }
    {
        for i in 0..self.polys.count() {
            if is_monic_form(f, self.polys.at(i), h) {
                return true;
            }
        }
        false
    }

    /// Adds the monic form of `h`, which isn't 0, unless `h` is known.
    pub fn add(&mut self, f: Field, h: &Poly) -> Result<(), AllocError>
        requires over { IsPolynomial f VARS h.now }
        requires nonzero { h.now ≢ [] }
        ensures ok { OnOk result (self.new ≡ with_nonzero f self.old h.now) }
        ensures err { OnErr result (self.new ≡ self.old) }
    {
        if self.knows(f, h) {
            return Ok(());
        }
        let monic = h.monic(f)?;
        self.polys.push(monic)
    }

    /// Copies, and the monic form of `h`, which isn't 0, unless `h` is known.
    pub fn with(&self, alloc: Global, f: Field, h: &Poly) -> Result<NonZero, AllocError>
        requires over { IsPolynomial f VARS h.now }
        requires nonzero { h.now ≢ [] }
        ensures { IfOk result (λ r. r ≡ with_nonzero f self.now h.now) }
    {
        let mut all = self.copy(alloc)?;
        all.add(f, h)?;
        Ok(all)
    }

    /// Equal polynomials.
    pub fn copy(&self, alloc: Global) -> Result<NonZero, AllocError>
        ensures { IfOk result (λ r. r ≡ self.now) }
    {
        Ok(NonZero {
            polys: copied(alloc, &self.polys)?,
        })
    }
}
