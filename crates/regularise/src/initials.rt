ghost use Rattle.std.specs.Prelude.{◌≡◌, ℕ, Some, IfOk};
ghost use Rattle.polynomials.specs.Polynomials.{ArePolynomials};
ghost use Rattle.polynomials.specs.Views.{main_var};
ghost use Rattle.zero_sets.specs.Certificates.{variable_to_certify};
ghost use Rattle.zero_sets.specs.ZeroSets.{member_in};
ghost use Rattle.finish_rules.specs.Initials.{certified};
ghost use Rattle.regularise.specs.Answers.{BecomesAt};

use crate::answer::Regular;
use crate::initial::regularise;
use certificates::Certificates;
use chains::{Chain, NonZero};
use mono_words::VARS;
use sparse_poly::{Poly, Work};
use split_paths::Step;
use std::alloc::{AllocError, Global};

/// The certificates of all initials of the chain that need one, the least main variable first; or
/// what becomes of the first that has none.
pub fn certified(
    alloc: Global,
    w: &Work,
    chain: &Chain,
    nonzero: &NonZero,
) -> Result<Step<Poly, Certificates>, AllocError>
    requires { ArePolynomials w.now.field VARS chain.now }
    ensures { IfOk result (λ made.
        made ≡ certified w.now.field VARS w.now.width chain.now nonzero.now chain.now) }
{
    let list = chain.polys();
    let mut certificates = Certificates::new(alloc);
    for i in 0..list.count() {
        let t = list.at(i);
        match at_member(alloc, w, chain, nonzero, t)? {
            None => {}
            Some(Regular::Certified(c)) => certificates.push(c)?,
            Some(Regular::Gone) => return Ok(Step::Gone),
            Some(Regular::Kids(kids)) => return Ok(Step::Kids(kids)),
            Some(Regular::TooWide) => return Ok(Step::TooWide),
        }
    }
    Ok(Step::Emit(certificates))
}

/// What becomes of the initial of a member, and `None` where it needs no certificate.
fn at_member(
    alloc: Global,
    w: &Work,
    chain: &Chain,
    nonzero: &NonZero,
    t: &Poly,
) -> Result<Option<Regular>, AllocError>
    requires chain { ArePolynomials w.now.field VARS chain.now }
    requires member { (v : ℕ) → main_var t.now ≡ Some v → member_in v chain.now ≡ Some t.now }
    ensures { IfOk result (BecomesAt w.now.field w.now.width chain.now nonzero.now t.now) }
{
    match variable_to_certify(t)? {
        None => Ok(None),
        Some(v) => Ok(Some(regularise(alloc, *w, chain, nonzero, v)?)),
    }
}

/// The main variable, where the initial isn't constant.
fn variable_to_certify(t: &Poly) -> Result<Option<usize>, AllocError>
    ensures { IfOk result (λ v. v ≡ variable_to_certify t.now) }
{
    match t.main_var() {
        None => Ok(None),
        Some(v) => {
            t.facts();
            if t.lead_in(v)?.is_constant() {
                Ok(None)
            } else {
                Ok(Some(v))
            }
        }
    }
}
