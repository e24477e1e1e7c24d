ghost use Rattle.std.specs.Prelude.{◌≡◌, IfOk, IfSome};
ghost use Rattle.polynomials.specs.Polynomials.{IsPolynomial};
ghost use Rattle.row_laws.specs.Words.{IsReducedBy};
ghost use Rattle.impose_rules.specs.Impose.{reduced_head};
ghost use Rattle.impose_laws.specs.TaskForms.{IsTaskOver};

use chains::Task;
use mono_words::VARS;
use poly_quotient::strip;
use pseudo_division::reduce;
use sparse_poly::{Poly, Polys, Work};
use std::alloc::{AllocError, Global};

/// A polynomial that is imposed, its main variable, and the leads by which cases are told apart; the
/// first of them is its initial.
#[derive(Drop)]
pub struct Head {
    pub poly: Poly,
    pub variable: usize,
    pub leads: Polys,
}

/// What `f` imposes on a task: reduced by its chain, without the factors that don't vanish, monic.
pub fn reduced_head(
    alloc: Global,
    w: &Work,
    f: &Poly,
    left: &Task,
) -> Result<Option<Poly>, AllocError>
    requires over { IsTaskOver w.now.field VARS left.now }
    requires head { IsPolynomial w.now.field VARS f.now }
    ensures value { IfOk result (λ r. r ≡ reduced_head w.now.field VARS w.now.width
        left.now.chain left.now.queue left.now.nonzero f.now) }
    ensures over { IfOk result (λ r. IfSome r (IsPolynomial w.now.field VARS)) }
    ensures reduced { IfOk result (λ r. IfSome r (λ g. IsReducedBy g left.now.chain)) }
{
    w.field.facts();
    left.chain.facts();
    made_head(alloc, w, f, left)
}

fn made_head(alloc: Global, w: &Work, f: &Poly, left: &Task) -> Result<Option<Poly>, AllocError>
    requires over { IsTaskOver w.now.field VARS left.now }
    requires head { IsPolynomial w.now.field VARS f.now }
    ensures value { IfOk result (λ r. r ≡ reduced_head w.now.field VARS w.now.width
        left.now.chain left.now.queue left.now.nonzero f.now) }
{
    match reduce(*w, f, left.chain.polys())? {
        None => Ok(None),
        Some(g) => {
            let stripped = strip(alloc, *w, &g, left.nonzero.polys())?;
            Ok(Some(stripped.monic(w.field)?))
        }
    }
}
