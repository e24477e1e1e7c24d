ghost use Rattle.std.specs.Prelude.{◌≡◌, ◌<◌, ◌≤◌, IfOk};
ghost use Rattle.polynomials.specs.Polynomials.{IsPolynomial};
ghost use Rattle.polynomials.specs.Views.{degree_in};
ghost use Rattle.division_rules.specs.Operations.{lead, shifted_lead};
ghost use Rattle.pseudo_division.specs.FieldOperations.{operations};

use mono_words::VARS;
use sparse_poly::{Poly, Work};
use std::alloc::AllocError;

/// The lead in `v`.
pub fn lead(w: &Work, a: &Poly, v: usize) -> Result<Poly, AllocError>
    requires variable { v < VARS }
    requires over { IsPolynomial w.now.field VARS a.now }
    ensures value { IfOk result (λ r. r ≡ lead (operations w.now.field) v a.now) }
    ensures over { IfOk result (IsPolynomial w.now.field VARS) }
{
    a.lead_in(v)
}

/// The lead of `a` in `v`, times `v` to the power by which its degree passes that of `b`.
pub fn shifted_lead(w: &Work, a: &Poly, b: &Poly, v: usize) -> Result<Poly, AllocError>
    requires variable { v < VARS }
    requires over { IsPolynomial w.now.field VARS a.now }
    requires degrees { degree_in v b.now ≤ degree_in v a.now }
    ensures value { IfOk result (λ r. r ≡ shifted_lead (operations w.now.field) v a.now b.now) }
    ensures over { IfOk result (IsPolynomial w.now.field VARS) }
{
    let by = a.degree_in(v) - b.degree_in(v);
    lead(w, a, v)?.times_power(w.field, v, by)
}
