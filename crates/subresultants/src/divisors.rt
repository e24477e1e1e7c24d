ghost use Rattle.std.specs.Prelude.{◌≡◌, ◌≢◌, ◌<◌, suc, [], IfOk, IfSome, unwrap_or};
ghost use Rattle.polynomials.specs.Polynomials.{IsPolynomial, negative_of};
ghost use Rattle.division_rules.specs.Operations.{sign};
ghost use Rattle.division_rules.specs.PolynomialRows.{IsPolynomialRow};
ghost use Rattle.division_rules.specs.Quotients.{quotient_within};
ghost use Rattle.division_rules.specs.Within.{and_then};
ghost use Rattle.division_rules.specs.RemainderRowsWithin.{later_psi_within, later_beta_within};
ghost use Rattle.pseudo_division.specs.FieldOperations.{operations};
ghost use Rattle.subresultants.specs.Turns.{IsTurnBeforeOver, divisors_within};

use crate::divided::is_one;
use mono_words::VARS;
use poly_quotient::quo;
use pseudo_division::{Row, power, times};
use sparse_poly::{Poly, Work};
use std::alloc::{AllocError, Global};

/// Psi of the turn before and by how much the degree fell in it; `None` in the first turn.
pub type TurnBefore = Option<(Poly, u16)>;

/// Psi and beta of the turn in which the degree falls by `fall` from the row `f`; `None` where a
/// product doesn't fit the width.
pub fn divisors(
    alloc: Global,
    w: &Work,
    v: usize,
    memory: &TurnBefore,
    f: &Row,
    fall: u16,
) -> Result<Option<(Poly, Poly)>, AllocError>
    requires variable { v < VARS }
    requires row { IsPolynomialRow w.now.field VARS f.now }
    requires some { f.now.first ≢ [] }
    requires memory { IsTurnBeforeOver w.now.field memory.now }
    ensures value { IfOk result (λ r.
        r ≡ divisors_within w.now.field w.now.width v memory.now f.now fall) }
    ensures over { IfOk result (λ r. IfSome r (λ d. IsPolynomial w.now.field VARS d.1)) }
    ensures nonzero { IfOk result (λ r. IfSome r (λ d. d.1 ≢ [])) }
{
    w.field.facts();
    match memory {
        None => Ok(Some(first_divisors(alloc, w, fall)?)),
        Some(before) => {
            let lead = f.first.lead_in(v)?;
            let l = negative(alloc, w, &lead)?;
            later_divisors(alloc, w, &l, before, fall)
        }
    }
}

/// Psi and beta of the first turn: -1, and 1 or -1.
fn first_divisors(alloc: Global, w: &Work, fall: u16) -> Result<(Poly, Poly), AllocError>
    ensures psi { IfOk result (λ d. d.0 ≡ sign (operations w.now.field) 1) }
    ensures beta { IfOk result (λ d. d.1 ≡ sign (operations w.now.field) (suc fall)) }
{
    let psi = next_sign(alloc, w, 0)?;
    let beta = next_sign(alloc, w, fall)?;
    Ok((psi, beta))
}

/// The power of -1 by one more than `n`.
fn next_sign(alloc: Global, w: &Work, n: u16) -> Result<Poly, AllocError>
    ensures { IfOk result (λ r. r ≡ sign (operations w.now.field) (suc n)) }
{
    w.field.facts();
    let one = Poly::constant(alloc, w.field, 1)?;
    if n % 2 == 0 {
        negative(alloc, w, &one)
    } else {
        Ok(one)
    }
}

/// Psi and beta after a turn, for the negative `l` of the lead.
fn later_divisors(
    alloc: Global,
    w: &Work,
    l: &Poly,
    before: &(Poly, u16),
    fall: u16,
) -> Result<Option<(Poly, Poly)>, AllocError>
    requires lead { IsPolynomial w.now.field VARS l.now }
    requires some { l.now ≢ [] }
    requires before { IsPolynomial w.now.field VARS before.now.0 }
    requires before_some { before.now.0 ≢ [] }
    ensures value { IfOk result (λ r. r ≡ and_then (later_psi_within (operations w.now.field) w.now.width l.now before.now)
        (λ q. and_then (later_beta_within (operations w.now.field) w.now.width l.now q fall) (λ b. Some (q, b)))) }
    ensures over { IfOk result (λ r. IfSome r (λ d. IsPolynomial w.now.field VARS d.1)) }
    ensures nonzero { IfOk result (λ r. IfSome r (λ d. d.1 ≢ [])) }
{
    w.field.facts();
    match psi(alloc, w, l, before)? {
        None => Ok(None),
        Some(psi) => match beta(alloc, w, l, &psi, fall)? {
            None => Ok(None),
            Some(beta) => Ok(Some((psi, beta))),
        },
    }
}

/// The power of `l` by the fall before, divided by a power of the psi before where there is a
/// quotient.
fn psi(alloc: Global, w: &Work, l: &Poly, before: &(Poly, u16)) -> Result<Option<Poly>, AllocError>
    requires lead { IsPolynomial w.now.field VARS l.now }
    requires some { l.now ≢ [] }
    requires before { IsPolynomial w.now.field VARS before.now.0 }
    requires before_some { before.now.0 ≢ [] }
    ensures value { IfOk result (λ r. r ≡ later_psi_within (operations w.now.field) w.now.width l.now before.now) }
    ensures over { IfOk result (λ r. IfSome r (IsPolynomial w.now.field VARS)) }
    ensures nonzero { IfOk result (λ r. IfSome r (λ q. q ≢ [])) }
{
    w.field.facts();
    let fall = before.1;
    match power(alloc, *w, l, fall)? {
        None => Ok(None),
        Some(top) => match power(alloc, *w, &before.0, fall.saturating_sub(1))? {
            None => Ok(None),
            Some(low) => Ok(Some(quotient_or_itself(alloc, w, top, &low)?)),
        },
    }
}

/// The quotient of `a` by `b`, and `a` where there is none.
fn quotient_or_itself(alloc: Global, w: &Work, a: Poly, b: &Poly) -> Result<Poly, AllocError>
    requires left { IsPolynomial w.now.field VARS a }
    requires right { IsPolynomial w.now.field VARS b.now }
    requires some { a ≢ [] }
    requires nonzero { b.now ≢ [] }
    ensures value { IfOk result (λ r. r ≡ unwrap_or (quotient_within w.now.field w.now.width a b.now) a) }
    ensures over { IfOk result (IsPolynomial w.now.field VARS) }
    ensures nonzero { IfOk result (λ q. q ≢ []) }
{
    w.field.facts();
    let whole = is_one(alloc, w, b)?;
    if whole {
        return Ok(a);
    }
    match quo(alloc, *w, &a, b)? {
        None => Ok(a),
        Some(quotient) => Ok(quotient),
    }
}

/// The product of `l` and the power of psi by the fall.
fn beta(
    alloc: Global,
    w: &Work,
    l: &Poly,
    psi: &Poly,
    fall: u16,
) -> Result<Option<Poly>, AllocError>
    requires lead { IsPolynomial w.now.field VARS l.now }
    requires psi { IsPolynomial w.now.field VARS psi.now }
    ensures value { IfOk result (λ r. r ≡ later_beta_within (operations w.now.field) w.now.width l.now psi.now fall) }
    ensures over { IfOk result (λ r. IfSome r (IsPolynomial w.now.field VARS)) }
{
    match power(alloc, *w, psi, fall)? {
        None => Ok(None),
        Some(power) => times(w, l, &power),
    }
}

/// The negative.
fn negative(alloc: Global, w: &Work, a: &Poly) -> Result<Poly, AllocError>
    requires { IsPolynomial w.now.field VARS a.now }
    ensures value { IfOk result (λ r. r ≡ negative_of w.now.field a.now) }
    ensures over { IfOk result (IsPolynomial w.now.field VARS) }
{
    w.field.facts();
    Poly::zero(alloc).sub(w.field, a)
}
