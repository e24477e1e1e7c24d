ghost use Rattle.std.specs.Prelude.{◌≡◌, ◌≢◌, ℕ, ◌+◌, ◌*◌, ◌≤◌, [], ◌∷◌, length, Some, None, IfOk, IfSome, IfNone};
ghost use Rattle.polynomials.specs.Monomials.{exponent_of};
ghost use Rattle.polynomials.specs.Polynomials.{Term, Polynomial, IsPolynomial};
ghost use Rattle.polynomials.specs.Views.{degree_in};
ghost use Rattle.sparse_poly.specs.Pairs.{PairsFit};
ghost use Rattle.division_rules.specs.Quotients.{quotient_within};
ghost use Rattle.division_rules.proofs.Divisions.{IsDivision};

use crate::guess::begun;
use crate::rest::Rest;
use crate::single::divided_by_term;
use mono_words::{Mono, VARS};
use sparse_poly::{Poly, Work};
use std::alloc::{AllocError, Global};

/// The terms of the quotient of `a` by `b`, from the greatest down. `room` has the degree in each
/// variable that the quotient has where there is one.
pub fn divided(
    alloc: Global,
    w: Work,
    a: &Poly,
    b: &Poly,
    room: Mono,
) -> Result<Option<Vec<(Mono, u32)>>, AllocError>
    requires left { IsPolynomial w.field VARS a.now }
    requires right { IsPolynomial w.field VARS b.now }
    requires nonzero { b.now ≢ [] }
    requires some { a.now ≢ [] }
    requires room { (v : ℕ) → exponent_of v room + degree_in v b.now ≡ degree_in v a.now }
    ensures quotient { IfOk result (λ r. IfSome r (λ q.
        quotient_within w.field w.width a.now b.now ≡ Some q.items)) }
    ensures none { IfOk result (λ r. IfNone r (quotient_within w.field w.width a.now b.now ≡ None)) }
{
    if b.term_count() == 1 {
        return divided_by_term(alloc, w, a, b);
    }
    let Work { field, width } = w;
    field.facts();
    if b.term_count() > width as usize {
        return Ok(None);
    }
    match begun(alloc, Work { field, width }, a, b, room)? {
        None => {
            let none = Vec::new(alloc);
            divided_by_terms(alloc, Work { field, width }, a, b, room, none, a.terms())
        }
        Some((quotient, rest)) => {
            let terms = Vec::from_slice(alloc, quotient.terms())?;
            divided_by_terms(
                alloc,
                Work { field, width },
                a,
                b,
                room,
                terms,
                rest.terms(),
            )
        }
    }
}

/// The same, where terms may meet, from a division that is on the way: each further term of the
/// quotient takes its multiple of `b` from what is left.
fn divided_by_terms(
    alloc: Global,
    w: Work,
    a: &Poly,
    b: &Poly,
    room: Mono,
    found: Vec<(Mono, u32)>,
    left: &[(Mono, u32)],
) -> Result<Option<Vec<(Mono, u32)>>, AllocError>
    requires left { IsPolynomial w.field VARS a.now }
    requires right { IsPolynomial w.field VARS b.now }
    requires nonzero { b.now ≢ [] }
    requires some { a.now ≢ [] }
    requires room { (v : ℕ) → exponent_of v room + degree_in v b.now ≡ degree_in v a.now }
    requires begun { (u : Term) (g : Polynomial) →
        b.now ≡ u ∷ g → IsDivision w.field VARS u g a.now found.items left.now }
    requires few { length found.items * length b.now ≤ w.width }
    requires fit { PairsFit found.items b.now }
    requires short { length b.now ≤ w.width }
    ensures quotient { IfOk result (λ r. IfSome r (λ q.
        quotient_within w.field w.width a.now b.now ≡ Some q.items)) }
    ensures none { IfOk result (λ r. IfNone r (quotient_within w.field w.width a.now b.now ≡ None)) }
{
    let f = w.field;
    f.facts();
    a.facts();
    let lead = b.terms()[0];
    let inverse = f.inv(lead.1);
    let mut quotient = found;
    let later = &b.terms()[1..];
    let mut rest = Rest::of(alloc, f, left, &quotient, later)?;
    while let Some(first) = rest.take_first(f, &quotient, later)? {
        let terms = (quotient.len() as u128 + 1) * b.term_count() as u128;
        if terms > w.width as u128 || !lead.0.divides(first.0) {
            return Ok(None);
        }
        let t = (first.0.quotient(lead.0), f.mul(first.1, inverse));
        // Tells how many exponents it has.
        t.0.shape();
        if !t.0.divides(room) {
            return Ok(None);
        }
        rest.go_on(f, (t.0, t.1), &quotient, later)?;
        quotient.push(t)?;
    }
    Ok(Some(quotient))
}
