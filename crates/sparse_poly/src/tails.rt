//! What an elimination leaves once the leads of both multiples have cancelled.
ghost use Rattle.std.specs.Prelude.{◌≡◌, ◌<◌, IfOk, IfSome};
ghost use Rattle.polynomials.specs.Polynomials.{IsPolynomial, product_of, difference_of};
ghost use Rattle.polynomials.specs.Views.{tail_in};
ghost use Rattle.sparse_poly.specs.Tails.{HaveProductWithin};

use crate::merge::{Sign, merged};
use crate::multiples::sum_of_multiples;
use crate::poly::Poly;
use crate::product::product_of_parts;
use crate::work::Work;
use mono_words::{Mono, VARS};
use std::alloc::AllocError;

/// `l` times the tail of `f` in `v` less `m` times that of `g`, without a copy of either tail.
pub fn difference_of_tails(
    w: &Work,
    l: &Poly,
    f: &Poly,
    m: &Poly,
    g: &Poly,
    v: usize,
) -> Result<Poly, AllocError>
    requires variable { v < VARS }
    requires first { HaveProductWithin w.now.field w.now.width v l.now f.now }
    requires second { HaveProductWithin w.now.field w.now.width v m.now g.now }
    ensures value { IfOk result (λ h. h ≡ difference_of w.now.field
        (product_of w.now.field l.now (tail_in v f.now))
        (product_of w.now.field m.now (tail_in v g.now))) }
    ensures over { IfOk result (IsPolynomial w.now.field VARS) }
{
    match in_one_pass(w, l, f, m, g, v)? {
        Some(h) => Ok(h),
        None => {
            let (left, right) = (times_tail(*w, l, f, v)?, times_tail(*w, m, g, v)?);
            let terms = merged(l.alloc(), w.field, &left, Sign::Minus, &right)?;
            Ok(Poly::over(w.field, terms))
        }
    }
}

/// The same by one pass over both tails; `None` where `l` or `m` has several terms.
fn in_one_pass(
    w: &Work,
    l: &Poly,
    f: &Poly,
    m: &Poly,
    g: &Poly,
    v: usize,
) -> Result<Option<Poly>, AllocError>
    requires variable { v < VARS }
    requires first { HaveProductWithin w.now.field w.now.width v l.now f.now }
    requires second { HaveProductWithin w.now.field w.now.width v m.now g.now }
    ensures value { IfOk result (λ r. IfSome r (λ h. h ≡ difference_of w.now.field
        (product_of w.now.field l.now (tail_in v f.now))
        (product_of w.now.field m.now (tail_in v g.now)))) }
    ensures over { IfOk result (λ r. IfSome r (IsPolynomial w.now.field VARS)) }
{
    if l.term_count() != 1 || m.term_count() != 1 {
        return Ok(None);
    }
    let (a, b) = (f.tail_terms(v), g.tail_terms(v));
    let (t, u) = (l.terms()[0], m.terms()[0]);
    let terms = sum_of_multiples(l.alloc(), w.field, t, a, (u.0, w.field.neg(u.1)), b)?;
    Ok(Some(Poly::over(w.field, terms)))
}

/// `a` times the tail of `f`, which fits where `a` times `f` does.
fn times_tail(w: Work, a: &Poly, f: &Poly, v: usize) -> Result<Vec<(Mono, u32)>, AllocError>
    requires variable { v < VARS }
    requires fit { HaveProductWithin w.field w.width v a.now f.now }
    ensures value { IfOk result (λ r. r.items ≡ product_of w.field a.now (tail_in v f.now)) }
    ensures over { IfOk result (λ r. IsPolynomial w.field VARS r.items) }
{
    w.field.facts();
    let tail = f.tail_terms(v);
    let (of_factor, of_tail) = (a.degrees(), f.tail_degrees(v));
    if a.term_count() <= tail.len() {
        product_of_parts(a.alloc(), w.field, a.terms(), of_factor, tail, of_tail)
    } else {
        product_of_parts(a.alloc(), w.field, tail, of_tail, a.terms(), of_factor)
    }
}
