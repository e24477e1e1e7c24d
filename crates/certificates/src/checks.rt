ghost use Rattle.std.specs.Prelude.{◌≡◌, ◌↔◌, true, ◌∷◌, length, IfOk, IfSome};
ghost use Rattle.polynomials.specs.Polynomials.{IsPolynomial, ArePolynomials};
ghost use Rattle.polynomials.specs.Views.{main_var};
ghost use Rattle.zero_sets.specs.Certificates.{IsCertificateOver, Certifies};
ghost use Rattle.finish_rules.specs.Checks.{combination_within, lacks_variable, is_free_of_main, is_value, checked};

use crate::certificate::Certificate;
use chains::Chain;
use mono_words::VARS;
use pseudo_division::times;
use sparse_poly::{Poly, Polys, Work};
use std::alloc::{AllocError, Global};

/// Whether the certificate is one for an initial of the chain that isn't constant; `None` where its
/// list has the length that is due and a product doesn't fit the width.
pub fn check(
    alloc: Global,
    w: Work,
    certificate: &Certificate,
    chain: &Chain,
) -> Result<Option<bool>, AllocError>
    requires certificate { IsCertificateOver w.field VARS certificate.now }
    requires chain { ArePolynomials w.field VARS chain.now }
    ensures value { IfOk result (λ r.
        r ≡ checked w.field VARS w.width chain.now certificate.now) }
    ensures decides { IfOk result (λ r. IfSome r (λ b.
        (b ≡ true) ↔ Certifies w.field VARS chain.now certificate.now)) }
{
    checked(alloc, &w, certificate, chain)
}

fn checked(
    alloc: Global,
    w: &Work,
    certificate: &Certificate,
    chain: &Chain,
) -> Result<Option<bool>, AllocError>
    requires certificate { IsCertificateOver w.now.field VARS certificate.now }
    requires chain { ArePolynomials w.now.field VARS chain.now }
    ensures { IfOk result (λ r.
        r ≡ checked w.now.field VARS w.now.width chain.now certificate.now) }
{
    let of = certificate.of();
    if chain.at(of).is_none() {
        return Ok(Some(false));
    }
    let initial = chain.initial(of)?;
    let below = chain.below(alloc, of)?;
    if initial.is_constant() || certificate.below().count() != below.count() {
        return Ok(Some(false));
    }
    match combination(alloc, w, certificate, &initial, &below)? {
        None => Ok(None),
        Some(sum) => Ok(Some(is_value(chain, certificate, &sum))),
    }
}

/// The sum of the certificate's cofactors times the initial and the polynomials below it.
fn combination(
    alloc: Global,
    w: &Work,
    certificate: &Certificate,
    initial: &Poly,
    below: &Polys,
) -> Result<Option<Poly>, AllocError>
    requires certificate { IsCertificateOver w.now.field VARS certificate.now }
    requires initial { IsPolynomial w.now.field VARS initial.now }
    requires below { ArePolynomials w.now.field VARS below.now }
    requires pairs { length certificate.now.below ≡ length below.now }
    ensures { IfOk result (λ r. r ≡ combination_within w.now.field VARS w.now.width
        (certificate.now.cofactor ∷ certificate.now.below) (initial.now ∷ below.now)) }
{
    match times(w, certificate.cofactor(), initial)? {
        None => Ok(None),
        Some(product) => match sum_of_products(alloc, w, certificate.below(), below)? {
            None => Ok(None),
            Some(sum) => Ok(Some(product.add(w.field, &sum)?)),
        },
    }
}

/// The sum of the products of the entries at the same places, and `None` where one doesn't fit.
fn sum_of_products(
    alloc: Global,
    w: &Work,
    cofactors: &Polys,
    list: &Polys,
) -> Result<Option<Poly>, AllocError>
    requires left { ArePolynomials w.now.field VARS cofactors.now }
    requires right { ArePolynomials w.now.field VARS list.now }
    requires pairs { length cofactors.now ≡ length list.now }
    ensures value { IfOk result (λ r. r
        ≡ combination_within w.now.field VARS w.now.width cofactors.now list.now) }
    ensures over { IfOk result (λ r. IfSome r (IsPolynomial w.now.field VARS)) }
{
    let mut sum = Poly::zero(alloc);
    let mut i = cofactors.count();
    while i > 0 {
        i -= 1;
        match times(w, cofactors.at(i), list.at(i))? {
            None => return Ok(None),
            Some(product) => sum = product.add(w.field, &sum)?,
        }
    }
    Ok(Some(sum))
}

/// Whether the sum is the certificate's value, which isn't 0 and has no main variable of the chain.
fn is_value(chain: &Chain, certificate: &Certificate, sum: &Poly) -> bool
    ensures { result ≡ is_value chain.now certificate.now sum.now }
{
    let value = certificate.value();
    *sum == *value && !value.is_zero() && is_free_of_main(value, chain.polys())
}

/// Whether no main variable of the list occurs in `f`.
fn is_free_of_main(f: &Poly, list: &Polys) -> bool
    ensures { result ≡ is_free_of_main f.now list.now }
{
    for i in 0..list.count() {
        let t = list.at(i);
        if !lacks_main(f, t) {
            return false;
        }
    }
    true
}

/// Whether the main variable of `t` doesn't occur in `f`.
fn lacks_main(f: &Poly, t: &Poly) -> bool
    ensures { result ≡ lacks_variable (main_var t.now) f.now }
{
    t.facts();
    match t.main_var() {
        None => true,
        Some(v) => f.degree_in(v) == 0,
    }
}
