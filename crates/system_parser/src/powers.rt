ghost use Rattle.std.specs.Prelude.{◌≡◌, ◌≢◌, ◌<◌, ◌≤◌, ◌^◌, ◌%◌, [], ◌∷◌, IfOk, IfSome, Some, length};
ghost use Rattle.polynomials.specs.Monomials.{monomial_product};
ghost use Rattle.polynomials.specs.Polynomials.{IsPolynomial};
ghost use Rattle.polynomials.specs.Fits.{product_within, power_within};
ghost use Rattle.system_text.specs.Limits.{text_width};
ghost use Rattle.system_parser.specs.Powers.{within_exponents, monomial_power};

use field_table::Field;
use mono_words::{Mono, VARS};
use sparse_poly::{Poly, Work};
use std::alloc::{AllocError, Global};

// The width that each product fits.
const TEXT_WIDTH: u32 = 10_000;

/// The product, where it fits.
pub fn product(f: Field, a: &Poly, b: &Poly) -> Result<Option<Poly>, AllocError>
    requires left { IsPolynomial f VARS a.now }
    requires right { IsPolynomial f VARS b.now }
    ensures value { IfOk result (λ r. r ≡ product_within f text_width a.now b.now) }
    ensures over { IfOk result (λ r. IfSome r (IsPolynomial f VARS)) }
{
    a.mul(
        Work {
            field: f,
            width: TEXT_WIDTH,
        },
        b,
    )
}

/// A base to the power `e`, where each product on the way fits.
pub fn power(alloc: Global, f: Field, base: Poly, e: u16) -> Result<Option<Poly>, AllocError>
    requires { IsPolynomial f VARS base }
    ensures value { IfOk result (λ r. r ≡ power_within f VARS text_width base e) }
    ensures over { IfOk result (λ r. IfSome r (IsPolynomial f VARS)) }
{
    if e == 0 {
        f.facts();
        return Ok(Some(Poly::constant(alloc, f, 1)?));
    }
    if e == 1 {
        return Ok(Some(base));
    }
    if base.is_zero() {
        return Ok(Some(base));
    }
    if base.term_count() == 1 {
        return power_of_term(alloc, f, &base.terms()[0], e);
    }
    repeated_product(f, &base, e)
}

/// The power of a single term, by a few products of its monomial and of its coefficient.
fn power_of_term(
    alloc: Global,
    f: Field,
    t: &(Mono, u32),
    e: u16,
) -> Result<Option<Poly>, AllocError>
    requires over { IsPolynomial f VARS (t.now ∷ []) }
    requires some { 0 < e }
    ensures value { IfOk result (λ r. r ≡ power_within f VARS text_width (t.now ∷ []) e) }
    ensures over { IfOk result (λ r. IfSome r (IsPolynomial f VARS)) }
{
    f.facts();
    // Tells that exponents have 16 bits.
    t.0.shape();
    match raised_monomial(t.0, e) {
        None => Ok(None),
        Some(raised) => {
            let term = (raised, raised_residue(f, t.1, e));
            Ok(Some(Poly::from_terms(alloc, f, &[term])?))
        }
    }
}

/// The monomial to the power `e`, where its exponents have 16 bits.
fn raised_monomial(m: Mono, e: u16) -> Option<Mono>
    requires { 0 < e }
    ensures { result ≡ within_exponents (monomial_power m e) }
{
    // Tells that exponents have 16 bits.
    m.shape();
    if e == 1 {
        return Some(m);
    }
    match raised_monomial(m, e / 2) {
        None => None,
        Some(half) => match monomial_product(half, half) {
            None => None,
            Some(square) if e % 2 == 0 => Some(square),
            Some(square) => monomial_product(square, m),
        },
    }
}

/// The product of two monomials, where its exponents have 16 bits.
fn monomial_product(a: Mono, b: Mono) -> Option<Mono>
    ensures { result ≡ within_exponents (monomial_product a b) }
{
    if a.fits(b) { Some(a.product(b)) } else { None }
}

/// The residue to the power `e`.
fn raised_residue(f: Field, c: u32, e: u16) -> u32
    requires { c < f }
    ensures value { result ≡ c ^ e % f }
    ensures residue { result < f }
{
    if e == 0 {
        return f.residue(1);
    }
    let half = raised_residue(f, c, e / 2);
    let square = f.mul(half, half);
    if e % 2 == 0 { square } else { f.mul(square, c) }
}

/// The power by one product after the other.
fn repeated_product(f: Field, base: &Poly, e: u16) -> Result<Option<Poly>, AllocError>
    requires over { IsPolynomial f VARS base.now }
    requires many { 2 ≤ e }
    ensures value { IfOk result (λ r. r ≡ power_within f VARS text_width base.now e) }
    ensures over { IfOk result (λ r. IfSome r (IsPolynomial f VARS)) }
{
    match product(f, base, base)? {
        None => Ok(None),
        Some(square) => raised_from_square(f, base, square, e),
    }
}

/// The power, where the square is known.
fn raised_from_square(
    f: Field,
    base: &Poly,
    square: Poly,
    e: u16,
) -> Result<Option<Poly>, AllocError>
    requires over { IsPolynomial f VARS base.now }
    requires square_over { IsPolynomial f VARS square }
    requires square { power_within f VARS text_width base.now 2 ≡ Some square }
    requires many { 2 ≤ e }
    ensures value { IfOk result (λ r. r ≡ power_within f VARS text_width base.now e) }
    ensures over { IfOk result (λ r. IfSome r (IsPolynomial f VARS)) }
{
    let mut power = square;
    for _ in 2..e {
        match product(f, &power, base)? {
            None => return Ok(None),
            Some(next) => power = next,
        }
    }
    Ok(Some(power))
}
