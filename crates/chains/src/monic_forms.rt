ghost use Rattle.std.specs.Prelude.{◌≡◌, ◌≢◌, ◌<◌, ◌*◌, ◌%◌, ◌&&◌, eqb, []};
ghost use Rattle.polynomials.specs.Monomials.{same_monomial};
ghost use Rattle.polynomials.specs.Polynomials.{IsPolynomial, monic, scaled, same_polynomial};

use field_table::Field;
use mono_words::{Mono, VARS};
use sparse_poly::Poly;

/// Whether `g` is the monic form of `h`, which isn't 0; the form isn't made.
pub fn is_monic_form(f: Field, g: &Poly, h: &Poly) -> bool
    requires over { IsPolynomial f VARS h.now }
    requires nonzero { h.now ≢ [] }
    ensures { result ≡ same_polynomial (monic f h.now) g.now }
{
    let terms = h.terms();
    is_multiple(f, f.inv(terms[0].1), terms, g.terms())
}

/// Whether the terms `u` are the residue `c` times the terms `t`.
fn is_multiple(f: Field, c: u32, t: &[(Mono, u32)], u: &[(Mono, u32)]) -> bool
    requires residue { c < f }
    requires over { IsPolynomial f VARS t.now }
    ensures { result ≡ same_polynomial (scaled f c t.now) u.now }
{
    if t.len() != u.len() {
        return false;
    }
    for i in 0..t.len() {
        if !is_multiple_term(f, c, t[i], u[i]) {
            return false;
        }
    }
    true
}

fn is_multiple_term(f: Field, c: u32, t: (Mono, u32), u: (Mono, u32)) -> bool
    requires residue { c < f }
    requires coefficient { t.1 < f }
    ensures { result ≡ (same_monomial t.0 u.0 && eqb (c * t.1 % f) u.1) }
{
    t.0 == u.0 && f.mul(c, t.1) == u.1
}
