ghost use Rattle.std.specs.Prelude.{◌≡◌, ◌↔◌, ℕ, true, IsTrue};
ghost use Rattle.polynomials.specs.Monomials.{exponent_of};
ghost use Rattle.polynomials.specs.Views.{degree_in};
ghost use Rattle.polynomials.specs.Fits.{fits};

use crate::poly::Poly;
use mono_words::Mono;

/// Whether the product of two polynomials fits the width.
pub fn fits(width: u32, a: &Poly, b: &Poly) -> bool
    ensures { IsTrue result ↔ (fits width a.now b.now ≡ true) }
{
    if a.is_zero() || b.is_zero() {
        return true;
    }
    a.term_count() as u128 * b.term_count() as u128 <= width as u128
        && a.degrees().fits(b.degrees())
}

/// The degree in each variable.
pub fn degrees(terms: &[(Mono, u32)]) -> Mono
    ensures { (v : ℕ) → exponent_of v result ≡ degree_in v terms.now }
{
    let mut degrees = Mono::one();
    for t in terms {
        // Mostly a further term has no greater exponent.
        if !t.0.divides(degrees) {
            degrees = degrees.max_exponents(t.0);
        }
    }
    degrees
}
