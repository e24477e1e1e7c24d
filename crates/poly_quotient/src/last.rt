ghost use Rattle.std.specs.Prelude.{◌≡◌, ◌≢◌, ℕ, [], ◌∷◌, ◌++◌};
ghost use Rattle.polynomials.specs.Polynomials.{Polynomial, term};

use mono_words::Mono;

/// The last monomial, which is the least of a polynomial.
pub fn last_monomial(terms: &[(Mono, u32)]) -> Mono
    requires { terms.now ≢ [] }
    ensures { (earlier : Polynomial) × ((c : ℕ) × (terms.now ≡ earlier ++ term result c ∷ [])) }
{
    let last = terms.len() - 1;
    terms[last].0
}
