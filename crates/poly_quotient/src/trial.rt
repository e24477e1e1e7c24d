ghost use Rattle.polynomials.specs.Polynomials.{IsPolynomial};

use crate::places::quotient_of;
use field_table::Field;
use mono_words::{Mono, VARS};

/// How many terms of a quotient are tried.
const TRIED_TERMS: usize = 3;

/// How many monomials are looked at for them.
const TRIED_MONOMIALS: usize = 32;

/// A term of the quotient, its coefficient negative, and which term of the divisor is its next factor.
#[derive(Clone, Copy)]
struct Factor {
    monomial: Mono,
    coefficient: u32,
    next: usize,
}

impl Factor {
    /// One with no product.
    fn none() -> Factor {
        Factor {
            monomial: Mono::one(),
            coefficient: 0,
            next: usize::MAX,
        }
    }

    /// Its next product.
    fn product(&self, b: &[(Mono, u32)]) -> Option<(Mono, u64)> {
        let u = b.get(self.next)?;
        if self.monomial.fits(u.0) {
            let c = self.coefficient as u64 * u.1 as u64;
            Some((self.monomial.product(u.0), c))
        } else {
            None
        }
    }
}

/// Whether the first terms of a quotient are possible. Most divisions that fail do so at these, where
/// nothing was made ready yet.
pub fn may_begin(f: Field, a: &[(Mono, u32)], b: &[(Mono, u32)], room: Mono) -> bool
    requires { IsPolynomial f VARS b.now }
{
    let Some(lead) = b.first() else {
        return false;
    };
    let inverse = f.inv(lead.1);
    let mut factors = [Factor::none(); TRIED_TERMS];
    let mut count: usize = 0;
    let mut left = a;
    for _ in 0..TRIED_MONOMIALS {
        let Some(monomial) = greatest(left.first(), &factors, b) else {
            return true;
        };
        let mut sum = take_products(&mut factors, b, monomial);
        if let Some((t, later)) = left.split_first() {
            if t.0 == monomial {
                sum = sum.wrapping_add(t.1 as u64);
                left = later;
            }
        }
        let c = f.residue(sum);
        if c != 0 {
            let Some(over) = quotient_of(monomial, lead.0, room) else {
                return false;
            };
            let Some(factor) = factors.get_mut(count) else {
                return true;
            };
            factor.monomial = over;
            factor.coefficient = f.neg(f.mul(c, inverse));
            factor.next = 1;
            count = count.wrapping_add(1);
        }
    }
    true
}

/// The greatest monomial of a term and the next products.
fn greatest(t: Option<&(Mono, u32)>, factors: &[Factor], b: &[(Mono, u32)]) -> Option<Mono> {
    let mut top = match t {
        None => None,
        Some(t) => Some(t.0),
    };
    for factor in factors {
        if let Some((monomial, _)) = factor.product(b) {
            top = match top {
                Some(other) if other >= monomial => Some(other),
                _ => Some(monomial),
            };
        }
    }
    top
}

/// Takes the next products with a monomial, and adds their coefficients.
fn take_products(factors: &mut [Factor], b: &[(Mono, u32)], monomial: Mono) -> u64 {
    let mut sum: u64 = 0;
    for factor in factors.iter_mut() {
        if let Some((other, c)) = factor.product(b) {
            if other == monomial {
                sum = sum.wrapping_add(c);
                factor.next = factor.next.wrapping_add(1);
            }
        }
    }
    sum
}
