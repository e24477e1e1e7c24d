ghost use Rattle.std.specs.Prelude.{◌≡◌, ℕ, ◌+◌, ◌-◌, ◌*◌, ◌/◌, ◌%◌, ◌^◌, ◌<◌, ◌≤◌, ◌↔◌, IsOk, IfOk, IfErr, Contains};
ghost use Rattle.std.proofs.Common.{ap, sym};
ghost use Rattle.polynomials.specs.Primes.{IsPrime, field_primes, inverse_of};

use std::marker::Model;
use thiserror::Error;

/// The moduli that are offered.
const PRIMES: [u64; 11] = [2, 3, 5, 7, 11, 13, 101, 257, 32003, 65521, 65537];

/// A modulus was asked for that the table doesn't have.
#[derive(Clone, Copy, Debug, PartialEq, Eq, Error)]
#[error("{asked} is not a prime of the table")]
pub struct NotInTable {
    pub asked: u64,
}

/// The field of residues modulo a prime of the table.
#[derive(Clone, Copy, Debug, PartialEq, Eq)]
pub struct Field {
    prime: u32,
    /// `SCALE` divided by the prime.
    reciprocal: u64,
}

/// One more than the greatest number that is reduced.
const SCALE: u128 = 0x1_0000_0000_0000_0000;

impl Model for Field {
    ghost Value = { ℕ };

    ghost view = { λ f. f.prime };

    ghost invariant = { λ f. Contains field_primes f.prime × (f.reciprocal ≡ 2 ^ 64 / f.prime) };

    ghost inverse = { λ p. record { prime = p; reciprocal = 2 ^ 64 / p } };

    ghost inverse_ok = { λ f holds. ap (λ r. record { prime = f.prime; reciprocal = r }) (sym holds.1) };
}

impl Field {
    /// The field of `p` elements.
    pub fn of(p: u64) -> Result<Field, NotInTable>
        ensures offered { IsOk result ↔ Contains field_primes p }
        ensures ok { IfOk result (λ field. field ≡ p) }
        ensures err { IfErr result (λ refused. refused.asked ≡ p) }
    {
        if PRIMES.contains(&p) {
            Ok(Field {
                prime: p as u32,
                reciprocal: (SCALE / p as u128) as u64,
            })
        } else {
            Err(NotInTable { asked: p })
        }
    }

    /// The number of elements.
    pub fn prime(self) -> u32
        ensures value { result ≡ self }
        ensures offered { Contains field_primes self }
        ensures prime { IsPrime self }
        ensures least { 1 < self }
        ensures most { self ≤ 65537 }
    {
        self.prime
    }

    /// Does nothing: its clauses tell what every field's prime is, where no number is wanted.
    pub fn facts(self)
        ensures offered { Contains field_primes self }
        ensures prime { IsPrime self }
        ensures least { 1 < self }
        ensures most { self ≤ 65537 }
    {
        let _ = self.prime();
    }

    pub fn add(self, a: u32, b: u32) -> u32
        requires left { a < self }
        requires right { b < self }
        ensures sum { result ≡ (a + b) % self }
        ensures residue { result < self }
    {
        // The lesser of both is the residue: a negative difference wraps to a greater number. Written
        // so, it has no branch, which would often be mispredicted.
        let sum = a + b;
        sum.min(sum.wrapping_sub(self.prime))
    }

    pub fn sub(self, a: u32, b: u32) -> u32
        requires left { a < self }
        requires right { b < self }
        ensures difference { result ≡ (a + (self - b)) % self }
        ensures residue { result < self }
    {
        // As in a sum.
        let difference = a.wrapping_sub(b);
        difference.min(difference.wrapping_add(self.prime))
    }

    pub fn neg(self, a: u32) -> u32
        requires { a < self }
        ensures negative { result ≡ (self - a) % self }
        ensures residue { result < self }
    {
        if a == 0 { 0 } else { self.prime - a }
    }

    pub fn mul(self, a: u32, b: u32) -> u32
        requires left { a < self }
        requires right { b < self }
        ensures product { result ≡ a * b % self }
        ensures residue { result < self }
    {
        self.facts();
        self.residue(a as u64 * b as u64)
    }

    /// The inverse of `a`.
    pub fn inv(self, a: u32) -> u32
        requires nonzero { 0 < a }
        requires below { a < self }
        ensures inverse { result ≡ inverse_of self a }
        ensures one { a * result % self ≡ 1 }
        ensures residue { result < self }
    {
        // Euclid's remainders: each one is `a` times a product that is known.
        let p = self.prime;
        let mut rest = a;
        let mut product = 1;
        while rest > 1 {
            product = product_modulo(product, p - p / rest, p);
            rest = p % rest;
        }
        product
    }

    /// `n` as an element of the field.
    pub fn residue(self, n: u64) -> u32
        ensures value { result ≡ n % self }
        ensures residue { result < self }
    {
        let p = self.prime;
        // The quotient, or one less: multiplications take less time than a division.
        let quotient = ((n as u128 * self.reciprocal as u128) >> 64) as u64;
        let rest = (n - quotient * p as u64) as u32;
        if rest < p { rest } else { rest - p }
    }
}

fn product_modulo(a: u32, b: u32, p: u32) -> u32
    requires { 0 < p }
    ensures { result ≡ a * b % p }
{
    (a as u64 * b as u64 % p as u64) as u32
}
