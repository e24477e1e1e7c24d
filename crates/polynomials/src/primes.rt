ghost use Rattle.polynomials.specs.Laws.{FieldPrimesArePrimes, InversesExist, PrimeDividesAFactor};

/// Each modulus that is offered is a prime, so its residues are a field.
pub fn field_primes_are_primes()
    ensures { FieldPrimesArePrimes }
{}

/// Division by a residue other than 0 is possible.
pub fn inverses_exist()
    ensures { InversesExist }
{}

/// Euclid's lemma: a product of residues is 0 only where a factor is.
pub fn prime_divides_a_factor()
    ensures { PrimeDividesAFactor }
{}
