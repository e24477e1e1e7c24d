ghost use Rattle.polynomials.specs.Laws.{NoZeroDivisors, QuotientIsUnique, FirstTermOfProduct, DegreeOfProduct, LeadOfProduct, LeadAndTail, MainVariableIsGreatest, FreenessIsKept, FactorsAreFree, MonicIsMonic, FitsInEachVariable, PowerWithinIsPower};
ghost use Rattle.polynomials.specs.RingLaws.{PolynomialsMakeARing};

/// Sums, negatives and products of polynomials are polynomials, and a commutative ring.
pub fn polynomials_make_a_ring()
    ensures { PolynomialsMakeARing }
{}

/// Over a prime field a product is 0 only where a factor is.
pub fn no_zero_divisors()
    ensures { NoZeroDivisors }
{}

/// Division by a polynomial other than 0 has one result at most.
pub fn quotient_is_unique()
    ensures { QuotientIsUnique }
{}

/// The greatest monomial of a product is the product of the greatest monomials.
pub fn first_term_of_product()
    ensures { FirstTermOfProduct }
{}

/// The degree of a product in a variable is the sum of the degrees.
pub fn degree_of_product()
    ensures { DegreeOfProduct }
{}

/// The lead of a product in a variable is the product of the leads.
pub fn lead_of_product()
    ensures { LeadOfProduct }
{}

/// A polynomial is its lead times the power of the variable, and its tail.
pub fn lead_and_tail()
    ensures { LeadAndTail }
{}

/// The main variable is the greatest that occurs.
pub fn main_variable_is_greatest()
    ensures { MainVariableIsGreatest }
{}

/// No variable is new in a sum or product.
pub fn freeness_is_kept()
    ensures { FreenessIsKept }
{}

/// A variable of a factor occurs in the product.
pub fn factors_are_free()
    ensures { FactorsAreFree }
{}

/// Made monic, a polynomial has the first coefficient 1.
pub fn monic_is_monic()
    ensures { MonicIsMonic }
{}

/// Two polynomials fit a width by their numbers of terms and their degrees.
pub fn fits_in_each_variable()
    ensures { FitsInEachVariable }
{}

/// A power that is made within a width is the power.
pub fn power_within_is_power()
    ensures { PowerWithinIsPower }
{}
