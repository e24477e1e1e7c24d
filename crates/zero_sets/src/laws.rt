ghost use Rattle.zero_sets.specs.Residues.{ResiduesAreADomain};
ghost use Rattle.zero_sets.specs.Laws.{ValueOfSum, ValueOfDifference, ValueOfProduct, ValueOfLeadAndTail, ConstantsAreNonZero, MonicKeepsZeros, CertificatesShowInitials};

/// The residues modulo a prime, by their tables, are a finite domain.
pub fn residues_are_a_domain()
    ensures { ResiduesAreADomain }
{}

/// The value of a sum is the sum of the values.
pub fn value_of_sum()
    ensures { ValueOfSum }
{}

/// The values of a difference and of what was taken away add to that of the whole.
pub fn value_of_difference()
    ensures { ValueOfDifference }
{}

/// The value of a product is the product of the values.
pub fn value_of_product()
    ensures { ValueOfProduct }
{}

/// The value of a polynomial is that of its lead times the power of the coordinate, and that of its tail.
pub fn value_of_lead_and_tail()
    ensures { ValueOfLeadAndTail }
{}

/// A constant other than 0 vanishes nowhere.
pub fn constants_are_nonzero()
    ensures { ConstantsAreNonZero }
{}

/// A polynomial and its monic form have the same zeros.
pub fn monic_keeps_zeros()
    ensures { MonicKeepsZeros }
{}

/// At a zero of a chain a certified initial vanishes only where the certificate's value does.
pub fn certificates_show_initials()
    ensures { CertificatesShowInitials }
{}
