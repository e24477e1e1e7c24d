ghost use Rattle.division_rules.specs.ListWords.{WordsAreListWords};
ghost use Rattle.division_rules.specs.Statements.{QuotientIsExact, QuotientIsNone, NoQuotientByZero, FactorsAreDividedAway, LastFactorIsGone, StepsKeepCanonical, ReductionIsReduced, WithinIsUnlimited};

/// The quotient within a width is the factor that fits it.
pub fn quotient_is_exact()
    ensures { QuotientIsExact }
{}

/// Where no factor fits the width there is no quotient.
pub fn quotient_is_none()
    ensures { QuotientIsNone }
{}

/// Nothing has a quotient by 0.
pub fn no_quotient_by_zero()
    ensures { NoQuotientByZero }
{}

/// A polynomial is its form without factors times a product of those factors.
pub fn factors_are_divided_away()
    ensures { FactorsAreDividedAway }
{}

/// What is left has no quotient by the factor that came last.
pub fn last_factor_is_gone()
    ensures { LastFactorIsGone }
{}

/// Eliminations, remainders and reductions of canonical polynomials are canonical.
pub fn steps_keep_canonical()
    ensures { StepsKeepCanonical }
{}

/// The reduction by a triangular set is reduced by each of its polynomials.
pub fn reduction_is_reduced()
    ensures { ReductionIsReduced }
{}

/// A step within a width has the result of the step without a limit.
pub fn within_is_unlimited()
    ensures { WithinIsUnlimited }
{}

/// At lists of terms the words of division are those of polynomials.
pub fn words_are_list_words()
    ensures { WordsAreListWords }
{}
