ghost use Rattle.row_laws.specs.Combinations.{CombinationsAreKept, ComposedRowsAreCombinations};
ghost use Rattle.row_laws.specs.Compositions.{CompositionsAreRows, CompositionsAreFree};
ghost use Rattle.row_laws.specs.Identities.{PseudoRemaindersDivide, ReductionsDivide};
ghost use Rattle.row_laws.specs.Values.{DivisionsMultiplyValues, ReductionsMultiplyValues, ReductionsKeepZeros, ReductionsHaveSameZeros, ReducedToZeroVanishes, CombinationsKeepZeros};
ghost use Rattle.row_laws.specs.Degrees.{EliminationsLowerDegree, RemaindersHaveLessDegree, DivisionsKeepDegrees, ReductionsKeepDegrees, ReductionsAreFree, ReducedStaysSame, ReducedByMore, RemainderRowsFall, RemainderRowsAreFree};
ghost use Rattle.row_laws.specs.FirstEntries.{FirstEntriesStandAlone};
ghost use Rattle.row_laws.specs.Members.{MembersArePlaced, MembersAreSplit, ReducedByWhole, MembersStartRemainderRows, PointsAtMembers};
ghost use Rattle.row_laws.specs.Scaling.{ReductionsOfMultiples, MonicReducesAlike, MonicChainsReduceAlike};
ghost use Rattle.row_laws.specs.Vanishing.{RemainderRowsVanish, RemainderRowsEndInCommonZero};

/// Rows stay combinations of their generators through each step of division.
pub fn combinations_are_kept()
    ensures { CombinationsAreKept }
{}

/// Divisions by what is zero multiply the value by powers of the value of its lead.
pub fn divisions_multiply_values()
    ensures { DivisionsMultiplyValues }
{}

/// Where a list of polynomials is zero, a reduction by it multiplies the value by initials.
pub fn reductions_multiply_values()
    ensures { ReductionsMultiplyValues }
{}

/// There a reduction is zero where the polynomial is.
pub fn reductions_keep_zeros()
    ensures { ReductionsKeepZeros }
{}

/// On the quasi-component a reduction is zero exactly where the polynomial is.
pub fn reductions_have_same_zeros()
    ensures { ReductionsHaveSameZeros }
{}

/// A polynomial that reduces to 0 vanishes on the quasi-component.
pub fn reduced_to_zero_vanishes()
    ensures { ReducedToZeroVanishes }
{}

/// A combination of generators is zero where they are.
pub fn combinations_keep_zeros()
    ensures { CombinationsKeepZeros }
{}

/// Where `t`, `c` and the chain are zero, a remainder row is zero as long as no earlier lead is.
pub fn remainder_rows_vanish()
    ensures { RemainderRowsVanish }
{}

/// An elimination lowers the degree.
pub fn eliminations_lower_degree()
    ensures { EliminationsLowerDegree }
{}

/// Remainders have less degree than the divisor.
pub fn remainders_have_less_degree()
    ensures { RemaindersHaveLessDegree }
{}

/// Divisions don't raise degrees in other variables than theirs, where the divisor lacks them.
pub fn divisions_keep_degrees()
    ensures { DivisionsKeepDegrees }
{}

/// Nor do reductions by a triangular set that doesn't have the variable.
pub fn reductions_keep_degrees()
    ensures { ReductionsKeepDegrees }
{}

/// What is reduced is its own reduction.
pub fn reduced_stays_same()
    ensures { ReducedStaysSame }
{}

/// Polynomials that reduce nothing can be left out at the end of a triangular set.
pub fn reduced_by_more()
    ensures { ReducedByMore }
{}

/// Remainder rows aren't 0, are reduced, and have falling degrees.
pub fn remainder_rows_fall()
    ensures { RemainderRowsFall }
{}

/// Remainder rows have no other variables than the rows that they are made of.
pub fn remainder_rows_are_free()
    ensures { RemainderRowsAreFree }
{}

/// The reduction of a multiple by a constant is the multiple of the reduction.
pub fn reductions_of_multiples()
    ensures { ReductionsOfMultiples }
{}

/// A polynomial reduces to 0 exactly where its monic form does.
pub fn monic_reduces_alike()
    ensures { MonicReducesAlike }
{}

/// A member of a triangular set stands behind those with lesser main variables.
pub fn members_are_placed()
    ensures { MembersArePlaced }
{}

/// Remainder rows start with a member and what is reduced by the set.
pub fn members_start_remainder_rows()
    ensures { MembersStartRemainderRows }
{}

/// A point of a quasi-component, at a member and below it.
pub fn points_at_members()
    ensures { PointsAtMembers }
{}

/// Where no lead is zero, remainder rows end with a common zero.
pub fn remainder_rows_end_in_common_zero()
    ensures { RemainderRowsEndInCommonZero }
{}

/// A multiple of a row, with a combination of its generators added, is a combination of them.
pub fn composed_rows_are_combinations()
    ensures { ComposedRowsAreCombinations }
{}

/// A polynomial reduces to 0 exactly where it does by the monic forms of the divisors.
pub fn monic_chains_reduce_alike()
    ensures { MonicChainsReduceAlike }
{}

/// First entries of remainders and reductions don't look at cofactors.
pub fn first_entries_stand_alone()
    ensures { FirstEntriesStandAlone }
{}

/// A power of the divisor's lead times a polynomial is a multiple of the divisor and the
/// pseudo-remainder.
pub fn pseudo_remainders_divide()
    ensures { PseudoRemaindersDivide }
{}

/// A product of initials times a polynomial is its reduction and a combination of the chain.
pub fn reductions_divide()
    ensures { ReductionsDivide }
{}

/// The composition of two rows is a row.
pub fn compositions_are_rows()
    ensures { CompositionsAreRows }
{}

/// Reductions of rows bring no variable into an entry.
pub fn reductions_are_free()
    ensures { ReductionsAreFree }
{}

/// The members below a variable, split at one of them.
pub fn members_are_split()
    ensures { MembersAreSplit }
{}

/// What lacks the greater main variables is reduced by the whole set where it is by the others.
pub fn reduced_by_whole()
    ensures { ReducedByWhole }
{}

/// The composition of two rows brings no variable into an entry.
pub fn compositions_are_free()
    ensures { CompositionsAreFree }
{}
