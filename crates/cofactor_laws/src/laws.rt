ghost use Rattle.cofactor_laws.specs.Laws.{RowsWithCofactorsAreCombinations, CofactorsGrowByFalls, LastCofactorHasDegree, CofactorLeadIsZeroByLeads, ReducedCofactorShowsLead, ZeroRowSplitsZeros};
ghost use Rattle.cofactor_laws.specs.TriangularSets.{LastRowsAreReduced, ZeroRowsShowZeros};

/// Remainder rows with cofactors are combinations of the polynomials that they are made of.
pub fn rows_with_cofactors_are_combinations()
    ensures { RowsWithCofactorsAreCombinations }
{}

/// The degree and the lead of the first cofactor, from remainder row to remainder row.
pub fn cofactors_grow_by_falls()
    ensures { CofactorsGrowByFalls }
{}

/// The degree of the zero row's first cofactor.
pub fn last_cofactor_has_degree()
    ensures { LastCofactorHasDegree }
{}

/// The lead of the zero row's first cofactor vanishes only where the lead of a row does.
pub fn cofactor_lead_is_zero_by_leads()
    ensures { CofactorLeadIsZeroByLeads }
{}

/// Where the zero row's first cofactor reduces to 0, the lead of a row vanishes.
pub fn reduced_cofactor_shows_lead()
    ensures { ReducedCofactorShowsLead }
{}

/// Where the other generators vanish, the zero row's first cofactor does, or the first generator.
pub fn zero_row_splits_zeros()
    ensures { ZeroRowSplitsZeros }
{}

/// What a zero row at a polynomial of a triangular set says about points of the quasi-component.
pub fn zero_rows_show_zeros()
    ensures { ZeroRowsShowZeros }
{}

/// Where no zero row ends them, the last row at a polynomial of a triangular set is reduced by it.
pub fn last_rows_are_reduced()
    ensures { LastRowsAreReduced }
{}
