ghost use Rattle.std.specs.Prelude.{◌≡◌, IfOk};
ghost use Rattle.polynomials.specs.Polynomials.{IsPolynomial};
ghost use Rattle.division_rules.specs.PolynomialRows.{IsPolynomialRow};
ghost use Rattle.impose_rules.specs.Factors.{stripped};
ghost use Rattle.subresultants.specs.Ends.{HasLeads};

use mono_words::VARS;
use poly_quotient::strip;
use sparse_poly::{Poly, Work};
use std::alloc::{AllocError, Global};
use subresultants::RowEnds;

/// The last row without the leads as factors, monic.
pub fn common(alloc: Global, w: Work, rows: &RowEnds) -> Result<Poly, AllocError>
    requires last { IsPolynomialRow w.field VARS rows.now.last }
    requires leads { HasLeads w.field rows.now }
    ensures value { IfOk result (λ r. r
        ≡ stripped w.field w.width rows.now.leads rows.now.last.first) }
    ensures over { IfOk result (IsPolynomial w.field VARS) }
{
    strip(alloc, w, &rows.last.first, &rows.leads)?.monic(w.field)
}
