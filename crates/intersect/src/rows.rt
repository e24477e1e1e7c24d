ghost use Rattle.std.specs.Prelude.{◌≡◌, ◌∷◌, Some, IfOk};
ghost use Rattle.polynomials.specs.Polynomials.{IsPolynomial};
ghost use Rattle.polynomials.specs.Views.{main_var};
ghost use Rattle.zero_sets.specs.ZeroSets.{member_in};
ghost use Rattle.division_rules.specs.PolynomialRows.{IsPolynomialRow};
ghost use Rattle.impose_rules.specs.Impose.{child_extended, child_initial, children_at};
ghost use Rattle.impose_laws.specs.TaskForms.{IsTaskOver};
ghost use Rattle.row_laws.specs.Words.{IsReducedBy};
ghost use Rattle.subresultants.specs.Ends.{EachEnd, IfEnds, HasLeads};
ghost use Rattle.intersect.specs.Children.{children_after_rows, children_by};

use crate::cases::{cases_of_head, cases_of_rows};
use crate::children::children_in;
use crate::head::Head;
use chains::Task;
use mono_words::VARS;
use sparse_poly::{Poly, Polys, Work};
use split_paths::Tasks;
use std::alloc::{AllocError, Global};
use subresultants::{Remainders, RowEnds, remainder_rows};

/// The children where `r` with the main variable `v` is imposed; `None` where a product of its
/// remainder rows doesn't fit the width.
pub fn children_at(
    alloc: Global,
    w: &Work,
    v: usize,
    r: Poly,
    left: Task,
) -> Result<Option<Tasks<Task>>, AllocError>
    requires variable { main_var r ≡ Some v }
    requires head { IsPolynomial w.now.field VARS r }
    requires over { IsTaskOver w.now.field VARS left }
    requires reduced { IsReducedBy r left.chain }
    ensures { IfOk result (λ kids. kids ≡ children_at w.now.field VARS w.now.width
        left.chain left.queue left.nonzero v r (member_in v left.chain)) }
{
    w.field.facts();
    left.chain.facts();
    match left.chain.at(v) {
        None => Ok(Some(children_in_new_variable(alloc, w, v, r, left)?)),
        Some(t) => {
            let below = left.chain.below(alloc, v)?;
            let remainders = remainder_rows(alloc, *w, t, &r, v, &below, false)?;
            children_by(alloc, w, v, r, remainders, left)
        }
    }
}

/// The children where the chain has no polynomial with the main variable.
fn children_in_new_variable(
    alloc: Global,
    w: &Work,
    v: usize,
    r: Poly,
    left: Task,
) -> Result<Tasks<Task>, AllocError>
    requires variable { main_var r ≡ Some v }
    requires head { IsPolynomial w.now.field VARS r }
    ensures { IfOk result (λ kids. kids
        ≡ child_extended w.now.field VARS w.now.width left.chain left.queue left.nonzero v r
        ∷ child_initial w.now.field VARS w.now.width left.chain left.queue left.nonzero v r) }
{
    w.field.facts();
    let mut leads = Polys::new(alloc);
    leads.push(r.lead_in(v)?)?;
    let cases = cases_of_head(alloc, w, &r, &leads, &left.nonzero)?;
    let head = Head {
        poly: r,
        variable: v,
        leads,
    };
    children_in(alloc, w, &head, cases, left)
}

/// The children by remainder rows that start with `r`.
fn children_by(
    alloc: Global,
    w: &Work,
    v: usize,
    r: Poly,
    remainders: Remainders,
    left: Task,
) -> Result<Option<Tasks<Task>>, AllocError>
    requires variable { main_var r ≡ Some v }
    requires head { IsPolynomial w.now.field VARS r }
    requires rows { EachEnd (IsPolynomialRow w.now.field VARS) remainders }
    requires leads { IfEnds (HasLeads w.now.field) remainders }
    ensures { IfOk result (λ kids. kids ≡ children_by w.now.field w.now.width v r left remainders) }
{
    match remainders {
        Remainders::TooWide => Ok(None),
        Remainders::Coprime(rows) => {
            Ok(Some(children_after_rows(alloc, w, v, r, rows, false, left)?))
        }
        Remainders::Common(rows, _zero) => {
            Ok(Some(children_after_rows(alloc, w, v, r, rows, true, left)?))
        }
    }
}

/// The children by rows; where they are common the last row has one.
fn children_after_rows(
    alloc: Global,
    w: &Work,
    v: usize,
    r: Poly,
    rows: RowEnds,
    is_common: bool,
    left: Task,
) -> Result<Tasks<Task>, AllocError>
    requires variable { main_var r ≡ Some v }
    requires head { IsPolynomial w.now.field VARS r }
    requires last { IsPolynomialRow w.now.field VARS rows.last }
    requires leads { HasLeads w.now.field rows }
    ensures { IfOk result (λ kids. kids
        ≡ children_after_rows w.now.field w.now.width v r left rows is_common) }
{
    let cases = cases_of_rows(alloc, w, &rows, is_common, &left.nonzero)?;
    let head = Head {
        poly: r,
        variable: v,
        leads: rows.leads,
    };
    children_in(alloc, w, &head, cases, left)
}
