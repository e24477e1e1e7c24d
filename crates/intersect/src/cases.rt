ghost use Rattle.std.specs.Prelude.{◌≡◌, ◌≢◌, ◌++◌, [], map, All, IfOk, OnOk};
ghost use Rattle.polynomials.specs.Polynomials.{IsPolynomial, ArePolynomials};
ghost use Rattle.division_rules.specs.PolynomialRows.{IsPolynomialRow};
ghost use Rattle.subresultants.specs.Ends.{HasLeads};
ghost use Rattle.intersect.specs.declared.cases.Case.TheVariants.{Lead};
ghost use Rattle.intersect.specs.Cases.{cases_of_rows, cases_of_head, member_cases, initial_cases};

use chains::NonZero;
use field_table::Field;
use item_lists::Items;
use mono_words::VARS;
use poly_quotient::strip;
use regular_gcd::{Places, common, lead_cases};
use sparse_poly::{Poly, Polys, Work};
use std::alloc::{AllocError, Global};
use subresultants::RowEnds;

/// What vanishes in a child, and what doesn't.
#[derive(Drop)]
pub enum Case {
    /// No lead vanishes, and this polynomial stands at its main variable.
    Member(Poly),
    /// The lead with this number vanishes, and none before it does.
    Lead(usize),
    /// The initial vanishes.
    Initial,
}

pub type HeadCases = Items<Case>;

/// The cases by the leads of remainder rows; where they are common the last row has one.
pub fn cases_of_rows(
    alloc: Global,
    w: &Work,
    rows: &RowEnds,
    is_common: bool,
    nonzero: &NonZero,
) -> Result<HeadCases, AllocError>
    requires last { IsPolynomialRow w.now.field VARS rows.now.last }
    requires leads { HasLeads w.now.field rows.now }
    ensures { IfOk result (λ c. c
        ≡ cases_of_rows w.now.field w.now.width nonzero.now rows.now is_common) }
{
    let mut cases = member_cases(alloc, w, rows, is_common)?;
    let places = lead_cases(alloc, w.field, rows, nonzero)?;
    push_leads(&mut cases, &places)?;
    push_initial(w.field, &mut cases, nonzero, &rows.leads)?;
    Ok(cases)
}

/// The cases of a polynomial by its initial.
pub fn cases_of_head(
    alloc: Global,
    w: &Work,
    r: &Poly,
    leads: &Polys,
    nonzero: &NonZero,
) -> Result<HeadCases, AllocError>
    requires head { IsPolynomial w.now.field VARS r.now }
    requires over { ArePolynomials w.now.field VARS leads.now }
    requires leads { All (λ l. l ≢ []) leads.now }
    requires some { leads.now ≢ [] }
    ensures { IfOk result (λ c. c
        ≡ cases_of_head w.now.field w.now.width nonzero.now r.now leads.now) }
{
    let mut cases = HeadCases::new(alloc);
    let member = strip(alloc, *w, r, leads)?.monic(w.field)?;
    cases.push(Case::Member(member))?;
    push_initial(w.field, &mut cases, nonzero, leads)?;
    Ok(cases)
}

/// The case of the last row, where the rows are common.
fn member_cases(
    alloc: Global,
    w: &Work,
    rows: &RowEnds,
    is_common: bool,
) -> Result<HeadCases, AllocError>
    requires last { IsPolynomialRow w.now.field VARS rows.now.last }
    requires leads { HasLeads w.now.field rows.now }
    ensures { IfOk result (λ r. r ≡ member_cases w.now.field w.now.width rows.now is_common) }
{
    let mut cases = HeadCases::new(alloc);
    if is_common {
        cases.push(Case::Member(common(alloc, *w, rows)?))?;
    }
    Ok(cases)
}

/// Adds the cases of leads.
fn push_leads(cases: &mut HeadCases, places: &Places) -> Result<(), AllocError>
    ensures { OnOk result (cases.new ≡ cases.old ++ map Lead places.now) }
{
    for i in 0..places.count() {
        cases.push(Case::Lead(*places.at(i)))?;
    }
    Ok(())
}

/// Adds the case of the initial, the first of the leads, unless it is known not to vanish.
fn push_initial(
    f: Field,
    cases: &mut HeadCases,
    nonzero: &NonZero,
    leads: &Polys,
) -> Result<(), AllocError>
    requires over { ArePolynomials f VARS leads.now }
    requires leads { All (λ l. l ≢ []) leads.now }
    requires some { leads.now ≢ [] }
    ensures { OnOk result (cases.new ≡ cases.old ++ initial_cases f nonzero.now leads.now) }
{
    if nonzero.knows(f, leads.at(0)) {
        return Ok(());
    }
    cases.push(Case::Initial)
}
