ghost use Rattle.std.specs.Prelude.{◌≡◌, ◌<◌, [], ◌∷◌, true, false, length, IfOk};
ghost use Rattle.polynomials.specs.Polynomials.{IsPolynomial, ArePolynomials};
ghost use Rattle.division_rules.specs.Chains.{EachRow};
ghost use Rattle.division_rules.specs.PolynomialRows.{IsPolynomialRow, ArePolynomialRows};
ghost use Rattle.division_rules.specs.Units.{IsCombinationOf};
ghost use Rattle.pseudo_division.specs.FieldOperations.{operations};
ghost use Rattle.row_laws.specs.Words.{StartRemainderRows};
ghost use Rattle.division_rules.specs.Rows.{first_entries};
ghost use Rattle.subresultants.specs.Cofactors.{IfCommon, HasCofactorSteps, VanishesByLeads, ShowsLeadWhereReduced};
ghost use Rattle.subresultants.specs.Ends.{EachEnd, IfEnds, HasLeads, ends_of};
ghost use Rattle.subresultants.specs.Outcomes.{outcome_of, remainders_of};
ghost use Rattle.subresultants.specs.Shape.{EachRemainderRow, IfRows, HasFallingDegrees, IsReducedFromRowOne, HasNonzeroLeads, IfCoprime, EndsWithItsLead, VanishesWithGenerators};

use crate::divisors::TurnBefore;
use crate::generators::{generator_row, generator_rows};
use crate::outcome::{Remainders, RowEnds};
use crate::turn::{NextRow, turn_after};
use mono_words::VARS;
use pseudo_division::{Row, Rows};
use sparse_poly::{Poly, Polys, Work};
use std::alloc::{AllocError, Global};

/// The remainder rows of `t` and `c` in `v` below the polynomials of `below`: pseudo-remainders of
/// each two rows in turn, reduced by those polynomials, and divided by what Brown and Traub divide
/// by where each entry has a quotient. With `cofactors` each row has cofactors over `c`, `t` and the
/// polynomials of `below`, in this order; else no row has any. A row is let go once two more follow.
pub fn remainder_rows(
    alloc: Global,
    w: Work,
    t: &Poly,
    c: &Poly,
    v: usize,
    below: &Polys,
    cofactors: bool,
) -> Result<Remainders, AllocError>
    requires variable { v < VARS }
    requires first { IsPolynomial w.field VARS t.now }
    requires second { IsPolynomial w.field VARS c.now }
    requires chain { ArePolynomials w.field VARS below.now }
    requires start { StartRemainderRows v below.now t.now c.now }
    ensures value { IfOk result (λ r. r ≡ ends_of
        (remainders_of w.field w.width v cofactors t.now c.now below.now)) }

    // Of what is kept: the last row, the zero row and the leads.
    ensures over { IfOk result (EachEnd (IsPolynomialRow w.field VARS)) }
    ensures identity { cofactors ≡ true → IfOk result (EachEnd
        (IsCombinationOf (operations w.field) (c.now ∷ t.now ∷ below.now))) }
    ensures plain { cofactors ≡ false → IfOk result (EachEnd (λ f. f.cofactors ≡ [])) }
    ensures leads { IfOk result (IfEnds (HasLeads w.field)) }

    // Of each row on the way, the zero row too.
    ensures each_over { EachRemainderRow (IsPolynomialRow w.field VARS)
        (remainders_of w.field w.width v cofactors t.now c.now below.now) }
    ensures each_identity { cofactors ≡ true → EachRemainderRow
        (IsCombinationOf (operations w.field) (c.now ∷ t.now ∷ below.now))
        (remainders_of w.field w.width v cofactors t.now c.now below.now) }
    ensures each_plain { cofactors ≡ false → EachRemainderRow (λ f. f.cofactors ≡ [])
        (remainders_of w.field w.width v cofactors t.now c.now below.now) }

    // Of these rows together.
    ensures falls { HasFallingDegrees w.field v
        (remainders_of w.field w.width v cofactors t.now c.now below.now) }
    ensures reduced { IfRows (IsReducedFromRowOne below.now)
        (remainders_of w.field w.width v cofactors t.now c.now below.now) }
    ensures each_lead { IfRows HasNonzeroLeads
        (remainders_of w.field w.width v cofactors t.now c.now below.now) }
    ensures last { IfCoprime EndsWithItsLead
        (remainders_of w.field w.width v cofactors t.now c.now below.now) }
    ensures zeros { IfRows (VanishesWithGenerators w.field (c.now ∷ t.now ∷ below.now))
        (remainders_of w.field w.width v cofactors t.now c.now below.now) }

    // Of the cofactor of c, from row to row to the zero row, and of the latter at points.
    ensures cofactor_steps { cofactors ≡ true → IfCommon
        (HasCofactorSteps w.field w.width v below.now)
        (remainders_of w.field w.width v cofactors t.now c.now below.now) }
    ensures cofactor_lead { cofactors ≡ true → IfCommon
        (VanishesByLeads w.field v t.now below.now)
        (remainders_of w.field w.width v cofactors t.now c.now below.now) }
    ensures shown_lead { cofactors ≡ true → IfCommon
        (ShowsLeadWhereReduced w.field v t.now c.now below.now)
        (remainders_of w.field w.width v cofactors t.now c.now below.now) }
{
    w.field.facts();
    rows_of_generators(alloc, &w, t, c, v, below, cofactors)
}

/// The remainder rows of the rows of generators.
fn rows_of_generators(
    alloc: Global,
    w: &Work,
    t: &Poly,
    c: &Poly,
    v: usize,
    below: &Polys,
    cofactors: bool,
) -> Result<Remainders, AllocError>
    requires variable { v < VARS }
    requires first { IsPolynomial w.now.field VARS t.now }
    requires second { IsPolynomial w.now.field VARS c.now }
    requires chain { ArePolynomials w.now.field VARS below.now }
    requires start { StartRemainderRows v below.now t.now c.now }
    ensures { IfOk result (λ r. r ≡ ends_of
        (remainders_of w.now.field w.now.width v cofactors t.now c.now below.now)) }
{
    w.field.facts();
    let count = below.count();
    let first = generator_row(alloc, w, t, cofactors, 1, count)?;
    let second = generator_row(alloc, w, c, cofactors, 0, count + 1)?;
    let chain = generator_rows(alloc, w, below, cofactors, 2)?;
    rows_of(alloc, w, v, &chain, first, second)
}

/// The remainder rows of two rows below a chain of rows.
fn rows_of(
    alloc: Global,
    w: &Work,
    v: usize,
    chain: &Rows,
    first: Row,
    second: Row,
) -> Result<Remainders, AllocError>
    requires variable { v < VARS }
    requires first { IsPolynomialRow w.now.field VARS first }
    requires second { IsPolynomialRow w.now.field VARS second }
    requires chain { ArePolynomialRows w.now.field VARS chain.now }
    requires start { StartRemainderRows v (first_entries chain.now) first.first second.first }
    requires cofactors { EachRow (λ f. length f.cofactors ≡ length first.cofactors) (first ∷ second ∷ chain.now) }
    ensures { IfOk result (λ r. r ≡ ends_of
        (outcome_of w.now.field w.now.width v chain.now first second)) }
{
    w.field.facts();
    let turns = second.first.degree_in(v) as u32 + 1;
    let mut leads = Polys::new(alloc);
    leads.push(second.first.lead_in(v)?)?;
    let mut before = first;
    let mut last = second;
    let mut memory: TurnBefore = None;
    for _ in 0..turns {
        match turn_after(alloc, w, v, chain, &memory, &before, &last)? {
            None => return Ok(Remainders::TooWide),
            Some(NextRow::Zero(row)) => {
                return Ok(Remainders::Common(RowEnds { last, leads }, row));
            }
            Some(NextRow::Later(row, next)) => {
                let degree = row.first.degree_in(v);
                leads.push(row.first.lead_in(v)?)?;
                if degree == 0 {
                    return Ok(Remainders::Coprime(RowEnds { last: row, leads }));
                }
                before = last;
                last = row;
                memory = Some(next);
            }
        }
    }
    Ok(Remainders::Coprime(RowEnds { last, leads }))
}
