ghost use Rattle.std.specs.Prelude.{◌≡◌, ◌≢◌, ◌<◌, ◌≤◌, [], length, IfOk, IfSome};
ghost use Rattle.polynomials.specs.Views.{degree_in};
ghost use Rattle.division_rules.specs.Chains.{EachRow};
ghost use Rattle.division_rules.specs.PolynomialRows.{IsPolynomialRow, ArePolynomialRows};
ghost use Rattle.division_rules.specs.RemainderRowsWithin.{undivided_within};
ghost use Rattle.division_rules.specs.Triangular.{AreTriangular};
ghost use Rattle.pseudo_division.specs.FieldOperations.{operations};
ghost use Rattle.subresultants.specs.Turns.{IsTurnBeforeOver, divided_turn, turn_within};

use crate::divided::divided;
use crate::divisors::{TurnBefore, divisors};
use mono_words::VARS;
use pseudo_division::{Row, Rows, prem_full, reduce_rows};
use sparse_poly::{Poly, Work};
use std::alloc::{AllocError, Global};

/// What a turn makes.
#[derive(Drop)]
pub enum NextRow {
    /// A row whose first entry is 0.
    Zero(Row),
    /// A further row, with psi and the fall of degree of this turn.
    Later(Row, (Poly, u16)),
}

/// The row after `f` and `g`; `None` where a product doesn't fit the width.
pub fn turn_after(
    alloc: Global,
    w: &Work,
    v: usize,
    chain: &Rows,
    memory: &TurnBefore,
    f: &Row,
    g: &Row,
) -> Result<Option<NextRow>, AllocError>
    requires variable { v < VARS }
    requires chain { ArePolynomialRows w.now.field VARS chain.now }
    requires triangular { AreTriangular chain.now }
    requires left { IsPolynomialRow w.now.field VARS f.now }
    requires right { IsPolynomialRow w.now.field VARS g.now }
    requires some { f.now.first ≢ [] }
    requires degrees { degree_in v g.now.first ≤ degree_in v f.now.first }
    requires occurs { 1 ≤ degree_in v g.now.first }
    requires cofactors { length f.now.cofactors ≡ length g.now.cofactors }
    requires chain_cofactors { EachRow (λ t. length t.cofactors ≡ length f.now.cofactors) chain.now }
    requires memory { IsTurnBeforeOver w.now.field memory.now }
    ensures { IfOk result (λ r.
        r ≡ turn_within w.now.field w.now.width v chain.now memory.now f.now g.now) }
{
    match undivided(alloc, w, v, chain, f, g)? {
        None => Ok(None),
        Some(row) => divided_turn(alloc, w, v, memory, f, g, row),
    }
}

/// The pseudo-remainder of `f` by `g`, reduced by the chain.
fn undivided(
    alloc: Global,
    w: &Work,
    v: usize,
    chain: &Rows,
    f: &Row,
    g: &Row,
) -> Result<Option<Row>, AllocError>
    requires variable { v < VARS }
    requires chain { ArePolynomialRows w.now.field VARS chain.now }
    requires triangular { AreTriangular chain.now }
    requires left { IsPolynomialRow w.now.field VARS f.now }
    requires right { IsPolynomialRow w.now.field VARS g.now }
    requires degrees { degree_in v g.now.first ≤ degree_in v f.now.first }
    requires occurs { 1 ≤ degree_in v g.now.first }
    requires cofactors { length f.now.cofactors ≡ length g.now.cofactors }
    requires chain_cofactors { EachRow (λ t. length t.cofactors ≡ length f.now.cofactors) chain.now }
    ensures value { IfOk result (λ r.
        r ≡ undivided_within (operations w.now.field) w.now.width v chain.now f.now g.now) }
    ensures over { IfOk result (λ r. IfSome r (IsPolynomialRow w.now.field VARS)) }
{
    match prem_full(alloc, *w, f, g, v)? {
        None => Ok(None),
        Some(row) => reduce_rows(alloc, *w, row, chain),
    }
}

/// The row itself where it is 0, and else the row divided by beta.
fn divided_turn(
    alloc: Global,
    w: &Work,
    v: usize,
    memory: &TurnBefore,
    f: &Row,
    g: &Row,
    row: Row,
) -> Result<Option<NextRow>, AllocError>
    requires variable { v < VARS }
    requires left { IsPolynomialRow w.now.field VARS f.now }
    requires some { f.now.first ≢ [] }
    requires degrees { degree_in v g.now.first ≤ degree_in v f.now.first }
    requires row { IsPolynomialRow w.now.field VARS row }
    requires memory { IsTurnBeforeOver w.now.field memory.now }
    ensures { IfOk result (λ r.
        r ≡ divided_turn w.now.field w.now.width v memory.now f.now g.now row) }
{
    if row.first.is_zero() {
        return Ok(Some(NextRow::Zero(row)));
    }
    let fall = f.first.degree_in(v) - g.first.degree_in(v);
    match divisors(alloc, w, v, memory, f, fall)? {
        None => Ok(None),
        Some((psi, beta)) => {
            let quotient = divided(alloc, w, row, &beta)?;
            Ok(Some(NextRow::Later(quotient, (psi, fall))))
        }
    }
}
