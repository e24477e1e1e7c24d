ghost use Rattle.std.specs.Prelude.{◌≡◌, ◌<◌, ◌+◌, ◌^◌, [], ◌++◌, length, replicate, IfOk, OnOk};
ghost use Rattle.polynomials.specs.Polynomials.{IsPolynomial, ArePolynomials, one_of};
ghost use Rattle.division_rules.specs.PolynomialRows.{IsPolynomialRow, ArePolynomialRows};
ghost use Rattle.division_rules.specs.Units.{unit_cofactors};
ghost use Rattle.subresultants.specs.Generators.{generator_row, generator_rows};

use mono_words::VARS;
use pseudo_division::{Row, Rows};
use sparse_poly::{Poly, Polys, Work};
use std::alloc::{AllocError, Global};

/// The polynomial as a row: with cofactors over generators, as many before it and behind it, or
/// without.
pub fn generator_row(
    alloc: Global,
    w: &Work,
    f: &Poly,
    cofactors: bool,
    before: usize,
    behind: usize,
) -> Result<Row, AllocError>
    requires { IsPolynomial w.now.field VARS f.now }
    ensures value { IfOk result (λ r. r ≡ generator_row cofactors before behind f.now) }
    ensures over { IfOk result (IsPolynomialRow w.now.field VARS) }
{
    let first = f.copy()?;
    let cofactors = if cofactors {
        unit_cofactors(alloc, w, before, behind)?
    } else {
        Polys::new(alloc)
    };
    Ok(Row { first, cofactors })
}

/// The cofactors of a generator: 1 at itself, and 0 at those before it and behind it.
fn unit_cofactors(
    alloc: Global,
    w: &Work,
    before: usize,
    behind: usize,
) -> Result<Polys, AllocError>
    ensures value { IfOk result (λ r. r ≡ unit_cofactors [] (one_of VARS) before behind) }
    ensures over { IfOk result (ArePolynomials w.now.field VARS) }
{
    w.field.facts();
    let mut list = Polys::new(alloc);
    push_zeros(alloc, &mut list, before)?;
    list.push(Poly::constant(alloc, w.field, 1)?)?;
    push_zeros(alloc, &mut list, behind)?;
    Ok(list)
}

/// Adds zeros at the end.
fn push_zeros(alloc: Global, list: &mut Polys, count: usize) -> Result<(), AllocError>
    ensures { OnOk result (list.new ≡ list.old ++ replicate count []) }
{
    for _ in 0..count {
        list.push(Poly::zero(alloc))?;
    }
    Ok(())
}

/// The last generators as rows, where as many as `before` stand before them.
pub fn generator_rows(
    alloc: Global,
    w: &Work,
    list: &Polys,
    cofactors: bool,
    before: usize,
) -> Result<Rows, AllocError>
    requires over { ArePolynomials w.now.field VARS list.now }
    requires places { before + length list.now < 2 ^ 32 }
    ensures value { IfOk result (λ r. r ≡ generator_rows w.now.field cofactors before list.now) }
    ensures over { IfOk result (ArePolynomialRows w.now.field VARS) }
{
    let mut rows = Rows::new(alloc);
    let count = list.count();
    for i in 0..count {
        let row = generator_row(alloc, w, list.at(i), cofactors, before + i, count - i - 1)?;
        rows.push(row)?;
    }
    Ok(rows)
}
