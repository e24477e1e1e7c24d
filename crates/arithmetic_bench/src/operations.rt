ghost use Rattle.std.specs.Prelude.{◌≡◌, ◌≢◌, ◌<◌, ◌≤◌, ◌↔◌, [], false, IfOk, IfSome, IsNone};
ghost use Rattle.polynomials.specs.Polynomials.{IsPolynomial, product_of};
ghost use Rattle.polynomials.specs.Views.{degree_in};
ghost use Rattle.polynomials.specs.Fits.{fits};
ghost use Rattle.division_rules.specs.PolynomialRows.{IsPolynomialRow};
ghost use Rattle.division_rules.specs.Quotients.{quotient_within};
ghost use Rattle.division_rules.specs.Within.{pseudo_remainder_within};
ghost use Rattle.pseudo_division.specs.FieldOperations.{operations, first_of};

use crate::operands::operand;
use crate::sequence::Sequence;
use crate::trial::{Operation, Trial};
use field_table::Field;
use mono_words::VARS;
use poly_quotient::quo;
use pseudo_division::{Row, prem_full};
use sparse_poly::{Poly, Polys, Work};
use std::alloc::{AllocError, Global};

/// The field of the operands, and a width that nothing here passes.
fn made_work() -> Work {
    match Field::of(65_521) {
        Ok(field) => Work {
            field,
            width: u32::MAX,
        },
        Err(_) => unreachable!(),
    }
}

/// What the operation gives the last time, and `None` where it gives nothing.
pub(crate) fn last_result(alloc: Global, trial: Trial) -> Result<Option<Poly>, AllocError> {
    let work = made_work();
    let mut sequence = Sequence::new();
    let left = operand(alloc, work.field, &mut sequence, trial, trial.left)?;
    let right = operand(alloc, work.field, &mut sequence, trial, trial.right)?;
    match trial.operation {
        Operation::Mul => last_product(&work, &left, &right, trial.repeats),
        Operation::Quo => quotients(alloc, &work, &left, &right, trial.repeats),
        Operation::Prem => remainders(alloc, &work, left, right, trial),
    }
}

/// The product, made over and over.
fn last_product(
    work: &Work,
    left: &Poly,
    right: &Poly,
    repeats: u32,
) -> Result<Option<Poly>, AllocError>
    requires left { IsPolynomial work.now.field VARS left.now }
    requires right { IsPolynomial work.now.field VARS right.now }
    ensures none { 0 < repeats → IfOk result (λ r.
        IsNone r ↔ (fits work.now.width left.now right.now ≡ false)) }
    ensures product { 0 < repeats → IfOk result (λ r.
        IfSome r (λ g. g ≡ product_of work.now.field left.now right.now)) }
{
    let mut last = Some(left.copy()?);
    for _ in 0..repeats {
        last = left.mul(*work, right)?;
    }
    Ok(last)
}

/// The quotients of the product of both operands by the right one.
fn quotients(
    alloc: Global,
    work: &Work,
    left: &Poly,
    right: &Poly,
    repeats: u32,
) -> Result<Option<Poly>, AllocError>
    requires left { IsPolynomial work.now.field VARS left.now }
    requires right { IsPolynomial work.now.field VARS right.now }
{
    if right.is_zero() {
        return Ok(None);
    }
    match left.mul(*work, right)? {
        None => Ok(None),
        Some(product) => last_quotient(alloc, work, &product, right, repeats),
    }
}

/// The quotient, made over and over.
fn last_quotient(
    alloc: Global,
    work: &Work,
    product: &Poly,
    right: &Poly,
    repeats: u32,
) -> Result<Option<Poly>, AllocError>
    requires product { IsPolynomial work.now.field VARS product.now }
    requires right { IsPolynomial work.now.field VARS right.now }
    requires nonzero { right.now ≢ [] }
    ensures { 0 < repeats → IfOk result (λ r.
        r ≡ quotient_within work.now.field work.now.width product.now right.now) }
{
    let mut last = Some(product.copy()?);
    for _ in 0..repeats {
        last = quo(alloc, *work, product, right)?;
    }
    Ok(last)
}

/// The pseudo-remainders in the greatest variable, where it occurs in the right operand and has no
/// smaller degree in the left one.
fn remainders(
    alloc: Global,
    work: &Work,
    left: Poly,
    right: Poly,
    trial: Trial,
) -> Result<Option<Poly>, AllocError>
    requires left { IsPolynomial work.now.field VARS left }
    requires right { IsPolynomial work.now.field VARS right }
{
    let v = trial.variables - 1;
    if right.degree_in(v) == 0 || left.degree_in(v) < right.degree_in(v) {
        return Ok(None);
    }
    let f = Row {
        first: left,
        cofactors: Polys::new(alloc),
    };
    let g = Row {
        first: right,
        cofactors: Polys::new(alloc),
    };
    last_remainder(alloc, work, &f, &g, v, trial.repeats)
}

/// The pseudo-remainder, made over and over.
fn last_remainder(
    alloc: Global,
    work: &Work,
    f: &Row,
    g: &Row,
    v: usize,
    repeats: u32,
) -> Result<Option<Poly>, AllocError>
    requires variable { v < VARS }
    requires left { IsPolynomialRow work.now.field VARS f.now }
    requires right { IsPolynomialRow work.now.field VARS g.now }
    requires degrees { degree_in v g.now.first ≤ degree_in v f.now.first }
    requires occurs { 1 ≤ degree_in v g.now.first }
    requires plain { f.now.cofactors ≡ [] }
    requires divisor { g.now.cofactors ≡ [] }
    ensures { 0 < repeats → IfOk result (λ r. r ≡ first_of
        (pseudo_remainder_within (operations work.now.field) work.now.width v f.now g.now)) }
{
    let mut last = Some(f.copy(alloc)?);
    for _ in 0..repeats {
        last = prem_full(alloc, *work, f, g, v)?;
    }
    match last {
        None => Ok(None),
        Some(row) => Ok(Some(row.first)),
    }
}
