ghost use Rattle.std.specs.Prelude.{◌≡◌, ◌++◌, IfOk, OnOk};
ghost use Rattle.polynomials.specs.Views.{main_var};
ghost use Rattle.zero_sets.specs.ZeroSets.{is_variable, is_variable_below, members_below};
ghost use Rattle.impose_rules.specs.Chains.{is_variable_above, members_above, with_member};

use sparse_poly::{Poly, Polys};
use std::alloc::{AllocError, Global};

/// A list with `t` at its main variable `v`, and copies of the polynomials with other ones.
pub fn copied_with(alloc: Global, list: &Polys, v: usize, t: Poly) -> Result<Polys, AllocError>
    ensures { IfOk result (λ r. r ≡ with_member v t list.now) }
{
    let mut out = copied_below(alloc, list, v)?;
    out.push(t)?;
    push_above(&mut out, list, v)?;
    Ok(out)
}

/// Those whose main variable is less than `v`.
pub fn copied_below(alloc: Global, list: &Polys, v: usize) -> Result<Polys, AllocError>
    ensures { IfOk result (λ r. r ≡ members_below v list.now) }
{
    let mut out = Polys::new(alloc);
    for i in 0..list.count() {
        let t = list.at(i);
        if is_below(t, v) {
            out.push(t.copy()?)?;
        }
    }
    Ok(out)
}

/// Appends those whose main variable is greater than `v`.
fn push_above(out: &mut Polys, list: &Polys, v: usize) -> Result<(), AllocError>
    ensures { OnOk result (out.new ≡ out.old ++ members_above v list.now) }
{
    for i in 0..list.count() {
        let t = list.at(i);
        if is_above(t, v) {
            out.push(t.copy()?)?;
        }
    }
    Ok(())
}

/// Whether the main variable is less than `v`.
pub fn is_below(t: &Poly, v: usize) -> bool
    ensures { result ≡ is_variable_below v (main_var t.now) }
{
    match t.main_var() {
        None => false,
        Some(u) => u < v,
    }
}

/// Whether the main variable is greater than `v`.
pub fn is_above(t: &Poly, v: usize) -> bool
    ensures { result ≡ is_variable_above v (main_var t.now) }
{
    match t.main_var() {
        None => false,
        Some(u) => v < u,
    }
}

/// Whether the main variable is `v`.
pub fn is_at(t: &Poly, v: usize) -> bool
    ensures { result ≡ is_variable v (main_var t.now) }
{
    match t.main_var() {
        None => false,
        Some(u) => u == v,
    }
}
