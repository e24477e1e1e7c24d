ghost use Rattle.std.specs.Prelude.{◌≡◌, ◌<◌, ◌≤◌, IfOk, string_bytes, map};
ghost use Rattle.polynomials.specs.Polynomials.{IsPolynomial, variable_power};
ghost use Rattle.system_text.specs.Laws.{IsSystem};
ghost use Rattle.system_parser.specs.Made.{made_names, made_polynomial, made_prime, made_system};
ghost use Rattle.system_parser.specs.Systems.{text_system_of};

use field_table::Field;
use mono_words::{Mono, VARS};
use sparse_poly::{Names, Poly, Polys, System};
use std::alloc::{AllocError, Global};

/// The greatest number that a system is made from.
pub const MOST_MADE: u32 = 9_000;

/// The system that is made from the number `k`: `k` products of two variables, the first of which
/// may be shifted.
pub fn made(alloc: Global, k: u32) -> Result<System, AllocError>
    requires { k ≤ 9_000 }
    ensures value { IfOk result (λ s. text_system_of s ≡ made_system VARS k) }
    ensures lawful { IfOk result (λ s. IsSystem VARS (text_system_of s)) }
{
    let field = made_field();
    let mut inputs = Polys::new(alloc);
    for i in 0..k {
        let next = made_polynomial(alloc, field, i)?;
        inputs.push(next)?;
    }
    let names = made_names(alloc)?;
    Ok(System {
        field,
        names,
        inputs,
        nonzero: Polys::new(alloc),
    })
}

/// The field of made systems.
fn made_field() -> Field
    ensures { result ≡ made_prime }
{
    match Field::of(32_003) {
        Ok(field) => field,
        Err(_) => unreachable!(),
    }
}

/// The names of their variables.
fn made_names(alloc: Global) -> Result<Names, AllocError>
    ensures { IfOk result (λ names. map string_bytes names ≡ made_names) }
{
    let letters = ["a", "b", "c", "d", "e", "f", "g", "h"];
    let mut names = Names::new(alloc);
    for letter in letters.as_slice() {
        names.push(String::from_str(alloc, letter)?)?;
    }
    Ok(names)
}

/// Their polynomial in the place `i`, counted from 0.
fn made_polynomial(alloc: Global, field: Field, i: u32) -> Result<Poly, AllocError>
    requires prime { field ≡ made_prime }
    requires place { i < 9_000 }
    ensures value { IfOk result (λ f. f ≡ made_polynomial VARS i) }
    ensures over { IfOk result (IsPolynomial made_prime VARS) }
{
    let v = (i % 7) as usize;
    let first = variable(alloc, field, v)?;
    let shift = Poly::constant(alloc, field, i / 7)?;
    let shifted = first.add(field, &shift)?;
    shifted.times_power(field, v + 1, 1)
}

/// The variable `v`.
fn variable(alloc: Global, field: Field, v: usize) -> Result<Poly, AllocError>
    requires { v < VARS }
    ensures value { IfOk result (λ f. f ≡ variable_power VARS v 1) }
    ensures over { IfOk result (IsPolynomial field VARS) }
{
    field.facts();
    let variable = Poly::from_terms(alloc, field, &[(Mono::power(v, 1), 1)])?;
    Ok(variable)
}
