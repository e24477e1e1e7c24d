ghost use Rattle.std.specs.Prelude.{IfOk};
ghost use Rattle.polynomials.specs.Polynomials.{IsPolynomial};

use super::*;
use field_table::Field;
use mono_words::{Mono, VARS};
use sparse_poly::{Poly, Polys};
use std::alloc::{AllocError, Global};
use std::test::Fail;

/// What is moved to another thread and lent to it.
fn crosses<T: Send + Sync>(_: &T) {}

#[test]
fn tasks_move_between_threads_and_are_shared(rt: HostRuntime) -> Result<(), Fail> {
    let alloc = rt.alloc();
    let task = Task {
        chain: Chain::empty(alloc),
        queue: Polys::new(alloc),
        nonzero: NonZero::empty(alloc),
    };
    crosses(&task.chain);
    crosses(&task.nonzero);
    crosses(&task);
    assert!(rt; task.chain.polys().is_empty());
    Ok(())
}

/// The polynomial with the terms `c x^d y^e` of a list.
fn poly(alloc: Global, f: Field, terms: &[(u32, u16, u16)]) -> Result<Poly, AllocError>
    ensures { IfOk result (IsPolynomial f VARS) }
{
    let mut list = Vec::new(alloc);
    for (c, d, e) in terms {
        let x = Mono::power(0, *d);
        let y = Mono::power(1, *e);
        if *c < f.prime() {
            list.push((x.max_exponents(y), *c))?;
        }
    }
    Poly::from_terms(alloc, f, &list)
}

/// Whether `v` has no polynomial in the set, or the one with these terms.
fn has(chain: &Chain, v: usize, expected: Option<&Poly>) -> bool {
    match (chain.at(v), expected) {
        (None, None) => true,
        (Some(t), Some(u)) => t == u,
        _ => false,
    }
}

#[test]
fn polynomials_stand_by_their_main_variables(rt: HostRuntime) -> Result<(), Fail> {
    let alloc = rt.alloc();
    let f = Field::of(5)?;
    let x = poly(alloc, f, &[(1, 1, 0)])?;
    let y = poly(alloc, f, &[(1, 0, 2), (1, 0, 0)])?;
    let chain = Chain::empty(alloc).with_poly(alloc, y.copy()?)?;
    let chain = chain.with_poly(alloc, x.copy()?)?;
    assert_eq!(rt; chain.polys().count(), 2);
    assert!(rt; chain.polys().first() == Some(&x));
    assert!(rt; has(&chain, 1, Some(&y)));
    assert!(rt; has(&chain, 2, None));
    Ok(())
}

#[test]
fn monic_forms_are_added_unless_known(rt: HostRuntime) -> Result<(), Fail> {
    let alloc = rt.alloc();
    let f = Field::of(5)?;
    let mut known = NonZero::empty(alloc);
    for (terms, count) in [
        // A constant is known without being added.
        ([(3, 0, 0), (0, 0, 0)], 0),
        ([(2, 1, 0), (4, 0, 0)], 1),
        // x + 2 and its multiples are known now, and x + 3 isn't.
        ([(1, 1, 0), (2, 0, 0)], 1),
        ([(3, 1, 0), (1, 0, 0)], 1),
        ([(1, 1, 0), (3, 0, 0)], 2),
    ] {
        let h = poly(alloc, f, &terms)?;
        if !h.is_zero() {
            known.add(f, &h)?;
        }
        assert_eq!(rt; known.polys().count(), count);
    }
    Ok(())
}
