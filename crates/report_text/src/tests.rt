ghost use Rattle.std.specs.Prelude.{All, IsTrue};
ghost use Rattle.report_text.specs.Polynomials.{IsInLeast};

use super::*;
use field_table::Field;
use mono_words::{Mono, VARS};
use sparse_poly::{Names, Poly, Polys};
use split_paths::{Path, Why};
use std::alloc::{AllocError, Global};
use std::test::Fail;
use system_parser::ParseError;

/// The names of a line of names, the least first.
pub(crate) fn names_of(alloc: Global, line: &str) -> Result<Names, AllocError> {
    let mut names = Names::new(alloc);
    for name in line.split(' ') {
        names.push(String::from_str(alloc, name)?)?;
    }
    Ok(names)
}

/// The monomial with these exponents, the least variable first.
fn monomial(exponents: &[u16]) -> Mono {
    let mut m = Mono::one();
    for (v, e) in exponents.iter().enumerate() {
        if v < VARS {
            m = m.max_exponents(Mono::power(v, *e));
        }
    }
    m
}

/// The sum of terms with these coefficients and exponents.
pub(crate) fn poly(alloc: Global, f: Field, terms: &[(u32, [u16; 4])]) -> Result<Poly, AllocError> {
    let mut list = Vec::new(alloc);
    for (c, exponents) in terms {
        if *c < f.prime() {
            list.push((monomial(exponents), *c))?;
        }
    }
    Poly::from_terms(alloc, f, &list)
}

/// Whether only the `k` least variables occur.
pub(crate) fn is_in_least(k: usize, f: &Poly) -> bool
    ensures { IsTrue result → IsInLeast k f.now }
{
    // Tells that there are `VARS` variables.
    let _ = f.terms();
    for v in k..VARS {
        if f.degree_in(v) > 0 {
            return false;
        }
    }
    true
}

/// Whether that holds of each of them.
pub(crate) fn are_in_least(k: usize, polys: &Polys) -> bool
    ensures { IsTrue result → All (IsInLeast k) polys.now }
{
    for i in 0..polys.count() {
        if !is_in_least(k, polys.at(i)) {
            return false;
        }
    }
    true
}

/// The text of a sum of terms, and no text where a variable has no name.
fn printed(alloc: Global, p: u64, names: &str, terms: &[(u32, [u16; 4])]) -> Result<String, Fail> {
    let names = names_of(alloc, names)?;
    let f = poly(alloc, Field::of(p)?, terms)?;
    if !is_in_least(names.count(), &f) {
        return Ok(String::new(alloc));
    }
    Ok(print_poly(alloc, &names, &f)?)
}

#[test]
fn terms_stand_from_the_greatest_on(rt: HostRuntime) -> Result<(), Fail> {
    let alloc = rt.alloc();
    let f = printed(
        alloc,
        5,
        "x y",
        &[(1, [1, 2, 0, 0]), (1, [0, 1, 0, 0]), (1, [0, 0, 0, 0])],
    )?;
    assert_eq!(rt; f.as_str(), "x*y^2 + y + 1");
    let f = printed(alloc, 5, "a x y", &[(4, [1, 0, 0, 0]), (1, [0, 2, 0, 0])])?;
    assert_eq!(rt; f.as_str(), "x^2 + 4*a");
    let f = printed(
        alloc,
        5,
        "x y z",
        &[
            (1, [1, 2, 1, 0]),
            (4, [0, 0, 0, 0]),
            (4, [0, 0, 1, 0]),
            (1, [0, 1, 1, 0]),
        ],
    )?;
    assert_eq!(rt; f.as_str(), "x*y^2*z + y*z + 4*z + 4");
    Ok(())
}

#[test]
fn coefficients_other_than_one_are_printed(rt: HostRuntime) -> Result<(), Fail> {
    let alloc = rt.alloc();
    let f = printed(
        alloc,
        101,
        "x y z",
        &[
            (1, [4, 0, 0, 0]),
            (97, [2, 0, 0, 0]),
            (4, [1, 0, 0, 0]),
            (100, [0, 0, 0, 0]),
        ],
    )?;
    assert_eq!(rt; f.as_str(), "x^4 + 97*x^2 + 4*x + 100");
    let f = printed(
        alloc,
        101,
        "x y z",
        &[
            (1, [2, 1, 0, 0]),
            (52, [2, 0, 0, 0]),
            (99, [1, 0, 0, 0]),
            (51, [0, 0, 0, 0]),
        ],
    )?;
    assert_eq!(rt; f.as_str(), "x^2*y + 52*x^2 + 99*x + 51");
    Ok(())
}

/// The nonzero line of a sum of terms, and no text where a variable has no name.
fn nonzero(alloc: Global, p: u64, names: &str, terms: &[(u32, [u16; 4])]) -> Result<String, Fail> {
    let names = names_of(alloc, names)?;
    let f = poly(alloc, Field::of(p)?, terms)?;
    if !is_in_least(names.count(), &f) {
        return Ok(String::new(alloc));
    }
    Ok(print_nonzero(alloc, &names, &f)?)
}

#[test]
fn polynomials_that_must_not_vanish_have_a_line_each(rt: HostRuntime) -> Result<(), Fail> {
    let alloc = rt.alloc();
    let line = nonzero(alloc, 5, "x", &[(1, [1, 0, 0, 0])])?;
    assert_eq!(rt; line.as_str(), "nonzero x\n");
    let line = nonzero(alloc, 5, "x", &[])?;
    assert_eq!(rt; line.as_str(), "nonzero 0\n");
    let line = nonzero(alloc, 5, "x", &[(3, [0, 0, 0, 0])])?;
    assert_eq!(rt; line.as_str(), "nonzero 3\n");
    let line = nonzero(
        alloc,
        101,
        "a b x y",
        &[(1, [1, 0, 0, 0]), (100, [0, 1, 0, 0])],
    )?;
    assert_eq!(rt; line.as_str(), "nonzero 100*b + a\n");
    Ok(())
}

#[test]
fn constants_are_printed_as_numbers(rt: HostRuntime) -> Result<(), Fail> {
    let alloc = rt.alloc();
    assert_eq!(rt; printed(alloc, 5, "x", &[])?.as_str(), "0");
    assert_eq!(rt; printed(alloc, 5, "x", &[(1, [0, 0, 0, 0])])?.as_str(), "1");
    let greatest = printed(alloc, 65537, "x", &[(65536, [0, 0, 0, 0])])?;
    assert_eq!(rt; greatest.as_str(), "65536");
    Ok(())
}

#[test]
fn exponents_reach_from_1_to_65535(rt: HostRuntime) -> Result<(), Fail> {
    let alloc = rt.alloc();
    let f = printed(alloc, 5, "x", &[(1, [65535, 0, 0, 0])])?;
    assert_eq!(rt; f.as_str(), "x^65535");
    let f = printed(
        alloc,
        5,
        "u_1 Vb",
        &[(2, [1, 65535, 0, 0]), (1, [1, 0, 0, 0])],
    )?;
    assert_eq!(rt; f.as_str(), "2*u_1*Vb^65535 + u_1");
    Ok(())
}

#[test]
fn powers_of_sixteen_variables_stand_in_order(rt: HostRuntime) -> Result<(), Fail> {
    let alloc = rt.alloc();
    let names = names_of(alloc, "a b c d e f g h i j k l m n o p")?;
    let m = monomial(&[1, 2, 3, 0, 1, 1, 65535, 9, 0, 0, 4, 1, 0, 12, 1, 65535]);
    let f = Poly::from_terms(alloc, Field::of(65537)?, &[(m, 1)])?;
    if is_in_least(names.count(), &f) {
        let printed = print_poly(alloc, &names, &f)?;
        assert_eq!(rt;
            printed.as_str(),
            "a*b^2*c^3*e*f*g^65535*h^9*k^4*l*n^12*o*p^65535"
        );
    }
    assert!(rt; is_in_least(VARS, &f));
    Ok(())
}

#[test]
fn a_chain_is_its_path_and_its_polynomials(rt: HostRuntime) -> Result<(), Fail> {
    let alloc = rt.alloc();
    let f = Field::of(101)?;
    let names = names_of(alloc, "x y z")?;
    let mut polys = Polys::new(alloc);
    let root = Path::root(alloc);
    let empty = print_plain_chain(alloc, &names, &root, &polys)?;
    assert_eq!(rt; empty.as_str(), "chain -\n");
    polys.push(poly(alloc, f, &[(1, [2, 0, 0, 0])])?)?;
    polys.push(poly(
        alloc,
        f,
        &[
            (1, [0, 2, 0, 0]),
            (100, [0, 1, 0, 0]),
            (100, [2, 0, 0, 0]),
            (1, [1, 0, 0, 0]),
        ],
    )?)?;
    polys.push(poly(
        alloc,
        f,
        &[
            (1, [0, 0, 1, 0]),
            (1, [0, 1, 0, 0]),
            (1, [2, 0, 0, 0]),
            (100, [0, 0, 0, 0]),
        ],
    )?)?;
    if are_in_least(names.count(), &polys) {
        let chain = print_plain_chain(alloc, &names, &root.child(2)?, &polys)?;
        assert_eq!(rt;
            chain.as_str(),
            "chain 2\npoly x^2\npoly y^2 + 100*y + 100*x^2 + x\npoly z + y + x^2 + 100\n"
        );
    }
    assert!(rt; are_in_least(3, &polys));
    Ok(())
}

#[test]
fn refusals_have_a_number_and_a_place(rt: HostRuntime) -> Result<(), Fail> {
    let alloc = rt.alloc();
    for (number, line, byte, text) in [
        (2, 1, 1, "refused 2 line 1 byte 1\n"),
        (3, 1, 7, "refused 3 line 1 byte 7\n"),
        (5, 2, 23, "refused 5 line 2 byte 23\n"),
        (12, 3, 65, "refused 12 line 3 byte 65\n"),
        (1, 1048577, 4, "refused 1 line 1048577 byte 4\n"),
    ] {
        let refused = print_refused(alloc, &ParseError { number, line, byte })?;
        assert_eq!(rt; refused.as_str(), text);
    }
    let too_long = print_too_long(alloc)?;
    assert_eq!(rt; too_long.as_str(), "refused 13\n");
    Ok(())
}

#[test]
fn usage_names_the_options(rt: HostRuntime) -> Result<(), Fail> {
    let alloc = rt.alloc();
    let many = print_usage(alloc, true)?;
    assert_eq!(rt;
        many.as_str(),
        "usage: triangularize [--workers K] [--steps S] [--width W] [--made K]\n"
    );
    let alone = print_usage(alloc, false)?;
    assert_eq!(rt;
        alone.as_str(),
        "usage: triangularize_alone [--steps S] [--width W] [--made K]\n"
    );
    Ok(())
}

#[test]
fn an_answer_ends_with_a_count_or_a_cause(rt: HostRuntime) -> Result<(), Fail> {
    let alloc = rt.alloc();
    assert_eq!(rt; print_end(alloc, 0)?.as_str(), "end 0\n");
    assert_eq!(rt;
        print_end(alloc, u64::MAX)?.as_str(),
        "end 18446744073709551615\n"
    );
    let root = Path::root(alloc);
    let below = root.child(1)?.child(2)?;
    assert_eq!(rt;
        print_stopped(alloc, &root, Why::Size)?.as_str(),
        "stopped - size\n"
    );
    assert_eq!(rt;
        print_stopped(alloc, &below, Why::Steps)?.as_str(),
        "stopped 1.2 steps\n"
    );
    Ok(())
}

#[test]
fn a_summary_counts_chains_and_polynomials(rt: HostRuntime) -> Result<(), Fail> {
    let alloc = rt.alloc();
    assert_eq!(rt;
        print_summary(alloc, 7, 34, 180)?.as_str(),
        "made 7\nchains 34\npolys 180\n"
    );
    Ok(())
}

#[test]
fn statuses_have_numbers(rt: HostRuntime) -> Result<(), Fail> {
    for (status, number) in [
        (Status::Chains, 0),
        (Status::Stopped, 1),
        (Status::Usage, 2),
        (Status::Refused, 3),
        (Status::ReadFault, 4),
        (Status::WriteFault, 5),
        (Status::OutOfMemory, 6),
    ] {
        assert_eq!(rt; status.number(), number);
    }
    Ok(())
}
