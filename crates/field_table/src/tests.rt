use super::*;
use std::test::Fail;

#[test]
fn arithmetic_agrees_with_sums_done_by_hand(rt: HostRuntime) -> Result<(), Fail> {
    for (p, a, b, sum, difference, product, negative, inverse) in [
        (2, 1, 1, 0, 0, 1, 1, 1),
        (3, 2, 2, 1, 0, 1, 1, 2),
        (5, 2, 4, 1, 3, 3, 3, 4),
        (7, 3, 5, 1, 5, 1, 4, 3),
        (11, 7, 10, 6, 8, 4, 4, 10),
        (13, 0, 12, 12, 1, 0, 0, 12),
        (101, 100, 2, 1, 98, 99, 1, 51),
        (257, 16, 16, 32, 0, 256, 241, 241),
        (32003, 32002, 2, 1, 32000, 32001, 1, 16002),
        (65521, 65520, 65520, 65519, 0, 1, 1, 65520),
        (65537, 65536, 65536, 65535, 0, 1, 1, 65536),
    ] {
        let field = Field::of(p)?;
        assert_eq!(rt; field.prime() as u64, p);
        let (left, right) = (field.residue(a), field.residue(b));
        assert_eq!(rt; (left as u64, right as u64), (a, b), "modulo {p}");
        assert_eq!(rt; field.add(left, right), sum, "{a} + {b} modulo {p}");
        assert_eq!(rt; field.sub(left, right), difference, "{a} - {b} modulo {p}");
        assert_eq!(rt; field.mul(left, right), product, "{a} * {b} modulo {p}");
        assert_eq!(rt; field.neg(left), negative, "-{a} modulo {p}");
        assert!(rt; right > 0);
        assert_eq!(rt; field.inv(right), inverse, "1 / {b} modulo {p}");
    }
    Ok(())
}

#[test]
fn other_moduli_are_refused(rt: HostRuntime) {
    for asked in [0, 1, 4, 17, 65536, 65539, 0x1_0000_0002, u64::MAX] {
        assert_eq!(rt; Field::of(asked), Err(NotInTable { asked }));
    }
}

#[test]
fn large_numbers_have_residues(rt: HostRuntime) -> Result<(), Fail> {
    let field = Field::of(65537)?;
    for (n, residue) in [(65536, 65536), (65537, 0), (u64::MAX, 0), (1 << 32, 1)] {
        assert_eq!(rt; field.residue(n), residue, "{n} modulo 65537");
    }
    Ok(())
}

#[test]
fn a_refusal_names_the_modulus(rt: HostRuntime) -> Result<(), Fail> {
    let refusal = format!(in rt.alloc(); "{}", NotInTable { asked: 9 })?;
    assert_eq!(rt; refusal.as_str(), "9 is not a prime of the table");
    Ok(())
}

fn crosses_threads<T: Send + Sync + Drop>(_value: T) {}

#[test]
fn fields_and_refusals_may_cross_threads(_rt: HostRuntime) -> Result<(), Fail> {
    crosses_threads(Field::of(7)?);
    crosses_threads(NotInTable { asked: 9 });
    Ok(())
}
