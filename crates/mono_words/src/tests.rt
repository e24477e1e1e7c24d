use super::*;
use std::cmp::Ordering;
use std::process::Abort;

/// The product of powers of variables.
fn monomial(rt: &impl Abort, powers: &[(usize, u16)]) -> Mono {
    let mut made = Mono::one();
    for &(v, e) in powers {
        assert!(rt; v < VARS);
        let factor = Mono::power(v, e);
        assert!(rt; made.fits(factor));
        made = made.product(factor);
    }
    made
}

/// Each variable to one power.
fn each_to(rt: &impl Abort, e: u16) -> Mono {
    let mut made = Mono::one();
    for v in 0..VARS {
        let factor = Mono::power(v, e);
        assert!(rt; made.fits(factor));
        made = made.product(factor);
    }
    made
}

#[test]
fn each_variable_has_its_own_exponent(rt: HostRuntime) {
    for v in 0..VARS {
        for e in [0, 1, 255, 256, 65535] {
            let power = Mono::power(v, e);
            assert_eq!(rt; power.is_one(), e == 0, "variable {v} to the power {e}");
            assert_eq!(rt;
                power.greatest_variable(),
                if e == 0 { None } else { Some(v) }
            );
            for w in 0..VARS {
                assert_eq!(rt; power.exponent(w), if v == w { e } else { 0 }, "{w} of {v}");
            }
        }
    }
}

#[test]
fn the_greatest_variable_decides_the_order(rt: HostRuntime) {
    let mut below = Mono::one();
    for v in 0..VARS {
        let one = Mono::power(v, 1);
        assert!(rt; below < one, "all variables below {v}");
        assert_eq!(rt; one.cmp(&one), Ordering::Equal);
        assert_eq!(rt; Mono::power(v, 2).cmp(&one), Ordering::Greater);
        below = below.max_exponents(Mono::power(v, 65535));
    }
    for (left, right, order) in [
        (
            monomial(&rt, &[(0, 2), (15, 1)]),
            monomial(&rt, &[(0, 1), (15, 1)]),
            Ordering::Greater,
        ),
        (
            monomial(&rt, &[(3, 1), (4, 1)]),
            monomial(&rt, &[(2, 9), (4, 1)]),
            Ordering::Greater,
        ),
        (
            monomial(&rt, &[(3, 9), (7, 9), (11, 9)]),
            Mono::power(12, 1),
            Ordering::Less,
        ),
        (
            monomial(&rt, &[(8, 7), (0, 3)]),
            monomial(&rt, &[(0, 3), (8, 7)]),
            Ordering::Equal,
        ),
    ] {
        assert_eq!(rt; left.cmp(&right), order);
        assert_eq!(rt; left == right, order == Ordering::Equal);
        assert_eq!(rt; left < right, order == Ordering::Less);
    }
}

#[test]
fn products_fit_up_to_the_greatest_exponent(rt: HostRuntime) {
    for v in 0..VARS {
        for (d, e, sum) in [
            (0, 0, Some(0)),
            (65535, 0, Some(65535)),
            (65534, 1, Some(65535)),
            (40000, 25535, Some(65535)),
            (40000, 25536, None),
            (65535, 1, None),
            (65535, 65535, None),
        ] {
            let (l, m) = (Mono::power(v, d), Mono::power(v, e));
            let made = if l.fits(m) { Some(l.product(m)) } else { None };
            assert_eq!(rt; made, sum.map(|e| Mono::power(v, e)), "variable {v}");
        }
    }
    let (l, m) = (each_to(&rt, 65534), each_to(&rt, 1));
    assert!(rt; l.fits(m));
    assert_eq!(rt; l.product(m), each_to(&rt, 65535));
}

#[test]
fn divisors_have_no_greater_exponent(rt: HostRuntime) {
    let all = each_to(&rt, 65535);
    for v in 0..VARS {
        assert!(rt; Mono::power(v, 65535).divides(all), "variable {v}");
        assert!(rt; !Mono::power(v, 1).divides(all.without(v)), "all but {v}");
        assert!(rt; !all.divides(all.without(v)));
    }
    let dividend = monomial(&rt, &[(0, 3), (1, 2), (3, 65535), (4, 5), (9, 10), (15, 7)]);
    for (divisor, quotient) in [
        (Mono::one(), Some(dividend)),
        (dividend, Some(Mono::one())),
        (
            monomial(&rt, &[(1, 1), (9, 10), (15, 6)]),
            Some(monomial(&rt, &[(0, 3), (1, 1), (3, 65535), (4, 5), (15, 1)])),
        ),
        (monomial(&rt, &[(0, 4), (1, 1)]), None),
        (monomial(&rt, &[(4, 1), (8, 1)]), None),
        (monomial(&rt, &[(3, 1), (4, 6)]), None),
    ] {
        let made = if divisor.divides(dividend) {
            Some(dividend.quotient(divisor))
        } else {
            None
        };
        assert_eq!(rt; made, quotient);
    }
}

#[test]
fn single_exponents_are_replaced(rt: HostRuntime) {
    let whole = monomial(&rt, &[(0, 3), (4, 1), (5, 9), (11, 2), (15, 65535)]);
    for (v, without) in [
        (0, monomial(&rt, &[(4, 1), (5, 9), (11, 2), (15, 65535)])),
        (4, monomial(&rt, &[(0, 3), (5, 9), (11, 2), (15, 65535)])),
        (11, monomial(&rt, &[(0, 3), (4, 1), (5, 9), (15, 65535)])),
        (12, whole),
        (15, monomial(&rt, &[(0, 3), (4, 1), (5, 9), (11, 2)])),
    ] {
        assert_eq!(rt; whole.without(v), without, "without {v}");
    }
    let other = monomial(&rt, &[(0, 2), (1, 7), (4, 2), (5, 8), (8, 1), (15, 8)]);
    let both = monomial(
        &rt,
        &[(0, 3), (1, 7), (4, 2), (5, 9), (8, 1), (11, 2), (15, 65535)],
    );
    assert_eq!(rt; whole.max_exponents(other), both);
    assert_eq!(rt; other.max_exponents(whole), both);
    // Of a divisor and a multiple it is the multiple.
    let divisor = monomial(&rt, &[(0, 2), (5, 8), (15, 65535)]);
    assert_eq!(rt; whole.max_exponents(divisor), whole);
    assert_eq!(rt; divisor.max_exponents(whole), whole);
}

fn crosses_threads<T: Send + Sync + Drop>(_value: T) {}

#[test]
fn monomials_may_cross_threads() {
    crosses_threads(Mono::one());
}
