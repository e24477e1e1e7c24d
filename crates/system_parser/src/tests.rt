use super::*;
use mono_words::VARS;
use sparse_poly::{Poly, System};
use std::alloc::{AllocError, Global};
use std::process::Abort;
use std::test::Fail;

// The most bytes that are read.
const MOST_BYTES: usize = 1_048_576;

/// Checks that a text is refused, by this number and at this line and byte.
fn check_refusal(rt: &impl Abort, alloc: Global, text: &str, refusal: (u8, u32, u32)) {
    let bytes = text.as_bytes();
    assert!(rt; bytes.len() <= MOST_BYTES);
    match parse(alloc, bytes) {
        Err(ParseFault::Refused(e)) => {
            assert_eq!(rt; (e.number, e.line, e.byte), refusal, "of {text:?}");
        }
        _ => panic!(rt; "{text:?} isn't refused"),
    }
}

/// Checks that a text is a system with these names and polynomials.
fn check_system(
    rt: &impl Abort,
    alloc: Global,
    text: &str,
    system_text: &str,
) -> Result<(), AllocError> {
    let bytes = text.as_bytes();
    assert!(rt; bytes.len() <= MOST_BYTES);
    match parse(alloc, bytes) {
        Ok(system) => assert_eq!(rt; shown(alloc, &system)?.as_str(), system_text, "of {text:?}"),
        Err(_) => panic!(rt; "{text:?} is refused"),
    }
    Ok(())
}

/// The names, and then the terms of each polynomial, behind `!` of one that must not vanish.
fn shown(alloc: Global, system: &System) -> Result<String, AllocError> {
    let mut text = String::new(alloc);
    for name in system.names.iter() {
        text.push_str(name.as_str())?;
        text.push_str(" ")?;
    }
    for f in system.inputs.iter() {
        text.push_str("| ")?;
        add_terms(alloc, &mut text, f)?;
    }
    for f in system.nonzero.iter() {
        text.push_str("! ")?;
        add_terms(alloc, &mut text, f)?;
    }
    Ok(text)
}

/// Adds each coefficient, and the exponents that aren't 0 by their variables.
fn add_terms(alloc: Global, text: &mut String, f: &Poly) -> Result<(), AllocError> {
    for t in f.terms() {
        text.push_str(format!(in alloc; "{}", t.1)?.as_str())?;
        for v in 0..VARS {
            if t.0.exponent(v) > 0 {
                text.push_str(format!(in alloc; "*v{v}^{}", t.0.exponent(v))?.as_str())?;
            }
        }
        text.push_str(" ")?;
    }
    Ok(())
}

#[test]
fn a_head_line_that_is_none_is_refused(rt: HostRuntime) -> Result<(), Fail> {
    for (text, number, line, byte) in [
        ("", 2, 1, 1),
        ("\n", 2, 2, 1),
        ("# only a comment", 2, 1, 17),
        ("prime", 2, 1, 6),
        ("prime ", 2, 1, 7),
        ("prime 9\norder x\n", 3, 1, 7),
        ("prime 4294967297\n", 3, 1, 7),
        ("prime 05\n", 3, 1, 7),
        ("prime 5 5\n", 2, 1, 9),
        ("prime 5x\n", 2, 1, 8),
        (" prime  5 +\n", 2, 1, 11),
        ("primes 5\n", 2, 1, 1),
        ("prime 1000000000000000000\n", 9, 1, 7),
        ("prime 999999999999999999\n", 3, 1, 7),
        ("5 prime\n", 2, 1, 1),
        ("prime x\n", 2, 1, 7),
        ("\tprime 5\n", 1, 1, 1),
        ("prime 5\té\n", 1, 1, 8),
        ("order x\nprime 5\n", 2, 1, 1),
        ("prime 5", 4, 1, 8),
        ("prime 5\n", 4, 2, 1),
        ("prime 5\n\n# x\n", 4, 4, 1),
        ("prime 5\norder", 4, 2, 6),
        ("prime 5\norder \n# x", 4, 2, 7),
        ("prime 5\norders x\n", 4, 2, 1),
        ("prime 5\norder x, y\n", 4, 2, 8),
        ("prime 5\norder x order\n", 4, 2, 9),
        ("prime 5\norder nonzero x\n", 4, 2, 7),
        ("prime 5\norder x 1\n", 4, 2, 9),
        ("prime 5\norder _x\n", 4, 2, 7),
        (
            "prime 5\norder a b c d e f g h i j k l m n o p q\n",
            5,
            2,
            39,
        ),
        (
            "prime 5\norder a b c d e f g h i j k l m n o p prime\n",
            4,
            2,
            39,
        ),
        (
            "prime 5\norder a b c d e f g h i j k l m n o p a\n",
            5,
            2,
            39,
        ),
        (
            "prime 5\norder a b c d e f g h i j k l m n o p +\n",
            4,
            2,
            39,
        ),
        ("prime 5\norder x x\n", 6, 2, 9),
        ("prime 5\n#\norder x y  x", 6, 3, 12),
        ("prime 5\nprime 5\n", 4, 2, 1),
    ] {
        check_refusal(&rt, rt.alloc(), text, (number, line, byte));
    }
    Ok(())
}

#[test]
fn a_line_that_is_no_sum_is_refused(rt: HostRuntime) -> Result<(), Fail> {
    for (text, number, line, byte) in [
        ("prime 5\norder x\nx*", 8, 3, 3),
        ("prime 5\norder x\nx^01\n", 8, 3, 4),
        ("prime 5\norder x\nx ^ 2 ^ 2\n", 8, 3, 7),
        ("prime 5\norder x\n2x\n", 8, 3, 2),
        ("prime 5\norder x\nx 2\n", 8, 3, 3),
        ("prime 5\norder x\n+x\n", 8, 3, 1),
        ("prime 5\norder x\n--x\n", 8, 3, 2),
        ("prime 5\norder x\nx - -x\n", 8, 3, 5),
        ("prime 5\norder x\nx + + x\n", 8, 3, 5),
        ("prime 5\norder x\nx + -\n", 8, 3, 5),
        ("prime 5\norder x\n-\n", 8, 3, 2),
        ("prime 5\norder x\n()\n", 8, 3, 2),
        ("prime 5\norder x\n(x\n", 8, 3, 3),
        ("prime 5\norder x\nx)\n", 8, 3, 2),
        ("prime 5\norder x\n(x))\n", 8, 3, 4),
        ("prime 5\norder x\n(x + )\n", 8, 3, 6),
        ("prime 5\norder x\nx*-x\n", 8, 3, 3),
        ("prime 5\norder x\nx^x\n", 8, 3, 3),
        ("prime 5\norder x\nx^-1\n", 8, 3, 3),
        ("prime 5\norder x\nx^\n", 8, 3, 3),
        ("prime 5\norder x\nx^(2)\n", 8, 3, 3),
        ("prime 5\norder x\n^2\n", 8, 3, 1),
        ("prime 5\norder x\n*x\n", 8, 3, 1),
        ("prime 5\norder x\nx**2\n", 8, 3, 3),
        ("prime 5\norder x\nx(x)\n", 8, 3, 2),
        ("prime 5\norder x\n(x)(x)\n", 8, 3, 4),
        ("prime 5\norder x\nx y\n", 8, 3, 3),
        ("prime 5\norder x\nx.\n", 8, 3, 2),
        ("prime 5\norder x\nx_\n", 7, 3, 1),
        ("prime 5\norder x y\nx + z\n", 7, 3, 5),
        ("prime 5\norder x y\nz\n", 7, 3, 1),
        ("prime 5\norder x y\nx*(y - X)\n", 7, 3, 8),
        ("prime 5\norder x\n(-)\n", 8, 3, 3),
        ("prime 5\norder x\nx\nx +\n\n# a\n", 8, 4, 4),
        ("prime 5\norder x\n00\n", 8, 3, 2),
        ("prime 5\norder x\n007\n", 8, 3, 2),
    ] {
        check_refusal(&rt, rt.alloc(), text, (number, line, byte));
    }
    Ok(())
}

#[test]
fn a_byte_that_is_no_text_is_refused(rt: HostRuntime) -> Result<(), Fail> {
    for (text, number, line, byte) in [
        ("prime 5\norder x\né\n", 1, 3, 1),
        ("prime 5\norder x\n# aé\n", 1, 3, 4),
        ("#é", 1, 1, 2),
        ("   é\nprime 5\n", 1, 1, 4),
        ("prime 5\norder x\nx\té\n", 1, 3, 2),
        ("prime 5\norder x\nx + x\x7f\n", 1, 3, 6),
        ("prime 5\norder x\n\r\n", 1, 3, 1),
        ("prime 5\norder x\nz é\n", 7, 3, 1),
        ("prime 5\norder x\nx é z\n", 1, 3, 3),
        ("prime 5\norder x\nx^65535*x é\n", 11, 3, 9),
        ("prime 5\r\norder x\r\n", 1, 1, 8),
        ("prime 5\norder xé\n", 1, 2, 8),
        ("prime é\n", 1, 1, 7),
        ("prime 5\norder x\n(x é\n", 1, 3, 4),
        ("prime 5\norder x\nx^é\n", 1, 3, 3),
        ("prime 5\norder x\n# a\n  # b\nx\n#\x00", 1, 6, 2),
    ] {
        check_refusal(&rt, rt.alloc(), text, (number, line, byte));
    }
    Ok(())
}

#[test]
fn a_nonzero_line_that_is_none_is_refused(rt: HostRuntime) -> Result<(), Fail> {
    for (text, number, line, byte) in [
        ("nonzero x\n", 2, 1, 1),
        ("prime 5\nnonzero x\norder x\n", 4, 2, 1),
        ("prime 5\norder x\nnonzero", 8, 3, 8),
        ("prime 5\norder x\nnonzero \n", 8, 3, 9),
        ("prime 5\norder x\nx + nonzero\n", 7, 3, 5),
        ("prime 5\norder x\n nonzero nonzero\n", 7, 3, 10),
        ("prime 5\norder x\nnonzero x nonzero\n", 8, 3, 11),
        ("prime 5\norder x\n(nonzero x)\n", 7, 3, 2),
        ("prime 5\norder x\nnonzeros x\n", 7, 3, 1),
        ("prime 5\norder x\nnonzero x*y\n", 7, 3, 11),
        ("prime 5\norder x\nnonzero + x\n", 8, 3, 9),
        ("prime 5\norder x\nnonzero^2\n", 8, 3, 8),
        ("prime 5\norder x\nnonzero (x\n", 8, 3, 11),
        ("prime 5\norder x\nnonzero 1 2\n", 8, 3, 11),
        ("prime 5\norder x\nnonzeroé\n", 1, 3, 8),
        ("prime 5\norder x\nnonzero 1000000000000000000\n", 9, 3, 9),
        ("prime 5\norder x\n# a\nx\nnonzero x^65536\n", 10, 5, 11),
        ("prime 5\norder x\nnonzero (x)^65\n", 10, 3, 13),
        ("prime 5\norder x\nnonzero x^65535*x\n", 11, 3, 17),
    ] {
        check_refusal(&rt, rt.alloc(), text, (number, line, byte));
    }
    Ok(())
}

#[test]
fn nonzero_lines_stand_anywhere_after_the_order(rt: HostRuntime) -> Result<(), Fail> {
    for (text, system) in [
        (
            "prime 5\norder x\nx^2 + 4*x\nnonzero x\n",
            "x | 1*v0^2 4*v0^1 ! 1*v0^1 ",
        ),
        (
            "prime 5\norder x y\nnonzero x\nx*y\n",
            "x y | 1*v0^1*v1^1 ! 1*v0^1 ",
        ),
        ("prime 5\norder x\nx\nnonzero 5\n", "x | 1*v0^1 ! "),
        ("prime 5\norder x\nx\nnonzero 8\n", "x | 1*v0^1 ! 3 "),
        (
            "prime 5\norder x y\nnonzero y\nx\n\n nonzero(x)\n# a\nx*y\n  nonzero  y",
            "x y | 1*v0^1 | 1*v0^1*v1^1 ! 1*v1^1 ! 1*v0^1 ! 1*v1^1 ",
        ),
        (
            "prime 5\norder nonzeros\nnonzeros\nnonzero nonzeros\n",
            "nonzeros | 1*v0^1 ! 1*v0^1 ",
        ),
    ] {
        check_system(&rt, rt.alloc(), text, system)?;
    }
    Ok(())
}

#[test]
fn what_passes_a_limit_is_refused(rt: HostRuntime) -> Result<(), Fail> {
    for (text, number, line, byte) in [
        ("prime 5\norder x\n1000000000000000000*x\n", 9, 3, 1),
        ("prime 5\norder x\nx + 0*1000000000000000000\n", 9, 3, 7),
        ("prime 5\norder x\nx^1000000000000000000\n", 9, 3, 3),
        ("prime 5\norder x\nx^65536\n", 10, 3, 3),
        ("prime 5\norder x\n3^65536\n", 10, 3, 3),
        ("prime 5\norder x\n(x)^65\n", 10, 3, 5),
        ("prime 5\norder x\n(x)^64*x^65472\n", 11, 3, 14),
        ("prime 5\norder x\nx^65535*x\n", 11, 3, 9),
        ("prime 5\norder x\nx^65535*x + z\n", 11, 3, 9),
        ("prime 5\norder x\nx^32768*x^32768", 11, 3, 15),
        ("prime 5\norder x\n(x^65535)^2\n", 11, 3, 11),
        ("prime 5\norder x\n(x*x)^999999999999999999\n", 10, 3, 7),
        ("prime 2\norder x\n(x + 1)^65\n", 10, 3, 9),
        ("prime 5\norder x\n(x^1024)^64\n", 11, 3, 11),
        ("prime 5\norder x\n(x^1023)^64*x^64\n", 11, 3, 16),
        ("prime 5\norder x\nx*(x^65535 + 1)\n", 11, 3, 15),
        (
            "prime 5\norder x\n(((((((((((((((((((((((((((((((((((((((((((((((((((((((((((((((((x)))))))))))))))))))))))))))))))))))))))))))))))))))))))))))))))))\n",
            12,
            3,
            65,
        ),
        (
            "prime 5\norder x\n(((((((((((((((((((((((((((((((((((((((((((((((((((((((((((((((((\n",
            12,
            3,
            65,
        ),
        (
            "prime 5\norder x\n((((((((((((((((((((((((((((((((((((((((((((((((((((((((((((((((x)(\n",
            8,
            3,
            67,
        ),
        ("prime 65537\norder x y z\n(x + y + z + 1)^24\n", 11, 3, 18),
        (
            "prime 65537\norder x y z\n(x + y + z + 1)^9*(x + y + z + 1)^8\n",
            11,
            3,
            35,
        ),
        (
            "prime 65537\norder x y z\n(x + y + z + 1)^6*(x + y + z + 1)^7*\n",
            11,
            3,
            35,
        ),
    ] {
        check_refusal(&rt, rt.alloc(), text, (number, line, byte));
    }
    Ok(())
}

#[test]
fn a_text_within_the_limits_is_its_system(rt: HostRuntime) -> Result<(), Fail> {
    for (text, inputs) in [
        ("prime 5\norder x\nx^65535\n", "x | 1*v0^65535 "),
        ("prime 5\norder x\n999999999999999999*x\n", "x | 4*v0^1 "),
        (
            "prime 5\norder x\n((((((((((((((((((((((((((((((((((((((((((((((((((((((((((((((((x))))))))))))))))))))))))))))))))))))))))))))))))))))))))))))))))\n",
            "x | 1*v0^1 ",
        ),
        (
            "prime 5\norder a b c d e f g h i j k l m n o p\n",
            "a b c d e f g h i j k l m n o p ",
        ),
        ("prime 5\norder x\n", "x "),
        ("prime 65537\norder x", "x "),
        (" # a\n\n  prime 5  \n #b\n order x \n", "x "),
        (
            "prime 5\norder x y\n(x + 2*y)^2 - 3*x^4",
            "x y | 4*v1^2 4*v0^1*v1^1 2*v0^4 1*v0^2 ",
        ),
        ("prime 5\norder x\n - x + 0", "x | 4*v0^1 "),
        ("prime 5\norder x\n-(-(-x))\n", "x | 4*v0^1 "),
        ("prime 5\norder x\nx - x\n0\n5\n", "x | | | "),
        (
            "prime 5\norder x\n0^0\n(x - x)^0\n(x - x)^64\n",
            "x | 1 | 1 | ",
        ),
        ("prime 5\norder x\n0*x^65535*x\n", "x | "),
        ("prime 5\norder x\n4^65535*x\n2^3\n", "x | 4*v0^1 | 3 "),
        (
            "prime 5\norder x\n(x + 1)^3*x^2\n",
            "x | 1*v0^5 3*v0^4 3*v0^3 1*v0^2 ",
        ),
        (
            "prime 5\norder x y\nx*y*x - y*x^2 + 1 - 0*(x+y)\n",
            "x y | 1 ",
        ),
        ("prime 2\norder x\n(x + 1)^64\n", "x | 1*v0^64 1 "),
        ("prime 5\norder x\nx^0*x^65535\n", "x | 1*v0^65535 "),
        (
            "prime 5\norder x\n  x  +  1\n#\n\n   \nx+1",
            "x | 1*v0^1 1 | 1*v0^1 1 ",
        ),
        (
            "prime 5\norder x1 X_ y\nX_*x1^2-y\n",
            "x1 X_ y | 4*v2^1 1*v0^2*v1^1 ",
        ),
        ("prime 5\norder x\n(((x^2)^2)^2)^0\n", "x | 1 "),
        ("prime 5\norder x\nx+x+x+x+x+1\n", "x | 1 "),
        ("prime 5\norder x y\n-y*2 - y\n", "x y | 2*v1^1 "),
        (
            "prime 5\norder x y\n(x - y)*(x + y)*(x^2 + y^2)\n",
            "x y | 4*v1^4 1*v0^4 ",
        ),
        ("prime 5\norder x\nx ^ 2 * 3\n", "x | 3*v0^2 "),
    ] {
        check_system(&rt, rt.alloc(), text, inputs)?;
    }
    Ok(())
}

#[test]
fn a_text_of_the_greatest_length_is_read(rt: HostRuntime) -> Result<(), Fail> {
    let mut text = String::from_str(rt.alloc(), "prime 5\norder x\n#")?;
    for _ in text.len()..MOST_BYTES {
        text.push_str(".")?;
    }
    check_system(&rt, rt.alloc(), text.as_str(), "x ")?;
    Ok(())
}
