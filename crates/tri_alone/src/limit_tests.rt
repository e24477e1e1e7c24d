use crate::Status;
use crate::tests::{check_command, words_of};
use std::alloc::{AllocError, Global};
use std::test::Fail;

const SPHERES: &[u8] =
    b"prime 101\norder x y z\nx^2 + y + z - 1\nx + y^2 + z - 1\nx + y + z^2 - 1\n";

#[test]
fn options_limit_a_run(rt: HostRuntime) -> Result<(), Fail> {
    for (line, text, status, written) in [
        (
            "--steps 1",
            b"prime 5\norder x y\nx*y^2 + y + 1\n".as_slice(),
            Status::Stopped,
            b"stopped 1 steps\n".as_slice(),
        ),
        (
            "--width 1",
            b"prime 5\norder x\nx^2 + 4\nx^2 + x + 3\n",
            Status::Stopped,
            b"stopped - size\n",
        ),
        (
            "--steps=6",
            SPHERES,
            Status::Chains,
            b"chain 1\npoly x^4 + 97*x^2 + 4*x + 100\npoly x^2*y + 52*x^2 + 99*x + 51\npoly z + y + x^2 + 100\nregular y by 4*x^3 + x^2 + 85*x + 12\nwith x 97*x + 100\nvalue 1\nchain 2\npoly x^2\npoly y^2 + 100*y + 100*x^2 + x\npoly z + y + x^2 + 100\nend 2\n",
        ),
        ("--steps=5", SPHERES, Status::Stopped, b"stopped 1 steps\n"),
        (
            "--steps=7 --width 9",
            b"prime 5\norder x\nx\n",
            Status::Chains,
            b"chain -\npoly x\nend 1\n",
        ),
        (
            "--steps 05",
            b"prime 5\norder x\n",
            Status::Usage,
            b"usage: triangularize_alone [--steps S] [--width W] [--made K]\n",
        ),
        (
            "--",
            b"prime 5\norder x\n",
            Status::Usage,
            b"usage: triangularize_alone [--steps S] [--width W] [--made K]\n",
        ),
        (
            "--workers 2",
            b"prime 5\norder x\n",
            Status::Usage,
            b"usage: triangularize_alone [--steps S] [--width W] [--made K]\n",
        ),
    ] {
        let words = words_of(rt.alloc(), line)?;
        check_command(&rt, rt.alloc(), &words, text, status, written)?;
    }
    Ok(())
}

/// A system of `count` lines `x + 1`.
fn lines(alloc: Global, count: u32) -> Result<Vec<u8>, AllocError> {
    let mut text = b"prime 5\norder x\n".to_vec(alloc)?;
    for _ in 0..count {
        text.extend_from_slice(b"x + 1\n")?;
    }
    Ok(text)
}

#[test]
fn each_input_takes_a_step(rt: HostRuntime) -> Result<(), Fail> {
    let alloc = rt.alloc();
    let text = lines(alloc, 1000)?;
    for (line, status, written) in [
        (
            "--steps 1001",
            Status::Chains,
            b"chain -\npoly x + 1\nend 1\n".as_slice(),
        ),
        ("--steps 1000", Status::Stopped, b"stopped - steps\n"),
    ] {
        let words = words_of(alloc, line)?;
        check_command(&rt, alloc, &words, &text, status, written)?;
    }
    Ok(())
}

/// Each limit at its exact place: what it allows, and what is one too many.
#[test]
fn limits_are_exact(rt: HostRuntime) -> Result<(), Fail> {
    let lines = b"prime 7\norder x y\nx + y + 1\nx + 6*y\n".as_slice();
    for (line, text, status, written) in [
        (
            "",
            b"prime 2\norder x\n(x + 1)^64\n".as_slice(),
            Status::Chains,
            b"chain -\npoly x^64 + 1\nend 1\n".as_slice(),
        ),
        (
            "",
            b"prime 2\norder x\n(x + 1)^65\n",
            Status::Refused,
            b"refused 10 line 3 byte 9\n",
        ),
        (
            "",
            b"prime 32003\norder x\n(x+1)^64*(x+1)^64*(x+1)^64*(x+1)^64\n",
            Status::Refused,
            b"refused 11 line 3 byte 35\n",
        ),
        (
            "--steps 3 --width 3",
            lines,
            Status::Chains,
            b"chain -\npoly x + 4\npoly y + x + 1\nend 1\n",
        ),
        (
            "--steps 2 --width 3",
            lines,
            Status::Stopped,
            b"stopped - steps\n",
        ),
        (
            "--steps 3 --width 2",
            lines,
            Status::Stopped,
            b"stopped - size\n",
        ),
    ] {
        let words = words_of(rt.alloc(), line)?;
        check_command(&rt, rt.alloc(), &words, text, status, written)?;
    }
    Ok(())
}
