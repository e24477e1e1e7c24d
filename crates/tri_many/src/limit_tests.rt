use crate::Status;
use crate::tests::check_command;
use std::test::Fail;

/// Each limit at its exact place: what it allows, and what is one too many.
#[test]
fn limits_are_exact(rt: HostRuntime) -> Result<(), Fail> {
    let lines = b"prime 7\norder x y\nx + y + 1\nx + 6*y\n".as_slice();
    for (line, text, status, written) in [
        (
            "",
            b"prime 2\norder x\n(x + 1)^64\n".as_slice(),
            Status::Chains,
            b"chain -\npoly x^64 + 1\nend 1\n".as_slice(),
        ),
        (
            "",
            b"prime 2\norder x\n(x + 1)^65\n",
            Status::Refused,
            b"refused 10 line 3 byte 9\n",
        ),
        (
            "",
            b"prime 32003\norder x\n(x+1)^64*(x+1)^64*(x+1)^64*(x+1)^64\n",
            Status::Refused,
            b"refused 11 line 3 byte 35\n",
        ),
        (
            "--steps 3 --width 3",
            lines,
            Status::Chains,
            b"chain -\npoly x + 4\npoly y + x + 1\nend 1\n",
        ),
        (
            "--steps 2 --width 3",
            lines,
            Status::Stopped,
            b"stopped - steps\n",
        ),
        (
            "--steps 3 --width 2",
            lines,
            Status::Stopped,
            b"stopped - size\n",
        ),
    ] {
        check_command(rt, rt.alloc(), line, text, status, written)?;
    }
    Ok(())
}
