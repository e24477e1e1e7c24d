use super::*;
use std::alloc::{AllocError, Global};
use std::process::Abort;
use std::sync::Wait;
use std::test::Fail;
use std::thread::Threads;
use tri_io::{MemSink, MemSource};

const EXAMPLE: &[u8] = b"prime 5\norder x y\nx*y\n";

const ANSWER: &[u8] = b"chain 1\npoly y\nchain 2\npoly x\nend 2\n";

const ROOM: usize = 2000;

/// Runs with these words, and with each of several numbers of workers.
pub(crate) fn check_command<R: Abort + Threads + Wait + Copy + Send + Sync + 'static>(
    rt: R,
    alloc: Global,
    line: &str,
    text: &[u8],
    status: Status,
    written: &[u8],
) -> Result<(), Fail> {
    for workers in ["1", "2", "7", "16"] {
        let mut words = words_of(alloc, line)?;
        words.push(String::from_str(alloc, "--workers")?)?;
        words.push(String::from_str(alloc, workers)?)?;
        let mut source = MemSource::new(text.to_vec(alloc)?, 4096, Vec::new(alloc));
        let mut sink = MemSink::new(alloc, ROOM, 4096, Vec::new(alloc))?;
        assert_eq!(rt;
            run_many(rt, alloc, &words, &mut source, &mut sink),
            status,
            "of {text:?} with {workers} workers"
        );
        assert_eq!(rt; sink.bytes(), written, "of {text:?} with {workers} workers");
    }
    Ok(())
}

/// Runs without further words.
fn check_run<R: Abort + Threads + Wait + Copy + Send + Sync + 'static>(
    rt: R,
    alloc: Global,
    text: &[u8],
    status: Status,
    written: &[u8],
) -> Result<(), Fail> {
    check_command(rt, alloc, "", text, status, written)
}

/// The words of a line.
fn words_of(alloc: Global, line: &str) -> Result<Vec<String>, AllocError> {
    let mut words = Vec::new(alloc);
    for word in line.split_whitespace() {
        words.push(String::from_str(alloc, word)?)?;
    }
    Ok(words)
}

const SPHERES: &[u8] =
    b"prime 101\norder x y z\nx^2 + y + z - 1\nx + y^2 + z - 1\nx + y + z^2 - 1\n";

#[test]
fn a_system_has_the_chains_of_its_tree(rt: HostRuntime) -> Result<(), Fail> {
    for (text, written) in [
        (
            b"prime 5\norder x\n".as_slice(),
            b"chain -\nend 1\n".as_slice(),
        ),
        (
            b"prime 5\norder x\nx^2 + 4\nx^2 + x + 3\n",
            b"chain -\npoly x + 4\nend 1\n",
        ),
        (b"prime 5\norder x\n3\n", b"end 0\n"),
        (b"prime 5\norder x\n5*x\n", b"chain -\nend 1\n"),
        (
            b"prime 5\norder x y\nx*y\n",
            b"chain 1\npoly y\nchain 2\npoly x\nend 2\n",
        ),
        (
            b"prime 5\norder x y\nx*y^2 + y + 1\n",
            b"chain 1\npoly x*y^2 + y + 1\nregular y by 1\nvalue x\nchain 2\npoly x\npoly y + 1\nend 2\n",
        ),
        (
            b"prime 5\norder x y\nx*y + 4\nx^2 + 4*x\n",
            b"chain 1\npoly x + 4\npoly x*y + 4\nregular y by 1\nwith x 4\nvalue 1\nend 1\n",
        ),
        (
            b"prime 5\norder x y\nx^2 + 4*x\nx*y + 4\n",
            b"chain 1\npoly x + 4\npoly x*y + 4\nregular y by 1\nwith x 4\nvalue 1\nend 1\n",
        ),
        (
            b"prime 5\norder a x y\nx^2 + 4*a\nx*y + 4\n",
            b"chain 1\npoly x^2 + 4*a\npoly x*y + 4\nregular y by 4*x\nwith x 1\nvalue 4*a\nend 1\n",
        ),
        (
            b"prime 5\norder x y\nx^2\nx*y\n",
            b"chain 1\npoly x^2\npoly y\nchain 2\npoly x\nend 2\n",
        ),
        (
            b"prime 2\norder x y\nx^2 - x\nx*y - 1\n",
            b"chain 1\npoly x + 1\npoly x*y + 1\nregular y by 1\nwith x 1\nvalue 1\nend 1\n",
        ),
        (
            b"prime 5\norder x y z\nx^2\ny^3 - y^2\n(x*y^2 + y - 1)*z - 1\n",
            b"chain 1.1\npoly x\npoly y^2\npoly x*y^2*z + y*z + 4*z + 4\nregular z by 4*y + 4\nwith y x*y + x + 1\nvalue 1\nend 1\n",
        ),
        (
            b"prime 101\norder x y z\nx^2 + y + z - 1\nx + y^2 + z - 1\nx + y + z^2 - 1\n",
            b"chain 1\npoly x^4 + 97*x^2 + 4*x + 100\npoly x^2*y + 52*x^2 + 99*x + 51\npoly z + y + x^2 + 100\nregular y by 4*x^3 + x^2 + 85*x + 12\nwith x 97*x + 100\nvalue 1\nchain 2\npoly x^2\npoly y^2 + 100*y + 100*x^2 + x\npoly z + y + x^2 + 100\nend 2\n",
        ),
        (
            b"prime 5\norder x\nx^65535\n",
            b"chain -\npoly x^65535\nend 1\n",
        ),
        (
            b"prime 5\norder x\n999999999999999999*x\n",
            b"chain -\npoly x\nend 1\n",
        ),
        (b"prime 5\norder a b c d e f g h i\n", b"chain -\nend 1\n"),
        (
            b"prime 5\norder a b c d e f g h i j k l m n o p\na*p\n",
            b"chain 1\npoly p\nchain 2\npoly a\nend 2\n",
        ),
    ] {
        check_run(rt, rt.alloc(), text, Status::Chains, written)?;
    }
    Ok(())
}

#[test]
fn points_where_a_nonzero_polynomial_is_zero_are_left_out(rt: HostRuntime) -> Result<(), Fail> {
    for (text, written) in [
        (
            b"prime 5\norder x\nx^2 + 4*x\nnonzero x\n".as_slice(),
            b"nonzero x\nchain -\npoly x + 4\nend 1\n".as_slice(),
        ),
        (
            b"prime 5\norder x y\nnonzero x\nx*y\n",
            b"nonzero x\nchain -\npoly y\nend 1\n",
        ),
        (
            b"prime 5\norder x y\nx*y^2 + y + 1\nnonzero x\n",
            b"nonzero x\nchain -\npoly x*y^2 + y + 1\nregular y by 1\nvalue x\nend 1\n",
        ),
        (b"prime 5\norder x\nx\nnonzero 5\n", b"nonzero 0\nend 0\n"),
        (
            b"prime 5\norder x\nx\nnonzero 8\n",
            b"nonzero 3\nchain -\npoly x\nend 1\n",
        ),
    ] {
        check_run(rt, rt.alloc(), text, Status::Chains, written)?;
    }
    Ok(())
}

/// Runs with these words alone, over a source that fails where it is read.
fn check_usage<R: Abort + Threads + Wait + Copy + Send + Sync + 'static>(
    rt: R,
    alloc: Global,
    line: &str,
) -> Result<(), Fail> {
    let words = words_of(alloc, line)?;
    let mut source = MemSource::new(EXAMPLE.to_vec(alloc)?, 4096, vec![in alloc; 1u64; 1]?);
    let mut sink = MemSink::new(alloc, ROOM, 4096, Vec::new(alloc))?;
    assert_eq!(rt;
        run_many(rt, alloc, &words, &mut source, &mut sink),
        Status::Usage,
        "of {line}"
    );
    assert_eq!(rt;
        sink.bytes(),
        b"usage: triangularize [--workers K] [--steps S] [--width W] [--made K]\n".as_slice(),
        "of {line}"
    );
    Ok(())
}

#[test]
fn words_that_are_no_command_have_the_usage_line(rt: HostRuntime) -> Result<(), Fail> {
    for line in [
        "--workers 0",
        "--workers 17",
        "--workers 2 --workers 2",
        "--steps 5 --steps 5",
        "--steps 05",
        "--",
        "--help",
    ] {
        check_usage(rt, rt.alloc(), line)?;
    }
    Ok(())
}

#[test]
fn a_text_that_is_no_system_has_its_refusal(rt: HostRuntime) -> Result<(), Fail> {
    for (text, written) in [
        (b"".as_slice(), b"refused 2 line 1 byte 1\n".as_slice()),
        (b"prime 9\norder x\n", b"refused 3 line 1 byte 7\n"),
        (b"prime 5\norder x y\nx + z\n", b"refused 7 line 3 byte 5\n"),
        (b"prime 5\norder x\nx*", b"refused 8 line 3 byte 3\n"),
        (b"prime 5\norder x\n\xff\n", b"refused 1 line 3 byte 1\n"),
        (b"prime 5\norder x\nnonzero\n", b"refused 8 line 3 byte 8\n"),
    ] {
        check_run(rt, rt.alloc(), text, Status::Refused, written)?;
    }
    Ok(())
}

#[test]
fn options_limit_a_run(rt: HostRuntime) -> Result<(), Fail> {
    for (line, text, status, written) in [
        (
            "--steps 1",
            b"prime 5\norder x y\nx*y^2 + y + 1\n".as_slice(),
            Status::Stopped,
            b"stopped 1 steps\n".as_slice(),
        ),
        (
            "--width 1",
            b"prime 5\norder x\nx^2 + 4\nx^2 + x + 3\n",
            Status::Stopped,
            b"stopped - size\n",
        ),
        (
            "--steps=6",
            SPHERES,
            Status::Chains,
            b"chain 1\npoly x^4 + 97*x^2 + 4*x + 100\npoly x^2*y + 52*x^2 + 99*x + 51\npoly z + y + x^2 + 100\nregular y by 4*x^3 + x^2 + 85*x + 12\nwith x 97*x + 100\nvalue 1\nchain 2\npoly x^2\npoly y^2 + 100*y + 100*x^2 + x\npoly z + y + x^2 + 100\nend 2\n",
        ),
        ("--steps=5", SPHERES, Status::Stopped, b"stopped 1 steps\n"),
        (
            "--steps=7 --width 9",
            b"prime 5\norder x\nx\n",
            Status::Chains,
            b"chain -\npoly x\nend 1\n",
        ),
    ] {
        check_command(rt, rt.alloc(), line, text, status, written)?;
    }
    Ok(())
}

#[test]
fn a_made_system_has_a_summary(rt: HostRuntime) -> Result<(), Fail> {
    for (line, status, written) in [
        (
            "--made 1",
            Status::Chains,
            b"made 1\nchains 2\npolys 2\n".as_slice(),
        ),
        ("--made 2", Status::Chains, b"made 2\nchains 3\npolys 5\n"),
        ("--made 3", Status::Chains, b"made 3\nchains 5\npolys 12\n"),
        (
            "--made 7",
            Status::Chains,
            b"made 7\nchains 34\npolys 180\n",
        ),
        (
            "--made 7 --steps 1",
            Status::Stopped,
            b"made 7\nchains 0\npolys 0\nstopped 1 steps\n",
        ),
        (
            "--made=7 --steps=8",
            Status::Stopped,
            b"made 7\nchains 1\npolys 4\nstopped 1.1.1.2 steps\n",
        ),
        (
            "--made 0",
            Status::Usage,
            b"usage: triangularize [--workers K] [--steps S] [--width W] [--made K]\n",
        ),
        (
            "--made 9001",
            Status::Usage,
            b"usage: triangularize [--workers K] [--steps S] [--width W] [--made K]\n",
        ),
    ] {
        check_command(rt, rt.alloc(), line, b"", status, written)?;
    }
    Ok(())
}

/// Runs over a source whose reads and a sink whose writes take one byte each.
fn check_bytes<R: Abort + Threads + Wait + Copy + Send + Sync + 'static>(
    rt: R,
    alloc: Global,
    read: Vec<u64>,
    room: usize,
    write: Vec<u64>,
    status: Status,
    written: &[u8],
) -> Result<(), Fail> {
    let mut source = MemSource::new(EXAMPLE.to_vec(alloc)?, 1, read);
    let mut sink = MemSink::new(alloc, room, 1, write)?;
    let words = Vec::new(alloc);
    assert_eq!(rt; run_many(rt, alloc, &words, &mut source, &mut sink), status);
    assert_eq!(rt; sink.bytes(), written);
    Ok(())
}

#[test]
fn each_read_fails_in_turn(rt: HostRuntime) -> Result<(), Fail> {
    let alloc = rt.alloc();
    for k in 1..24u64 {
        let fails = vec![in alloc; k; 1]?;
        check_bytes(
            rt,
            alloc,
            fails,
            ROOM,
            Vec::new(alloc),
            Status::ReadFault,
            b"",
        )?;
    }
    let fails = vec![in alloc; 24u64; 1]?;
    check_bytes(
        rt,
        alloc,
        fails,
        ROOM,
        Vec::new(alloc),
        Status::Chains,
        ANSWER,
    )
}

#[test]
fn each_write_fails_in_turn(rt: HostRuntime) -> Result<(), Fail> {
    let alloc = rt.alloc();
    for k in 1..37u64 {
        let fails = vec![in alloc; k; 1]?;
        let front = &ANSWER[..(k - 1) as usize];
        check_bytes(
            rt,
            alloc,
            Vec::new(alloc),
            ROOM,
            fails,
            Status::WriteFault,
            front,
        )?;
    }
    let fails = vec![in alloc; 37u64; 1]?;
    check_bytes(
        rt,
        alloc,
        Vec::new(alloc),
        ROOM,
        fails,
        Status::Chains,
        ANSWER,
    )?;
    let front = &ANSWER[..35];
    check_bytes(
        rt,
        alloc,
        Vec::new(alloc),
        35,
        Vec::new(alloc),
        Status::WriteFault,
        front,
    )?;
    check_bytes(
        rt,
        alloc,
        Vec::new(alloc),
        36,
        Vec::new(alloc),
        Status::Chains,
        ANSWER,
    )
}
