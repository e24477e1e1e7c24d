use super::*;
use std::alloc::Global;
use std::process::Abort;
use std::test::Fail;
use tri_io::{MemSink, MemSource};

const EXAMPLE: &[u8] = b"prime 5\norder x y\nx*y\n";

const ANSWER: &[u8] = b"chain 1\npoly y\nchain 2\npoly x\nend 2\n";

const ROOM: usize = 2000;

/// Runs over a source whose reads and a sink whose writes take one byte each.
fn check_bytes(
    rt: &impl Abort,
    alloc: Global,
    read: Vec<u64>,
    room: usize,
    write: Vec<u64>,
    status: Status,
    written: &[u8],
) -> Result<(), Fail> {
    let mut source = MemSource::new(EXAMPLE.to_vec(alloc)?, 1, read);
    let mut sink = MemSink::new(alloc, room, 1, write)?;
    let words = Vec::new(alloc);
    assert_eq!(rt; run_alone(alloc, &words, &mut source, &mut sink), status);
    assert_eq!(rt; sink.bytes(), written);
    Ok(())
}

#[test]
fn each_read_fails_in_turn(rt: HostRuntime) -> Result<(), Fail> {
    let alloc = rt.alloc();
    for k in 1..24u64 {
        let fails = vec![in alloc; k; 1]?;
        check_bytes(
            &rt,
            alloc,
            fails,
            ROOM,
            Vec::new(alloc),
            Status::ReadFault,
            b"",
        )?;
    }
    let fails = vec![in alloc; 24u64; 1]?;
    check_bytes(
        &rt,
        alloc,
        fails,
        ROOM,
        Vec::new(alloc),
        Status::Chains,
        ANSWER,
    )
}

#[test]
fn each_write_fails_in_turn(rt: HostRuntime) -> Result<(), Fail> {
    let alloc = rt.alloc();
    for k in 1..37u64 {
        let fails = vec![in alloc; k; 1]?;
        let front = &ANSWER[..(k - 1) as usize];
        check_bytes(
            &rt,
            alloc,
            Vec::new(alloc),
            ROOM,
            fails,
            Status::WriteFault,
            front,
        )?;
    }
    let fails = vec![in alloc; 37u64; 1]?;
    check_bytes(
        &rt,
        alloc,
        Vec::new(alloc),
        ROOM,
        fails,
        Status::Chains,
        ANSWER,
    )?;
    let front = &ANSWER[..35];
    check_bytes(
        &rt,
        alloc,
        Vec::new(alloc),
        35,
        Vec::new(alloc),
        Status::WriteFault,
        front,
    )?;
    check_bytes(
        &rt,
        alloc,
        Vec::new(alloc),
        36,
        Vec::new(alloc),
        Status::Chains,
        ANSWER,
    )
}
