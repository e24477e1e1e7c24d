ghost use Rattle.std.specs.Prelude.{◌≤◌};

use super::*;
use std::alloc::{AllocError, Global};
use std::io::{self, ErrorKind, Read, Write};
use std::process::Abort;
use std::test::Fail;

const LETTERS: &[u8] = b"abcdefg";

// Gives its bytes two a call. The call of this number fails, and those after it go on.
#[derive(Drop)]
struct TwoByTwo<'a> {
    left: &'a [u8],
    calls: u32,
    fails: u32,
}

impl<'a> Read for TwoByTwo<'a> {
    fn read(&mut self, buf: &mut [u8]) -> io::Result<usize> {
        self.calls = self.calls.saturating_add(1);
        if self.calls == self.fails {
            return Err(ErrorKind::Other.into());
        }
        let count = self.left.len().min(buf.len()).min(2);
        buf[..count].copy_from_slice(&self.left[..count]);
        self.left = &self.left[count..];
        Ok(count)
    }
}

// What a full writer answers.
#[derive(Clone, Copy)]
enum Full {
    Nothing,
    Error,
}

// Counts the bytes that it takes, three a call at most. Once it was full it has room for more.
#[derive(Drop)]
struct Counter {
    room: usize,
    full: Full,
}

impl Write for Counter {
    fn write(&mut self, buf: &[u8]) -> io::Result<usize> {
        if self.room == 0 {
            self.room = LETTERS.len();
            return match self.full {
                Full::Nothing => Ok(0),
                Full::Error => Err(ErrorKind::Other.into()),
            };
        }
        let count = self.room.min(buf.len()).min(3);
        self.room -= count;
        Ok(count)
    }

    fn flush(&mut self) -> io::Result<()> {
        Ok(())
    }
}

// What reading to the end is to give.
#[derive(Clone, Copy)]
enum Want {
    Whole,
    TooLong,
    Fault,
}

fn check_read<S: Source>(
    rt: &impl Abort,
    alloc: Global,
    source: &mut S,
    most: usize,
    want: Want,
    bytes: &[u8],
) -> Result<(), Fail>
    requires { most ≤ 1_048_576 }
{
    match (read_all(alloc, source, most), want) {
        (Ok(Input::Whole(whole)), Want::Whole) => assert_eq!(rt; whole.as_slice(), bytes),
        (Ok(Input::TooLong), Want::TooLong) | (Err(ReadFail::Fault), Want::Fault) => {}
        _ => assert!(rt; false, "at most {most} of {bytes:?}"),
    }
    Ok(())
}

#[test]
fn a_source_is_read_to_its_end_and_no_further(rt: HostRuntime) -> Result<(), Fail> {
    let alloc = rt.alloc();
    for (bytes, step, fails, most, want) in [
        (LETTERS, 4, 1, 100, Want::Fault),
        (LETTERS, 4, 2, 100, Want::Fault),
        (LETTERS, 4, 3, 100, Want::Fault),
        // The third call meets the end, and no fourth is made.
        (LETTERS, 4, 4, 7, Want::Whole),
        (LETTERS, 1, 9, 7, Want::Whole),
        (LETTERS, 1, 7, 7, Want::Fault),
        (LETTERS, usize::MAX, 0, 6, Want::TooLong),
        // One byte past the limit is enough.
        (LETTERS, 1, 4, 2, Want::TooLong),
        (LETTERS, 1, 2, 0, Want::TooLong),
        (b"", 1, 2, 0, Want::Whole),
    ] {
        let fails = vec![in alloc; fails; 1]?;
        let mut source = MemSource::new(bytes.to_vec(alloc)?, step, fails);
        check_read(&rt, alloc, &mut source, most, want, bytes)?;
    }
    Ok(())
}

// More bytes than one read asks for. They stand apart, so that no proof counts them out.
fn many_bytes(alloc: Global) -> Result<Vec<u8>, AllocError> {
    vec![in alloc; 7; 10_000]
}

#[test]
fn a_long_source_is_read_in_many_pieces(rt: HostRuntime) -> Result<(), Fail> {
    let alloc = rt.alloc();
    let bytes = many_bytes(alloc)?;
    for (most, want) in [
        (9_999, Want::TooLong),
        (10_000, Want::Whole),
        (10_001, Want::Whole),
    ] {
        let mut source = MemSource::new(bytes.clone()?, usize::MAX, Vec::new(alloc));
        check_read(&rt, alloc, &mut source, most, want, &bytes)?;
    }
    Ok(())
}

#[test]
fn all_is_written_or_a_proper_front(rt: HostRuntime) -> Result<(), Fail> {
    let alloc = rt.alloc();
    for (bytes, step, room, fails, want, taken) in [
        (LETTERS, 4, 100, 1, Err(Failed), b"".as_slice()),
        (LETTERS, 4, 100, 2, Err(Failed), b"abcd"),
        // Two calls take all, and no third is made.
        (LETTERS, 4, 7, 3, Ok(()), LETTERS),
        (LETTERS, 1, 7, 8, Ok(()), LETTERS),
        (LETTERS, 1, 7, 7, Err(Failed), b"abcdef"),
        (LETTERS, 4, 5, 0, Err(Failed), b"abcde"),
        (LETTERS, 4, 0, 0, Err(Failed), b""),
        // Nothing is written in no call.
        (b"", 4, 0, 1, Ok(()), b""),
    ] {
        let fails = vec![in alloc; fails; 1]?;
        let mut sink = MemSink::new(alloc, room, step, fails)?;
        assert_eq!(rt; write_all(&mut sink, bytes), want);
        assert_eq!(rt; sink.bytes(), taken);
    }
    Ok(())
}

#[test]
fn no_call_follows_the_one_that_ends(rt: HostRuntime) -> Result<(), Fail> {
    let alloc = rt.alloc();
    // Two calls take all bytes, so that the next one is the third.
    let mut sink = MemSink::new(alloc, 100, 4, vec![in alloc; 3; 1]?)?;
    assert_eq!(rt; write_all(&mut sink, LETTERS), Ok(()));
    assert_eq!(rt; sink.write(LETTERS), Err(Failed));

    // Two calls give all bytes, and the third meets the end.
    let mut source = MemSource::new(LETTERS.to_vec(alloc)?, 4, vec![in alloc; 4; 1]?);
    check_read(&rt, alloc, &mut source, 100, Want::Whole, LETTERS)?;
    assert_eq!(rt; source.read(&mut [0; 3]), Err(Failed));
    Ok(())
}

#[test]
fn a_failed_call_may_be_made_again(rt: HostRuntime) -> Result<(), Fail> {
    let alloc = rt.alloc();
    let mut buf = [0; 3];
    let mut source = MemSource::new(LETTERS.to_vec(alloc)?, 2, vec![in alloc; 2; 1]?);
    assert_eq!(rt; source.read(&mut buf), Ok(2));
    assert_eq!(rt; source.read(&mut buf), Err(Failed));
    assert_eq!(rt; source.read(&mut buf), Ok(2));
    assert_eq!(rt; buf, [b'c', b'd', 0]);

    let mut sink = MemSink::new(alloc, 2, 5, vec![in alloc; 1; 1]?)?;
    assert_eq!(rt; sink.write(LETTERS), Err(Failed));
    assert_eq!(rt; sink.write(LETTERS), Ok(2));
    assert_eq!(rt; sink.write(LETTERS), Err(Failed), "no room");
    assert_eq!(rt; sink.write(b""), Ok(0), "nothing needs no room");
    assert_eq!(rt; sink.bytes(), b"ab".as_slice());
    Ok(())
}

#[test]
fn a_reader_of_std_is_a_source(rt: HostRuntime) -> Result<(), Fail> {
    let alloc = rt.alloc();
    for (fails, most, want) in [
        (0, 7, Want::Whole),
        (0, 6, Want::TooLong),
        // A source that asked again would be read to its end.
        (1, 7, Want::Fault),
        (3, 7, Want::Fault),
        // In place of the end.
        (5, 7, Want::Fault),
    ] {
        let mut source = StdSource::new(TwoByTwo {
            left: LETTERS,
            calls: 0,
            fails,
        });
        check_read(&rt, alloc, &mut source, most, want, LETTERS)?;
    }
    check_read(
        &rt,
        alloc,
        &mut StdSource::new(LETTERS),
        7,
        Want::Whole,
        LETTERS,
    )
}

#[test]
fn a_call_after_a_fault_of_std_goes_on(rt: HostRuntime) -> Result<(), Fail> {
    let mut buf = [0; 3];
    let mut source = StdSource::new(TwoByTwo {
        left: LETTERS,
        calls: 0,
        fails: 2,
    });
    assert_eq!(rt; source.read(&mut buf), Ok(2));
    assert_eq!(rt; source.read(&mut buf), Err(Failed));
    assert_eq!(rt; buf, [b'a', b'b', 0], "the buffer is as it was");
    assert_eq!(rt; source.read(&mut buf), Ok(2));
    assert_eq!(rt; buf, [b'c', b'd', 0]);

    let mut sink = StdSink::new(Counter {
        room: 2,
        full: Full::Error,
    });
    assert_eq!(rt; sink.write(LETTERS), Ok(2));
    assert_eq!(rt; sink.write(LETTERS), Err(Failed));
    assert_eq!(rt; sink.write(LETTERS), Ok(3));
    Ok(())
}

#[test]
fn a_writer_of_std_is_a_sink(rt: HostRuntime) -> Result<(), Fail> {
    for (room, full, want) in [
        (7, Full::Error, Ok(())),
        // A sink that asked again would write all.
        (6, Full::Error, Err(Failed)),
        (6, Full::Nothing, Err(Failed)),
        (0, Full::Error, Err(Failed)),
    ] {
        let mut sink = StdSink::new(Counter { room, full });
        assert_eq!(rt; write_all(&mut sink, LETTERS), want);
    }
    let mut nothing = StdSink::new(Counter {
        room: 0,
        full: Full::Nothing,
    });
    assert_eq!(rt; nothing.write(b""), Ok(0), "nothing was there to take");

    let mut bytes = Vec::new(rt.alloc());
    write_all(&mut StdSink::new(&mut bytes), LETTERS)?;
    assert_eq!(rt; bytes.as_slice(), LETTERS);
    Ok(())
}

fn crosses_threads<T: Send + Sync + Drop>(_value: T) {}

#[test]
fn ends_in_memory_may_cross_threads(rt: HostRuntime) -> Result<(), Fail> {
    let alloc = rt.alloc();
    crosses_threads(MemSource::new(Vec::new(alloc), 1, Vec::new(alloc)));
    crosses_threads(MemSink::new(alloc, 1, 1, Vec::new(alloc))?);
    crosses_threads(Input::TooLong);
    crosses_threads(ReadFail::Fault);
    crosses_threads(Failed);
    Ok(())
}

fn texts(alloc: Global, words: &[&str]) -> Result<Vec<String>, AllocError> {
    let mut texts = Vec::new(alloc);
    for word in words {
        texts.push(String::from_str(alloc, word)?)?;
    }
    Ok(texts)
}

#[test]
fn the_words_of_a_command_line_stand_behind_its_name(rt: HostRuntime) -> Result<(), Fail> {
    let alloc = rt.alloc();
    let args = texts(alloc, &["program", "first", "second"])?;
    let words = words_behind_name(alloc, args.into_iter())?;
    assert!(rt; words == texts(alloc, &["first", "second"])?);
    let nothing = words_behind_name(alloc, texts(alloc, &[])?.into_iter())?;
    assert!(rt; nothing.is_empty());
    Ok(())
}
