ghost use Rattle.std.specs.Prelude.{◌≡◌, ◌≢◌, ◌≤◌, IsErrOf};
ghost use Rattle.tri_io.specs.Faults.{Rose};
ghost use Rattle.tri_io.specs.Transfers.{ReadsAll};

use crate::{Failed, Source};
use std::alloc::{AllocError, Global};
use thiserror::Error;

// How many bytes one read asks for.
const PIECE: usize = 4096;

/// What a source had up to its end.
#[derive(Debug, Drop)]
pub enum Input {
    /// All of its bytes.
    Whole(Vec<u8>),

    /// More bytes than are allowed.
    TooLong,
}

/// Why a source wasn't read to its end.
#[derive(Debug, Drop, Error)]
pub enum ReadFail {
    /// A read failed.
    #[error("a read failed")]
    Fault,

    /// There was no memory for the bytes.
    #[error("out of memory")]
    Memory(AllocError),
}

/// Reads a source to its end, or until it has given one byte more than `most`.
///
/// After the end no further read is made. What was read is gone from the source in every case.
pub fn read_all<S: Source>(alloc: Global, source: &mut S, most: usize) -> Result<Input, ReadFail>
    requires { most ≤ 1_048_576 }
    ensures bytes { ReadsAll most (S.left source.old) (S.left source.new) result }
    ensures never_falls { S.faults source.old ≤ S.faults source.new }
    ensures cause { IsErrOf result ReadFail.Fault →
        Rose (S.faults source.old) (S.faults source.new) }
    ensures answered { S.faults source.new ≢ S.faults source.old → IsErrOf result ReadFail.Fault }
{
    let mut bytes = Vec::new(alloc);
    let mut buf = [0; PIECE];
    loop {
        let wanted = (most + 1 - bytes.len()).min(PIECE);
        let piece = &mut buf[..wanted];
        let count = match source.read(piece) {
            Ok(0) => return Ok(Input::Whole(bytes)),
            Ok(count) => count,
            Err(Failed) => return Err(ReadFail::Fault),
        };
        if bytes.len() + count > most {
            return Ok(Input::TooLong);
        }
        bytes
            .extend_from_slice(&buf[..count])
            .map_err(ReadFail::Memory)?;
    }
}
