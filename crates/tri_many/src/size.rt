ghost use Rattle.std.specs.Prelude.{◌≡◌};

use tri_io::Command;
use work_pool::PoolSize;

// How many events may wait for the caller.
const ROOM: u32 = 64;

/// How many workers a command has.
pub fn size_for(command: &Command) -> PoolSize
    ensures workers { result.workers ≡ command.now.workers }
    ensures room { result.room ≡ 64 }
{
    PoolSize {
        workers: command.workers,
        room: ROOM,
    }
}
