//! A reader asked for bytes.

ghost use Rattle.std.specs.Prelude.{◌≡◌, ◌≤◌, length, IfOk};
ghost use Rattle.std.specs.Io.KnownBytes.{ReadConsumes};

use crate::read_fault::ReadFault;
use std::io;
use std::io::Read;

/// Asks a reader for as many bytes as there is room for, until it gives some, comes to its end
/// (0 bytes) or fails. A read that a signal interrupted is tried again, at most 2^64 - 1 times.
pub(crate) fn ask<R: Read>(reader: &mut R, room: &mut [u8]) -> Result<usize, ReadFault>
    ensures bound { IfOk result (λ count. count ≤ length room.new) }
    ensures length { length room.new ≡ length room.old }
    ensures bytes { ReadConsumes (R.remaining reader.old) (R.remaining reader.new) result room.new }
{
    let mut tries = u64::MAX;
    while tries > 0 {
        tries -= 1;
        match reader.read(room) {
            Ok(count) => return Ok(count),
            Err(error) => {
                if error.kind() != io::ErrorKind::Interrupted {
                    return Err(ReadFault::Read);
                }
            }
        }
    }
    Err(ReadFault::NeverEnds)
}
