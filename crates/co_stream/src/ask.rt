//! Asks a reader until it gives something.

ghost use Rattle.std.specs.Prelude.{◌≡◌, ◌<◌, ◌≤◌, length, IfOk, IfErr, OnOk, true, false};
ghost use Rattle.std.specs.Io.KnownBytes.{ReadConsumes};

use crate::asks::Asks;
use crate::fault::AskFault;
use std::io::Read;

/// Asks a reader for as many bytes as there is room for, until it gives some, comes to its end
/// (0 bytes) or fails. A read that a signal interrupted is tried again; each try counts.
pub(crate) fn ask<R: Read>(
    reader: &mut R,
    room: &mut [u8],
    asks: &mut Asks,
) -> Result<usize, AskFault>
    ensures bound { IfOk result (λ count. count ≤ length room.new) }
    ensures length { length room.new ≡ length room.old }
    ensures bytes { ReadConsumes (R.remaining reader.old) (R.remaining reader.new) result room.new }
    ensures asked { asks.new.left ≤ asks.old.left }
    ensures counted { OnOk result (asks.new.left < asks.old.left) }
    ensures works { OnOk result (asks.new.failed ≡ false) }
    ensures failed { IfErr result (λ fault. fault ≡ AskFault.Read → asks.new.failed ≡ true) }
    ensures never_ends { IfErr result (λ fault. fault ≡ AskFault.NeverEnds → asks.new.left ≡ 0) }
    ensures again { asks.old.failed ≡ true →
        (reader.new ≡ reader.old) × (asks.new.failed ≡ true) }
{
    // its invariant goes by the label
    'asked: loop {
        if let Some(count) = asks.read(reader, room)? {
            return Ok(count);
        }
    }
}
