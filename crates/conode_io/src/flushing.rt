//! Flushing what was written.
//!
//! The field of `Flushed` is private to this module, and only `flush` makes one: who holds one has
//! flushed a writer.

ghost use Rattle.std.specs.Prelude.{◌≡◌, IfErr};
ghost use Rattle.std.specs.Io.KnownBytes.{Keeps};

use crate::fault::CmdFault;
use std::io::Write;

/// Evidence that a writer was flushed without a failure.
#[derive(Clone, Copy)]
pub struct Flushed {
    succeeded: (),
}

/// Flushes a writer. `Write` if that fails.
pub fn flush<W: Write>(writer: &mut W) -> Result<Flushed, CmdFault>
    ensures text { Keeps (W.contents writer.old) (W.contents writer.new) }
    ensures err { IfErr result (λ fault. fault ≡ CmdFault.Write) }
{
    match writer.flush() {
        Ok(()) => Ok(Flushed { succeeded: () }),
        Err(_) => Err(CmdFault::Write),
    }
}
