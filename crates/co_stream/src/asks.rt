//! The read calls of a reader, counted.
//!
//! The fields are private to this module, and only `read` changes them: a count of 0 means that the
//! reader was asked that often, and `failed` that it failed.

ghost use Rattle.std.specs.Prelude.{
  ◌≡◌,
  ◌+◌,
  ◌<◌,
  ◌≤◌,
  length,
  take,
  IfOk,
  IfErr,
  IfSome,
  OnOk,
  OnErr,
  MatchOption,
  true,
  false,
};
ghost use Rattle.std.specs.Io.KnownBytes.{Consumes, IsAtEnd, Keeps};

use crate::fault::AskFault;
use std::io;
use std::io::Read;
use std::marker::Model;

/// Remaining read calls, and whether one failed.
#[derive(Drop)]
pub(crate) struct Asks {
    left: u32,
    failed: bool,
}

impl Model for Asks {
    ghost use Rattle.co_stream.specs.Asked.{Asked};

    ghost Value = { Asked };

    ghost view = { λ asks. record { left = asks.left; failed = asks.failed } };
}

impl Asks {
    /// 16,777,216 read calls.
    pub(crate) fn new() -> Self
        ensures { result ≡ record { left = 16777216; failed = false } }
    {
        Asks {
            left: 16_777_216,
            failed: false,
        }
    }

    /// Asks a reader once, and counts it: how many bytes it gave, 0 at its end; `None` where a
    /// signal interrupted it. A reader that failed isn't asked again (`Read`), nor one that was
    /// asked as often as allowed (`NeverEnds`).
    pub(crate) fn read<R: Read>(
        &mut self,
        reader: &mut R,
        room: &mut [u8],
    ) -> Result<Option<usize>, AskFault>
        ensures bound { IfOk result (λ given. IfSome given (λ count. count ≤ length room.new)) }
        ensures length { length room.new ≡ length room.old }
        ensures bytes { IfOk result (λ given.
            MatchOption given (Keeps (R.remaining reader.old) (R.remaining reader.new))
            (λ count. Consumes (R.remaining reader.old) (R.remaining reader.new)
            (take count room.new)
            × (count ≡ 0 → 0 < length room.new → IsAtEnd (R.remaining reader.new)))) }
        ensures kept { OnErr result (Keeps (R.remaining reader.old) (R.remaining reader.new)) }
        ensures counted { OnOk result (self.new.left + 1 ≡ self.old.left) }
        ensures once { (self.new.left ≤ self.old.left) × (self.old.left ≤ self.new.left + 1) }
        ensures works { OnOk result (self.new.failed ≡ false) }
        ensures failed { IfErr result (λ fault. fault ≡ AskFault.Read → self.new.failed ≡ true) }
        ensures never_ends { IfErr result (λ fault. fault ≡ AskFault.NeverEnds →
            (self.new.left ≡ 0) × (self.new.failed ≡ false)) }
        ensures again { self.old.failed ≡ true →
            (reader.new ≡ reader.old) × (self.new.failed ≡ true) }
    {
        if self.failed {
            return Err(AskFault::Read);
        }
        if self.left == 0 {
            return Err(AskFault::NeverEnds);
        }
        self.left -= 1;
        match reader.read(room) {
            Ok(count) => Ok(Some(count)),
            Err(error) if error.kind() == io::ErrorKind::Interrupted => Ok(None),
            Err(_) => {
                self.failed = true;
                Err(AskFault::Read)
            }
        }
    }
}
