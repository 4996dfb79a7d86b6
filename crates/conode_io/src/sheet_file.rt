//! The file of a data sheet.

ghost use Rattle.std.specs.Prelude.{◌≡◌, ◌⊎◌, IfErr};

use crate::fault::CmdFault;
use co_sheet::{StreamFault, read_text};
use std::fs;
use std::rt::Files;

/// The bytes of a file, at most one more than a data sheet may have: that byte shows that the file
/// is too large. `Read` if the file can't be opened or read; `Memory` and `NeverEnds` as for
/// `read_text`.
pub fn file_text<R: Files + AllocGlobal>(rt: &R, path: &str) -> Result<Vec<u8>, CmdFault>
    ensures { IfErr result (λ fault. (fault ≡ CmdFault.Read) ⊎ (fault ≡ CmdFault.Memory)
        ⊎ (fault ≡ CmdFault.NeverEnds)) }
{
    let Ok(mut file) = fs::open(rt, path) else {
        return Err(CmdFault::Read);
    };
    let mut text = Vec::new(rt.alloc());
    match read_text(&mut file, &mut text) {
        Ok(()) => Ok(text),
        Err(StreamFault::Read) => Err(CmdFault::Read),
        Err(StreamFault::NeverEnds) => Err(CmdFault::NeverEnds),
        Err(StreamFault::Memory) => Err(CmdFault::Memory),
    }
}
