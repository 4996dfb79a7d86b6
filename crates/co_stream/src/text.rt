//! A whole text.

ghost use Rattle.std.specs.Prelude.{◌≡◌, take, true, OnOk, IfErr, IfSome};
ghost use Rattle.std.specs.Io.KnownBytes.{Consumes};
ghost use Rattle.co_stream.specs.Texts.{BeginsWith};

use crate::ask::ask;
use crate::asks::Asks;
use crate::fault::StreamFault;
use std::io::Read;

/// One byte more than the largest data sheet, so that a larger one is recognized.
const GREATEST_SIZE: usize = 1_048_577;

// reads a text, and counts the read calls
fn read_counted<R: Read>(
    reader: &mut R,
    text: &mut Vec<u8>,
    asks: &mut Asks,
) -> Result<(), StreamFault>
    ensures text { OnOk result (IfSome (R.remaining reader.old)
        (λ bytes. text.new.items ≡ take 1048577 bytes)) }
    ensures rest { OnOk result
        (Consumes (R.remaining reader.old) (R.remaining reader.new) text.new.items) }
    ensures front { IfSome (R.remaining reader.old) (λ bytes. BeginsWith bytes text.new.items) }
    ensures failed { IfErr result (λ fault. fault ≡ StreamFault.Read → asks.new.failed ≡ true) }
    ensures never_ends { IfErr result (λ fault. fault ≡ StreamFault.NeverEnds →
        asks.new.left ≡ 0) }
{
    text.clear();
    let mut piece = [0; 512];
    while text.len() < GREATEST_SIZE {
        let room = (GREATEST_SIZE - text.len()).min(512);
        let count = ask(reader, &mut piece[..room], asks)?;
        if count == 0 {
            return Ok(());
        }
        if text.extend_from_slice(&piece[..count]).is_err() {
            return Err(StreamFault::Memory);
        }
    }
    Ok(())
}

/// Reads a text: all bytes that the reader gives, or the first 1,048,577 where there are more. At
/// most 512 are asked for at once, and a read that a signal interrupted is tried again. The vector
/// is emptied first. `Read`: the reader failed. `NeverEnds`: 16,777,216 read calls gave neither its
/// end nor enough bytes. `Memory`: out of memory. After a fault the vector contains the reader's
/// first bytes.
pub fn read_text<R: Read>(reader: &mut R, text: &mut Vec<u8>) -> Result<(), StreamFault>
    ensures text { OnOk result (IfSome (R.remaining reader.old)
        (λ bytes. text.new.items ≡ take 1048577 bytes)) }
    ensures rest { OnOk result
        (Consumes (R.remaining reader.old) (R.remaining reader.new) text.new.items) }
    ensures front { IfSome (R.remaining reader.old) (λ bytes. BeginsWith bytes text.new.items) }
{
    let mut asks = Asks::new();
    read_counted(reader, text, &mut asks)
}
