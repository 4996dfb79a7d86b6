//! The CRC of a block transfer's data.

ghost use Rattle.std.specs.Prelude.{◌≡◌};
ghost use Rattle.conode_explain_transfers.specs.Crc.{shifted, crc_with, crc_from};

// The CRC after one more bit.
#[tactic(auto, unfolding(crate::specs::Crc::shifted))]
fn shifted(crc: u16) -> u16
    ensures { result ≡ shifted crc }
{
    if crc < 0x8000 {
        2 * crc
    } else {
        2 * (crc - 0x8000) ^ 0x1021
    }
}

// The CRC after one more byte.
#[tactic(auto, unfolding(crate::specs::Crc::crc_with))]
fn crc_with(crc: u16, byte: u8) -> u16
    ensures { result ≡ crc_with crc byte }
{
    let four = shifted(shifted(shifted(shifted(crc ^ 256 * u16::from(byte)))));
    shifted(shifted(shifted(shifted(four))))
}

/// The CRC of data with this CRC so far, and these bytes after it (CiA 301, 7.2.4.3.16).
pub(crate) fn crc_from(crc: u16, bytes: &[u8]) -> u16
    ensures { result ≡ crc_from crc bytes.now }
{
    let mut so_far = crc;
    for byte in bytes {
        so_far = crc_with(so_far, *byte);
    }
    so_far
}
