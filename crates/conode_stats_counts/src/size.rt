//! The bits that a frame takes on the bus.

ghost use Rattle.std.specs.Prelude.{◌≡◌, ◌+◌, ◌*◌, ◌<◌, ◌≤◌, ℕ, List, ◌++◌, length};
ghost use Rattle.conode_record.specs.Grammar.{IsIdentifier};
ghost use Rattle.conode_stats_counts.specs.Bits.{
  base_head,
  extended_head,
  data_bits,
};
ghost use Rattle.conode_stats_counts.specs.Sizes.{size_as, size_of};
ghost use Rattle.conode_stats_counts.specs.Wires.{IsAfter};

use crate::wire::{Wire, base_start, extended_start};
use conode_record::{Content, Identifier};

/// The bits of a frame on the bus, with the intermission after it (ISO 11898-1). Both numbers are 0
/// if they are unknown.
#[derive(Clone, Copy)]
pub struct Size {
    /// The bits as sent, with the stuff bits.
    pub bits: u32,
    /// The most bits that a frame of its length can take.
    pub most: u32,
}

/// The bits after the CRC: delimiters, acknowledge, end of frame and intermission.
const TAIL_BITS: u32 = 13;

// the size of a frame of which all bits before its CRC are sent, `sent` with its CRC. A bit after
// the CRC, other than its last one, makes whole bytes and no stuff bit.
#[inline(always)]
fn size_after(wire: Wire, sent: u32) -> Size
    requires sent { (15 ≤ sent) × (sent ≤ 200) }
    requires run { wire.run < 8 }
    requires few { wire.stuffed ≤ 800 }
    ensures { (bits : List ℕ) → IsAfter wire bits → length bits + 15 ≡ sent
        → result ≡ size_as sent bits }
{
    let crc = wire.crc as u64;
    let end = wire.with_number(16, 2 * crc + (1 - crc % 2));
    Size {
        bits: sent + end.stuffed + TAIL_BITS,
        most: sent + (sent - 1) / 4 + TAIL_BITS,
    }
}

// the size of a frame with an identifier of 11 bits; a remote frame has no data
fn base_size(id: u16, remote: u64, code: u64, bytes: &[u8]) -> Size
    requires few { length bytes.now ≤ 8 }
    requires id { id < 2048 }
    requires remote { remote ≤ 1 }
    requires code { code < 256 }
    ensures { result ≡ size_as (34 + 8 * length bytes.now)
        (base_head id remote code ++ data_bits bytes.now) }
{
    let head = 128 * id as u64 + 64 * remote + code;
    let start = base_start((head / 0x1_0000) as u8);
    let wire = start.with_number(16, head).with_bytes(bytes);
    size_after(wire, 34 + 8 * bytes.len() as u32)
}

// the size of a frame with an identifier of 29 bits
fn extended_size(id: u32, remote: u64, code: u64, bytes: &[u8]) -> Size
    requires few { length bytes.now ≤ 8 }
    requires id { id < 0x20000000 }
    requires remote { remote ≤ 1 }
    requires code { code < 256 }
    ensures { result ≡ size_as (54 + 8 * length bytes.now)
        (extended_head id remote code ++ data_bits bytes.now) }
{
    let upper = (id / 0x4_0000) as u64;
    let lower = (id % 0x4_0000) as u64;
    let head = 0x800_0000 * upper + 0x600_0000 + 128 * lower + 64 * remote + code;
    let start = extended_start((head / 0x1_0000_0000) as u8);
    let wire = start.with_number(32, head).with_bytes(bytes);
    size_after(wire, 54 + 8 * bytes.len() as u32)
}

impl Size {
    /// The size of a frame with this identifier and content. It is unknown for a CAN FD frame,
    /// which has two bit rates, and for an error frame.
    #[tactic(auto, using(crate::proofs::Sent::nothing_after), unfolding(crate::specs::Sizes::size_of))]
    pub fn of(id: Identifier, content: &Content<'_>) -> Size
        requires { IsIdentifier id }
        ensures { result ≡ size_of id content.now }
    {
        match (id, content) {
            (Identifier::Base(id), Content::Data(data)) => {
                let bytes = data.to_list();
                base_size(id, 0, bytes.len() as u64, bytes.as_slice())
            }
            (Identifier::Base(id), Content::Remote(count)) => {
                base_size(id, 1, *count as u64, &[])
            }
            (Identifier::Extended(id), Content::Data(data)) => {
                let bytes = data.to_list();
                extended_size(id, 0, bytes.len() as u64, bytes.as_slice())
            }
            (Identifier::Extended(id), Content::Remote(count)) => {
                extended_size(id, 1, *count as u64, &[])
            }
            _ => Size { bits: 0, most: 0 },
        }
    }
}
