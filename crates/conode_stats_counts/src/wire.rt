//! The CRC and the stuff bits of a frame, counted as its bits are sent: eight at once, by tables,
//! since a test of each bit can't be predicted.

ghost use Rattle.std.specs.Prelude.{◌≡◌, ◌+◌, ◌*◌, ◌/◌, ◌%◌, ◌<◌, ◌≤◌, length, fold};
ghost use Rattle.conode_stats_counts.specs.Bits.{bits_of, crc_with, data_bits};
ghost use Rattle.conode_stats_counts.specs.Wires.{IsAfter, Sends};

use crate::steps::{CRC_STEPS, STUFF_STEPS};

/// A bus after some bits of a frame: the CRC, the run of equal bits at the end, and how many stuff
/// bits were sent.
#[derive(Clone, Copy)]
pub(crate) struct Wire {
    pub(crate) crc: u16,
    /// 4 * the last bit + how many bits like it came in a row, 0 for one to 3 for four.
    pub(crate) run: u8,
    pub(crate) stuffed: u32,
}

// the CRC after eight more bits
#[inline(always)]
fn crc_with_byte(crc: u16, byte: u8) -> u16
    ensures { result ≡ fold crc_with crc (bits_of 8 byte) }
{
    let more = byte as u16;
    let place = ((crc / 0x80 ^ more) % 256) as usize;
    256 * (crc % 0x80) ^ CRC_STEPS[place]
}

/// The bus after the start of a frame with an identifier of 11 bits: the upper three bits of its
/// head. Five bits before them make a byte; they alternate, the last one differs from the first bit
/// of the head, and the CRC before them is the one that becomes 0.
#[inline(always)]
pub(crate) fn base_start(upper: u8) -> Wire
    requires { upper < 8 }
    ensures after { IsAfter result (bits_of 3 upper) }
    ensures run { result.run < 8 }
    ensures few { result.stuffed ≤ 31 }
{
    if upper < 4 {
        Wire::before(0x5400).with_byte(0xA8 + upper)
    } else {
        Wire::before(0x2800).with_byte(0x50 + upper)
    }
}

/// The same with an identifier of 29 bits: the upper seven bits of its head, and one before them.
#[inline(always)]
pub(crate) fn extended_start(upper: u8) -> Wire
    requires { upper < 128 }
    ensures after { IsAfter result (bits_of 7 upper) }
    ensures run { result.run < 8 }
    ensures few { result.stuffed ≤ 31 }
{
    if upper < 64 {
        Wire::before(0x4000).with_byte(0x80 + upper)
    } else {
        Wire::before(0).with_byte(upper)
    }
}

impl Wire {
    // before the bits that make a byte of the start of a head
    #[inline(always)]
    fn before(crc: u16) -> Wire
        ensures { result ≡ record { crc = crc; run = 4; stuffed = 0 } }
    {
        Wire {
            crc,
            run: 4,
            stuffed: 0,
        }
    }

    // the bus after eight more bits
    #[inline(always)]
    fn with_byte(self, byte: u8) -> Wire
        requires run { self.run < 8 }
        requires room { self.stuffed < 1000 }
        ensures sends { Sends self (bits_of 8 byte) result }
        ensures run { result.run < 8 }
        ensures few { result.stuffed ≤ self.stuffed + 31 }
    {
        let crc = crc_with_byte(self.crc, byte);
        let run = self.run as usize;
        let place = byte as usize;
        let step = STUFF_STEPS[256 * run + place];
        let stuffed = (step / 8) as u32;
        Wire {
            crc,
            run: step % 8,
            stuffed: self.stuffed + stuffed,
        }
    }

    /// The bus after a number in `count` more bits, the highest first, in whole bytes.
    #[inline(always)]
    pub(crate) fn with_number(self, count: u32, number: u64) -> Wire
        requires count { count ≤ 32 }
        requires whole { count % 8 ≡ 0 }
        requires run { self.run < 8 }
        requires room { self.stuffed ≤ 800 }
        ensures sends { Sends self (bits_of count number) result }
        ensures run { result.run < 8 }
        ensures few { result.stuffed ≤ self.stuffed + 4 * count }
    {
        let mut wire = self;
        let mut low = count;
        while low >= 8 {
            low -= 8;
            wire = wire.with_byte(((number >> low) % 256) as u8);
        }
        wire
    }

    /// The bus after these bytes too.
    #[inline(always)]
    pub(crate) fn with_bytes(self, bytes: &[u8]) -> Wire
        requires few { length bytes.now ≤ 8 }
        requires run { self.run < 8 }
        requires room { self.stuffed ≤ 500 }
        ensures sends { Sends self (data_bits bytes.now) result }
        ensures run { result.run < 8 }
        ensures few { result.stuffed ≤ self.stuffed + 31 * length bytes.now }
    {
        let mut crc = self.crc;
        let mut run = self.run;
        let mut stuffed = self.stuffed;
        for byte in bytes {
            let wire = Wire { crc, run, stuffed }.with_byte(*byte);
            crc = wire.crc;
            run = wire.run;
            stuffed = wire.stuffed;
        }
        Wire { crc, run, stuffed }
    }
}
