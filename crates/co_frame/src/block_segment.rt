//! The segments of a block transfer.

ghost use Rattle.std.specs.Prelude.{◌≡◌, ◌↔◌, ◌<◌, Some, IsTrue, IfSome};
ghost use Rattle.co_frame.specs.BlockSegments.{
  IsBlockSegment,
  SpellsBlockSegment,
  block_segment_bytes,
  block_segment_in,
};

use crate::frame::Frame;

/// A segment of an SDO block transfer, in either direction (CiA 301, 7.2.4.3.10 and 7.2.4.3.14).
#[derive(Clone, Copy)]
pub struct BlockSegment {
    /// Whether it is the last segment of the transfer, c.
    pub last: bool,
    /// Its sequence number in its sub-block, 1 to 127.
    pub sequence: u8,
    /// Its seven bytes of data.
    pub bytes: [u8; 7],
}

impl BlockSegment {
    /// The segment that the frame's data spells. `None` unless there are eight bytes and the
    /// sequence number isn't 0. The identifier isn't looked at.
    pub fn read(frame: &Frame) -> Option<BlockSegment>
        ensures exact { result ≡ block_segment_in frame.now.bytes }
        ensures found { IfSome result (λ segment. SpellsBlockSegment segment frame.now.bytes) }
        ensures only { (segment : BlockSegment)
            → SpellsBlockSegment segment frame.now.bytes → result ≡ Some segment }
        ensures spellable { IfSome result IsBlockSegment }
    {
        let all = frame.bytes();
        if all.len() != 8 || all[0] & 0x7F == 0 {
            return None;
        }
        let mut bytes = [0; 7];
        bytes.copy_from_slice(&all[1..]);
        Some(BlockSegment {
            last: all[0] & 0x80 != 0,
            sequence: all[0] & 0x7F,
            bytes,
        })
    }

    /// The frame of the segment with this identifier, 0 to 7FFh.
    pub fn write(&self, id: u16) -> Frame
        requires id { id < 2048 }
        requires spellable { IsBlockSegment self.now }
        ensures frame { result ≡ record { id = id; bytes = block_segment_bytes self.now } }
        ensures spelled { SpellsBlockSegment self.now result.bytes }
    {
        let mut all = [0; 8];
        all[0] = if self.last {
            0x80 | self.sequence
        } else {
            self.sequence
        };
        all[1..].copy_from_slice(&self.bytes);
        Frame::of_eight(id, all)
    }

    /// Whether a frame can spell the segment: its sequence number is 1 to 127.
    pub fn is_spellable(&self) -> bool
        ensures { IsTrue result ↔ IsBlockSegment self.now }
    {
        1 <= self.sequence && self.sequence <= 127
    }

    /// Writing and then reading gives the same value. This is a law: a call of it changes nothing.
    pub fn round_trip(self)
        requires spellable { IsBlockSegment self }
        ensures { block_segment_in (block_segment_bytes self) ≡ Some self }
    {}
}
