//! Block transfers.

ghost use Rattle.std.specs.Prelude.{◌≡◌, ◌<◌, ◌≤◌, length};
ghost use Rattle.co_frame.specs.BlockSegments.{IsBlockSegment};
ghost use Rattle.conode_explain_transfers.specs.Transfers.{after};
ghost use Rattle.conode_explain_transfers.specs.BlockTurns.{
  is_block,
  block_download_initiated,
  block_upload_initiated,
  upload_started,
  segment_added,
  segment_ahead,
  segment_again,
  segment_first,
  block_segment,
  acknowledged,
  crc_in,
  block_ended,
  end_confirmed,
};

use crate::kinds::{Protocol, What};
use crate::stage::Stage;
use crate::transfer::Transfer;
use byteorder::{ByteOrder, LittleEndian};
use co_frame::{BYTES_PER_SEGMENT, BlockSegment, Frame};
use co_value::Key;

/// How many segments a sub-block has at most.
pub(crate) const MOST_SEGMENTS: u8 = 127;

/// The CRC of end SDO block download or upload: bytes 1 and 2.
pub(crate) fn crc_in(frame: &Frame) -> u16
    ensures { result ≡ crc_in frame.now.bytes }
{
    let bytes = frame.bytes();
    if bytes.len() == 8 {
        LittleEndian::read_u16(&bytes[1..])
    } else {
        0
    }
}

impl Transfer {
    /// Whether it is in blocks.
    pub(crate) fn is_block(&self) -> bool
        ensures { result ≡ is_block self.now.protocol }
    {
        match self.protocol {
            Protocol::Block => true,
            _ => false,
        }
    }

    /// The response to initiate SDO block download, scs = 5, ss = 0.
    pub(crate) fn answer_block_download(&mut self, key: Key, block_size: u8, crc: bool) -> What
        ensures transfer { self.new ≡ after self.old (block_download_initiated self.old key block_size crc) }
        ensures what { result ≡ (block_download_initiated self.old key block_size crc).what }
    {
        if !self.stage.is_initiated() {
            return self.unexpected();
        }
        if !self.has_key(key) {
            return What::Overtaken;
        }
        if !self.is_download() || !self.is_block() {
            return self.unexpected();
        }
        self.block_size = block_size;
        self.crc = self.crc && crc;
        self.stage = Stage::SubBlock { last: false };
        What::Part
    }

    /// The response to initiate SDO block upload, scs = 6, ss = 0.
    pub(crate) fn answer_block_upload(&mut self, key: Key, size: Option<u32>, crc: bool) -> What
        ensures transfer { self.new ≡ after self.old (block_upload_initiated self.old key size crc) }
        ensures what { result ≡ (block_upload_initiated self.old key size crc).what }
    {
        if !self.stage.is_initiated() {
            return self.unexpected();
        }
        if !self.has_key(key) {
            return What::Overtaken;
        }
        if self.is_download() || !self.is_block() {
            return self.unexpected();
        }
        self.size = size;
        self.crc = self.crc && crc;
        self.stage = Stage::BlockInitiated;
        What::Part
    }

    /// Initiate SDO block upload, ccs = 5, cs = 3.
    pub(crate) fn start_upload(&mut self) -> What
        ensures transfer { self.new ≡ after self.old (upload_started self.old) }
        ensures what { result ≡ (upload_started self.old).what }
    {
        match self.stage {
            Stage::BlockInitiated => {
                self.stage = Stage::SubBlock { last: false };
                What::Part
            }
            _ => self.unexpected(),
        }
    }

    // The next segment of a sub-block, in sequence.
    fn add_segment(&mut self, segment: &BlockSegment) -> What
        requires room { length self.old.pending.items ≤ 889 }
        requires segment { IsBlockSegment segment.now }
        ensures transfer { self.new ≡ after self.old (segment_added self.old segment.now) }
        ensures what { result ≡ (segment_added self.old segment.now).what }
    {
        self.pending.try_extend_from_slice(&segment.bytes).unwrap();
        self.next_number = segment.sequence + 1;
        self.stage = Stage::SubBlock { last: segment.last };
        What::Segment {
            number: segment.sequence,
        }
    }

    // A segment of a sub-block after one that is missing.
    fn segment_ahead(&mut self, segment: &BlockSegment) -> What
        requires { IsBlockSegment segment.now }
        ensures transfer { self.new ≡ after self.old (segment_ahead self.old segment.now) }
        ensures what { result ≡ (segment_ahead self.old segment.now).what }
    {
        let number = segment.sequence;
        let awaited = self.next_number;
        self.next_number = number + 1;
        if number == awaited {
            What::Segment { number }
        } else {
            What::OutOfSequence { number, awaited }
        }
    }

    // A segment that came before, or is of another sub-block.
    fn segment_again(&mut self, segment: &BlockSegment) -> What
        ensures transfer { self.new ≡ after self.old (segment_again self.old segment.now) }
        ensures what { result ≡ (segment_again self.old segment.now).what }
    {
        self.irregular = true;
        What::OutOfSequence {
            number: segment.sequence,
            awaited: self.next_number,
        }
    }

    // The first segment of a download, of which the answer to initiate is missing in the recording.
    fn segment_first(&mut self, segment: &BlockSegment) -> What
        requires { IsBlockSegment segment.now }
        ensures transfer { self.new ≡ after self.old (segment_first self.old segment.now) }
        ensures what { result ≡ (segment_first self.old segment.now).what }
    {
        self.irregular = true;
        self.block_size = MOST_SEGMENTS;
        self.pending.clear();
        self.pending.try_extend_from_slice(&segment.bytes).unwrap();
        self.next_number = segment.sequence + 1;
        self.stage = Stage::SubBlock { last: segment.last };
        What::Segment {
            number: segment.sequence,
        }
    }

    /// Download SDO block segment and upload SDO block segment.
    pub(crate) fn take_block_segment(&mut self, segment: &BlockSegment) -> What
        requires { IsBlockSegment segment.now }
        ensures transfer { self.new ≡ after self.old (block_segment self.old segment.now) }
        ensures what { result ≡ (block_segment self.old segment.now).what }
    {
        match self.stage {
            Stage::SubBlock { last: false } => {
                if segment.sequence < self.next_number {
                    self.segment_again(segment)
                } else if segment.sequence == self.awaited_number() {
                    self.add_segment(segment)
                } else {
                    self.segment_ahead(segment)
                }
            }
            Stage::Initiated if self.is_download() && self.is_block() => {
                self.segment_first(segment)
            }
            _ => self.unexpected(),
        }
    }

    /// The acknowledge of a sub-block, ccs = 5, cs = 2, and scs = 5, ss = 2. `by_receiver`: it is
    /// from the end that receives the data.
    pub(crate) fn acknowledge(&mut self, by_receiver: bool, sequence: u8, block_size: u8) -> What
        ensures transfer { self.new ≡ after self.old (acknowledged by_receiver self.old sequence block_size) }
        ensures what { result ≡ (acknowledged by_receiver self.old sequence block_size).what }
    {
        if !by_receiver {
            return self.unexpected();
        }
        let Stage::SubBlock { last } = self.stage else {
            return self.unexpected();
        };
        let awaited = self.awaited_number();
        if sequence < awaited {
            if last && sequence + 1 == awaited {
                self.stage = Stage::AllAcknowledged;
                return What::Part;
            }
        } else {
            self.irregular = true;
        }
        self.take_pending(BYTES_PER_SEGMENT * usize::from(sequence));
        self.block_size = block_size;
        self.next_number = 1;
        self.stage = Stage::SubBlock { last: false };
        What::Part
    }

    /// End SDO block download, ccs = 6, cs = 1, and end SDO block upload, scs = 6, ss = 1.
    /// `by_sender`: it is from the end that sends the data.
    pub(crate) fn end_block(&mut self, by_sender: bool, unused: u8, crc: u16) -> What
        ensures transfer { self.new ≡ after self.old (block_ended by_sender self.old unused crc) }
        ensures what { result ≡ (block_ended by_sender self.old unused crc).what }
    {
        if !by_sender {
            return self.unexpected();
        }
        match self.stage {
            Stage::AllAcknowledged => {
                let count = self.pending.len().saturating_sub(usize::from(unused));
                self.take_pending(count);
                self.stage = Stage::BlockEnded { crc };
                What::Part
            }
            _ => self.unexpected(),
        }
    }

    /// The confirmation of the end, ccs = 5, cs = 1, and scs = 5, ss = 1. `by_receiver`: it is from
    /// the end that receives the data.
    pub(crate) fn confirm_end(&mut self, by_receiver: bool) -> What
        ensures transfer { self.new ≡ after self.old (end_confirmed by_receiver self.old) }
        ensures what { result ≡ (end_confirmed by_receiver self.old).what }
    {
        if !by_receiver || !self.is_block() {
            return self.unexpected();
        }
        match self.stage {
            Stage::BlockEnded { crc } => {
                self.stage = Stage::Confirmed {
                    crc: if self.crc { Some(crc) } else { None },
                };
            }
            Stage::Initiated => return self.unexpected(),
            _ => {
                self.irregular = true;
                self.stage = Stage::Confirmed { crc: None };
            }
        }
        What::Part
    }
}
