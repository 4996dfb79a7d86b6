//! The segments and sub-blocks that bytes are sent in.

ghost use Rattle.std.specs.Prelude.{◌≡◌, ◌+◌, ◌*◌, ◌^◌, ◌<◌, ◌≤◌, ◌++◌, length};
ghost use Rattle.arrayvec.specs.ArrayVec.{array_vec_len};
ghost use Rattle.co_frame.specs.SegmentSizes.{segments_per_sub_block, bytes_per_segment};
ghost use Rattle.co_frame.specs.Outboxes.{HasRoomFor};
ghost use Rattle.co_sdo_segments.specs.Sent.{
  part_after,
  is_last_after,
  segment_count,
  unused_after,
  block_segment,
  sub_block_length,
  sub_block_frames,
};

use arrayvec::ArrayVec;
use co_frame::{BYTES_PER_SEGMENT, BlockSegment, Outbox};

/// The data of an expedited transfer: at most four bytes.
pub fn expedited_data(bytes: &[u8]) -> ArrayVec<u8, 4>
    requires { length bytes.now ≤ 4 }
    ensures { result.items ≡ bytes.now }
{
    let mut data = ArrayVec::new();
    match data.try_extend_from_slice(bytes) {
        Ok(()) => {}
        Err(_) => unreachable!(),
    }
    data
}

/// The data of a segment: at most seven bytes.
pub fn segment_data(part: &[u8]) -> ArrayVec<u8, 7>
    requires { length part.now ≤ bytes_per_segment }
    ensures { result.items ≡ part.now }
{
    let mut data = ArrayVec::new();
    match data.try_extend_from_slice(part) {
        Ok(()) => {}
        Err(_) => unreachable!(),
    }
    data
}

/// The data of the segment after the first `count`: seven bytes, fewer at the end.
pub fn part_after(bytes: &[u8], count: usize) -> &[u8]
    requires { bytes_per_segment * count ≤ length bytes.now }
    ensures part { result.now ≡ part_after count bytes.now }
    ensures few { length result.now ≤ bytes_per_segment }
{
    let rest = &bytes[BYTES_PER_SEGMENT * count..];
    &rest[..rest.len().min(BYTES_PER_SEGMENT)]
}

/// Whether no bytes remain after the segment that follows the first `count`.
pub fn is_last_after(bytes: &[u8], count: usize) -> bool
    requires { bytes_per_segment * count ≤ length bytes.now }
    ensures { result ≡ is_last_after count bytes.now }
{
    bytes.len() <= BYTES_PER_SEGMENT * count + BYTES_PER_SEGMENT
}

/// How many segments a block transfer of these bytes has: one for each seven bytes or fewer, at
/// least one.
pub fn segment_count(bytes: &[u8]) -> usize
    requires { length bytes.now < 2 ^ 40 }
    ensures count { result ≡ segment_count bytes.now }
    ensures bytes { length bytes.now ≤ bytes_per_segment * result }
    ensures segments { bytes_per_segment * result ≤ length bytes.now + bytes_per_segment }
    ensures some { 1 ≤ result }
{
    ((bytes.len() + 6) / BYTES_PER_SEGMENT).max(1)
}

/// How many bytes of the last segment of a block transfer contain no data (n of its end).
pub fn unused_after(bytes: &[u8]) -> u8
    requires { length bytes.now < 2 ^ 40 }
    ensures unused { result ≡ unused_after bytes.now }
    ensures few { result ≤ bytes_per_segment }
{
    (BYTES_PER_SEGMENT * segment_count(bytes) - bytes.len()) as u8
}

/// Segment `number` of the sub-block that begins after the first `position` segments; zeros fill up
/// its seven bytes.
pub fn block_segment(bytes: &[u8], position: usize, number: u8) -> BlockSegment
    requires len { length bytes.now < 2 ^ 40 }
    requires first { 1 ≤ number }
    requires last { number ≤ segments_per_sub_block }
    requires start { bytes_per_segment * (position + number) ≤ length bytes.now + bytes_per_segment }
    ensures segment { result ≡ block_segment bytes.now position number }
    ensures number { result.sequence ≡ number }
{
    let count = position + number as usize;
    let part = part_after(bytes, count - 1);
    let mut cells = [0; 7];
    cells[..part.len()].copy_from_slice(part);
    BlockSegment {
        last: count == segment_count(bytes),
        sequence: number,
        bytes: cells,
    }
}

/// Sends the sub-block that begins after the first `position` segments, on an identifier. It has
/// `block_size` segments, or as many as are left; returns their number (CiA 301, 7.2.4.3.10 and
/// 7.2.4.3.14).
pub fn send_sub_block(
    id: u16,
    bytes: &[u8],
    position: usize,
    block_size: u8,
    outbox: &mut Outbox,
) -> u8
    requires id { id < 2048 }
    requires room { HasRoomFor segments_per_sub_block outbox.old }
    requires len { length bytes.now < 2 ^ 40 }
    requires few { block_size ≤ segments_per_sub_block }
    requires position { position ≤ segment_count bytes.now }
    ensures few { array_vec_len outbox.new ≤ array_vec_len outbox.old + segments_per_sub_block }
    ensures frames { outbox.new.items ≡ outbox.old.items ++ sub_block_frames id bytes.now position
        block_size }
    ensures count { result ≡ sub_block_length bytes.now position block_size }
    ensures most { result ≤ segments_per_sub_block }
    ensures within { position + result ≤ segment_count bytes.now }
{
    let left = segment_count(bytes) - position;
    let number = (block_size as usize).min(left) as u8;
    for k in 0..number {
        outbox.push(block_segment(bytes, position, k + 1).write(id));
    }
    number
}
