//! The sizes of segments and sub-blocks.

ghost use Rattle.std.specs.Prelude.{◌≡◌};
ghost use Rattle.co_frame.specs.SegmentSizes as sizes;

/// The data bytes of a segment, at most (CiA 301, 7.2.4.3.4 and 7.2.4.3.10).
pub const BYTES_PER_SEGMENT: usize = 7;

/// The segments of a sub-block, at most: the largest block size and sequence number
/// (CiA 301, 7.2.4.3.9 and 7.2.4.3.10).
pub const SEGMENTS_PER_SUB_BLOCK: u8 = 127;

/// The data bytes of a sub-block, at most.
pub const BYTES_PER_SUB_BLOCK: usize = 889;

/// Each constant is the number of the definitions. This is a law: a call of it changes nothing.
pub fn segment_numbers()
    ensures bytes_per_segment { BYTES_PER_SEGMENT ≡ sizes.bytes_per_segment }
    ensures segments_per_sub_block { SEGMENTS_PER_SUB_BLOCK ≡ sizes.segments_per_sub_block }
    ensures bytes_per_sub_block { BYTES_PER_SUB_BLOCK ≡ sizes.bytes_per_sub_block }
{}
