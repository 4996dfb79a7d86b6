//! The bytes of a transfer: those received so far, or a copy of the value that a server sends.

ghost use Rattle.std.specs.Prelude.{◌≡◌, ◌+◌, ◌*◌, ◌<◌, ◌≤◌, ◌++◌, [], Some, length, take, IfOk};
ghost use Rattle.std.specs.Option.{option_map_or};
ghost use Rattle.co_frame.specs.SegmentSizes.{segments_per_sub_block, bytes_per_segment};
ghost use Rattle.co_sdo_segments.specs.Taken.{segment_taken, bytes_taken};

use co_frame::BlockSegment;
use std::alloc::{AllocError, Global};
use std::boxed::BoxedSlice;
use std::marker::Model;

/// Bytes in memory that is allocated once, when the buffer is made: it never grows. Contracts see
/// the bytes and its room in bytes, which no method changes.
#[derive(Drop)]
pub struct Buffer {
    // the first `len` cells are the bytes; there are as many cells as room, and none for a buffer
    // without room
    cells: Option<BoxedSlice<u8>>,
    len: usize,
}

impl Model for Buffer {
    ghost use Rattle.std.specs.Prelude.{◌≤◌, [], length, take};
    ghost use Rattle.std.specs.Option.{option_map_or};
    ghost use Rattle.std.specs.Box.{boxed_slice_items};
    ghost use Rattle.co_sdo_segments.specs.BufferContent.{BufferContent};

    ghost Value = { BufferContent };

    ghost view = { λ b. record {
      bytes = take b.len (option_map_or boxed_slice_items b.cells []);
      room = length (option_map_or boxed_slice_items b.cells []);
    } };

    ghost invariant = { λ b. b.len ≤ length (option_map_or boxed_slice_items b.cells []) };
}

// Copies bytes into cells, from cell `start` on.
fn copy_at(cells: &mut [u8], start: usize, bytes: &[u8])
    requires { start + length bytes.now ≤ length cells.old }
    ensures front { take (start + length bytes.now) cells.new ≡ take start cells.old ++ bytes.now }
    ensures len { length cells.new ≡ length cells.old }
{
    cells[start..start + bytes.len()].copy_from_slice(bytes);
}

impl Buffer {
    /// A buffer without room, which needs no memory.
    pub fn none() -> Buffer
        ensures { result ≡ record { bytes = []; room = 0 } }
    {
        Buffer {
            cells: None,
            len: 0,
        }
    }

    /// An empty buffer with room for `room` bytes. `AllocError` if they can't be allocated.
    pub fn with_room(alloc: Global, room: usize) -> Result<Buffer, AllocError>
        ensures { IfOk result (λ buffer. buffer ≡ record { bytes = []; room = room }) }
    {
        let cells = vec![in alloc; 0; room]?.into_boxed_slice();
        Ok(Buffer {
            cells: Some(cells),
            len: 0,
        })
    }

    /// The number of bytes.
    pub fn len(&self) -> usize
        ensures len { result ≡ length self.now.bytes }
        ensures few { result ≤ self.now.room }
    {
        self.len
    }

    /// The bytes.
    pub fn as_slice(&self) -> &[u8]
        ensures bytes { result.now ≡ self.now.bytes }
        ensures few { length result.now ≤ self.now.room }
    {
        match &self.cells {
            Some(cells) => &cells[..self.len],
            None => &[],
        }
    }

    /// Forgets the bytes past the first `len`.
    pub fn truncate(&mut self, len: usize)
        requires { len ≤ length self.old.bytes }
        ensures { self.new ≡ record self.old { bytes = take len self.old.bytes } }
    {
        self.len = len;
    }

    /// Forgets the bytes.
    pub fn clear(&mut self)
        ensures { self.new ≡ record self.old { bytes = [] } }
    {
        self.len = 0;
    }

    /// Replaces the bytes of the buffer by these.
    pub fn fill(&mut self, bytes: &[u8])
        requires { length bytes.now ≤ self.old.room }
        ensures { self.new ≡ record self.old { bytes = bytes.now } }
    {
        self.len = 0;
        self.append(bytes);
    }

    /// Appends bytes to those of the buffer.
    pub fn append(&mut self, bytes: &[u8])
        requires { length self.old.bytes + length bytes.now ≤ self.old.room }
        ensures { self.new ≡ record self.old { bytes = self.old.bytes ++ bytes.now } }
    {
        if let Some(cells) = &mut self.cells {
            // most segments have seven bytes, and a copy of a length that the compiler knows is
            // quicker
            match bytes.as_array::<7>() {
                Some(seven) => copy_at(cells, self.len, seven),
                None => copy_at(cells, self.len, bytes),
            }
        }
        self.len += bytes.len();
    }

    /// Appends the data of a segment of a block transfer, `bytes`, if its sequence number is
    /// `taken` + 1, where `taken` segments of its sub-block were taken before. Returns how many are
    /// taken then (CiA 301, 7.2.4.3.10 and 7.2.4.3.14).
    pub fn append_next(&mut self, taken: u8, segment: &BlockSegment, bytes: &[u8]) -> u8
        requires bytes { bytes.now ≡ segment.now.bytes }
        requires seven { length bytes.now ≡ bytes_per_segment }
        requires room { length self.old.bytes + bytes_per_segment ≤ self.old.room }
        requires few { taken < segments_per_sub_block }
        ensures bytes { self.new ≡ record self.old {
          bytes = self.old.bytes ++ bytes_taken (segment_taken taken (Some segment.now));
        } }
        ensures taken { result ≡ option_map_or (λ next. taken + 1) (segment_taken taken (Some
            segment.now)) taken }
        ensures len { length self.new.bytes + bytes_per_segment * taken ≡ length self.old.bytes +
            bytes_per_segment * result }
    {
        if segment.sequence != taken + 1 {
            return taken;
        }
        self.append(bytes);
        taken + 1
    }
}
