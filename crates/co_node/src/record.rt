//! The frames of many inputs.

ghost use Rattle.std.specs.Prelude.{◌≡◌, ◌+◌, ◌≤◌, ◌++◌, [], length, take, true, false, IfOk};
ghost use Rattle.co_node.specs.Records.{HasRoom, with_input};

use co_frame::Frame;
use std::alloc::{AllocError, Global};
use std::boxed::BoxedSlice;
use std::marker::Model;

/// The frames of many inputs, and for each input the number of frames up to its end. `new`
/// allocates all memory: contracts see how many frames and inputs it has room for, which no call
/// changes.
#[derive(Drop)]
pub struct Record {
    // as long as there is room; the first `frame_count` are recorded
    frames: BoxedSlice<Frame>,
    frame_count: usize,
    // as long as there is room; the first `input_count` are recorded
    ends: BoxedSlice<usize>,
    input_count: usize,
}

impl Model for Record {
    ghost use Rattle.std.specs.Prelude.{◌≤◌, length, take};
    ghost use Rattle.std.specs.Box.{boxed_slice_items};
    ghost use Rattle.co_node.specs.Records.{Recorded};

    ghost Value = { Recorded };

    ghost view = { λ r. record {
      frames = take r.frame_count (boxed_slice_items r.frames);
      ends = take r.input_count (boxed_slice_items r.ends);
      frame_room = length (boxed_slice_items r.frames);
      input_room = length (boxed_slice_items r.ends);
    } };

    ghost invariant = { λ r. (r.frame_count ≤ length (boxed_slice_items r.frames))
        × (r.input_count ≤ length (boxed_slice_items r.ends)) };
}

/// Copies frames to the places from `start` on.
fn copy_at(to: &mut [Frame], start: usize, frames: &[Frame])
    requires { start + length frames.now ≤ length to.old }
    ensures front { take (start + length frames.now) to.new ≡ take start to.old ++ frames.now }
    ensures len { length to.new ≡ length to.old }
{
    to[start..start + frames.len()].copy_from_slice(frames);
}

impl Record {
    /// An empty record with room for `frames` frames, of `inputs` inputs. `AllocError` if it can't
    /// be allocated.
    pub fn new(alloc: Global, frames: usize, inputs: usize) -> Result<Record, AllocError>
        ensures { IfOk result (λ r. r ≡
            record { frames = []; ends = []; frame_room = frames; input_room = inputs }) }
    {
        let cells = vec![in alloc; Frame::default(); frames]?;
        let ends = vec![in alloc; 0; inputs]?;
        Ok(Record {
            frames: cells.into_boxed_slice(),
            frame_count: 0,
            ends: ends.into_boxed_slice(),
            input_count: 0,
        })
    }

    /// Clears the record. Its room stays.
    pub fn clear(&mut self)
        ensures { self.new ≡ record self.old { frames = []; ends = [] } }
    {
        self.frame_count = 0;
        self.input_count = 0;
    }

    /// The frames of all inputs, in order.
    pub fn frames(&self) -> &[Frame]
        ensures { result.now ≡ self.now.frames }
    {
        &self.frames[..self.frame_count]
    }

    /// For each input the number of frames up to its end, those of earlier inputs included.
    pub fn ends(&self) -> &[usize]
        ensures { result.now ≡ self.now.ends }
    {
        &self.ends[..self.input_count]
    }

    /// Whether there is room for one more input with `frames` frames.
    pub(crate) fn has_room(&self, frames: usize) -> bool
        ensures yes { result ≡ true → HasRoom frames self.now }
        ensures no { result ≡ false → HasRoom frames self.now → ⊥ }
    {
        self.input_count < self.ends.len() && frames <= self.frames.len() - self.frame_count
    }

    /// Appends the frames of an input, if there is room for them.
    pub(crate) fn add(&mut self, frames: &[Frame])
        ensures added { HasRoom (length frames.now) self.old →
            self.new ≡ with_input frames.now self.old }
        ensures frame_room { self.new.frame_room ≡ self.old.frame_room }
        ensures input_room { self.new.input_room ≡ self.old.input_room }
    {
        if !self.has_room(frames.len()) {
            return;
        }
        copy_at(&mut self.frames, self.frame_count, frames);
        self.frame_count += frames.len();
        self.ends[self.input_count] = self.frame_count;
        self.input_count += 1;
    }
}
