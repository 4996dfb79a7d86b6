//! CAN frames for C.

ghost use Rattle.std.specs.Prelude.{◌≡◌, ◌≤◌, ◌∷◌, [], IfSome, Some, None, length};
ghost use Rattle.bafokun.specs.Frames.{ArePut, IsCan, c_frame, content_of};

use co_frame::{Frame, Outbox};
use co_value::PackedBytes;

/// A CAN data frame, 12 bytes without padding: `struct bafokun_frame`.
#[repr(C)]
#[derive(Clone, Copy)]
pub struct CanFrame {
    /// The identifier, 0 to 7FFh.
    pub id: u16,
    /// How many data bytes there are, 0 to 8.
    pub length: u16,
    /// The data; the bytes after them are 0 in a frame that is sent.
    pub bytes: [u8; 8],
}

impl CanFrame {
    /// The form for C of a frame that is sent.
    pub(crate) fn of(frame: &Frame) -> CanFrame
        ensures { result ≡ c_frame frame.now }
    {
        let data = frame.bytes();
        CanFrame {
            id: frame.id(),
            length: data.len() as u16,
            bytes: packed(data).padded(),
        }
    }

    /// The frame; `None` if the identifier is above 7FFh, or it has more than eight bytes.
    pub(crate) fn read(&self) -> Option<Frame>
        ensures some { IfSome result (λ frame. frame ≡ content_of self.now) }
        ensures is { IfSome result (λ _. IsCan self.now) }
        ensures none { result ≡ None → IsCan self.now → ⊥ }
    {
        if self.id > 0x7FF {
            return None;
        }
        // eight bytes first, as in SDO, then none, as in most SYNCs: neither costs a call
        if self.length == 8 {
            return Some(Frame::packed(self.id, &packed_eight(&self.bytes)));
        }
        if self.length == 0 {
            return Some(Frame::packed(self.id, &PackedBytes::new()));
        }
        if self.length > 8 {
            return None;
        }
        Some(Frame::packed(self.id, &packed_few(&self.bytes[..self.length as usize])))
    }
}

// Packs bytes. Eight, as in SDO, cost no call.
#[inline(always)]
fn packed(bytes: &[u8]) -> PackedBytes
    requires { length bytes.now ≤ 8 }
    ensures { result ≡ bytes.now }
{
    if bytes.len() == 8 {
        packed_eight(bytes)
    } else {
        packed_few(bytes)
    }
}

// Packs eight bytes. They are read in two halves: four bytes need no call.
#[inline(always)]
fn packed_eight(bytes: &[u8]) -> PackedBytes
    requires { length bytes.now ≡ 8 }
    ensures { result ≡ bytes.now }
{
    let mut packed = PackedBytes::new();
    packed.append(&bytes[..4]);
    packed.append(&bytes[4..]);
    packed
}

// Packs bytes, fewer than eight in most cases.
#[inline(never)]
fn packed_few(bytes: &[u8]) -> PackedBytes
    requires { length bytes.now ≤ 8 }
    ensures { result ≡ bytes.now }
{
    let mut packed = PackedBytes::new();
    packed.append(bytes);
    packed
}

/// Removes the frames of the last input. None, or one, as most inputs send, cost no call.
#[inline(always)]
pub(crate) fn clear(sent: &mut Outbox)
    ensures { sent.new.items ≡ [] }
{
    if sent.is_empty() {
        return;
    }
    if sent.len() == 1 {
        sent.pop();
    } else {
        sent.clear();
    }
}

/// Puts frames into an array, as many as it has room for. None, or one of eight bytes, as most
/// inputs send, cost no call.
#[tactic(auto, using(crate::proofs::Put::none_put))]
#[inline(always)]
pub(crate) fn put(frames: &[Frame], places: &mut [CanFrame])
    ensures { ArePut frames.now places.old places.new }
{
    match frames {
        [] => {}
        [frame] if frame.bytes().len() == 8 => put_one(frame, places),
        _ => put_all(frames, places),
    }
}

// Puts a frame into an array, if it has room.
#[tactic(auto, using(crate::proofs::Put::one_put, crate::proofs::Put::one_without_room))]
#[inline(always)]
fn put_one(frame: &Frame, places: &mut [CanFrame])
    ensures { ArePut (frame.now ∷ []) places.old places.new }
{
    if !places.is_empty() {
        places[0] = CanFrame::of(frame);
    }
}

/// Puts frames into an array, as many as it has room for, by a call.
#[cold]
#[inline(never)]
pub(crate) fn put_all(frames: &[Frame], places: &mut [CanFrame])
    ensures { ArePut frames.now places.old places.new }
{
    for i in 0..frames.len().min(places.len()) {
        places[i] = CanFrame::of(&frames[i]);
    }
}
