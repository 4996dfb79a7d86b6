//! A line as it grows.

ghost use Rattle.std.specs.Prelude.{◌≡◌, ◌<◌, ◌≤◌, ◌++◌, ◌==◌, [], length, OnOk, OnErr, IfErr};
ghost use Rattle.std.specs.Str.Lines.{strip_carriage_return};
ghost use Rattle.co_stream.specs.declared.fault.LineFault.TheVariants.{TooLong};
ghost use Rattle.co_stream.specs.Lines.{with_return};

use crate::fault::LineFault;
use arrayvec::ArrayVec;
use std::marker::Model;

const CARRIAGE_RETURN: u8 = b'\r';

/// The part of a line received so far: at most 512 bytes, and whether a carriage return followed
/// them. That belongs to the line's end if a line feed comes next. Contracts see all bytes
/// received.
#[derive(Drop)]
pub(crate) struct LineBuffer {
    bytes: ArrayVec<u8, 512>,
    has_return: bool,
}

impl Model for LineBuffer {
    ghost use Rattle.std.specs.Prelude.{◌≡◌, ℕ, List};
    ghost use Rattle.std.specs.Str.Lines.{strip_carriage_return};
    ghost use Rattle.co_stream.specs.Lines.{with_return};

    ghost Value = { List ℕ };

    ghost view = { λ line. with_return line.bytes.items line.has_return };

    ghost invariant = { λ line.
        strip_carriage_return (with_return line.bytes.items line.has_return) ≡ line.bytes.items };
}

impl LineBuffer {
    /// A line of which nothing was received.
    pub(crate) fn new() -> Self
        ensures { result ≡ [] }
    {
        LineBuffer {
            bytes: ArrayVec::new(),
            has_return: false,
        }
    }

    /// Begins the next line.
    pub(crate) fn clear(&mut self)
        ensures { self.new ≡ [] }
    {
        self.bytes.clear();
        self.has_return = false;
    }

    /// Whether nothing was received.
    pub(crate) fn is_empty(&self) -> bool
        ensures { result ≡ (length self.now == 0) }
    {
        self.bytes.is_empty() && !self.has_return
    }

    /// The line, if a line feed comes next.
    pub(crate) fn text(&self) -> &[u8]
        ensures text { result.now ≡ strip_carriage_return self.now }
        ensures length { length result.now ≤ 512 }
    {
        self.bytes.as_slice()
    }

    /// Adds bytes that contain no line feed. `TooLong`: a line feed next would end a line of more
    /// than 512 bytes.
    pub(crate) fn add(&mut self, bytes: &[u8]) -> Result<(), LineFault>
        ensures ok { OnOk result (self.new ≡ self.old ++ bytes.now) }
        ensures too_long { OnErr result
            (512 < length (strip_carriage_return (self.old ++ bytes.now))) }
        ensures fault { IfErr result (λ fault. fault ≡ LineFault.TooLong) }
    {
        if bytes.is_empty() {
            return Ok(());
        }
        let (front, has_return) = split_return(bytes);
        if self.has_return && self.bytes.try_push(CARRIAGE_RETURN).is_err() {
            return Err(LineFault::TooLong);
        }
        if self.bytes.try_extend_from_slice(front).is_err() {
            return Err(LineFault::TooLong);
        }
        self.has_return = has_return;
        Ok(())
    }
}

// the bytes without one carriage return at their end, and whether they have one
fn split_return(bytes: &[u8]) -> (&[u8], bool)
    ensures front { result.0.now ≡ strip_carriage_return bytes.now }
    ensures whole { with_return result.0.now result.1 ≡ bytes.now }
{
    match bytes {
        [front @ .., b'\r'] => (front, true),
        _ => (bytes, false),
    }
}
