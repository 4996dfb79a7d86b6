//! A CAN data frame with an identifier of 11 bits.

ghost use Rattle.std.specs.Prelude.{◌≡◌, ◌↔◌, ◌<◌, ◌≤◌, [], length, IsOk, IfOk, IsErrOf};
ghost use Rattle.co_frame.specs.FrameContent.{FrameContent, IsFrame};

use co_value::PackedBytes;
use std::error::Error;
use std::fmt;
use std::marker::Model;

/// Why a frame can't be made.
#[derive(Clone, Copy, Debug, PartialEq, Eq)]
pub enum FrameFault {
    /// The identifier is above 7FFh.
    BadId = 1,
    /// There are more than 8 data bytes.
    TooLong = 2,
}

impl FrameFault {
    ghost use Rattle.co_frame.specs.FrameFaults.{fault_number};

    /// The fault's number: 1 `BadId`, 2 `TooLong`.
    pub fn number(self) -> u8
        ensures { result ≡ fault_number self }
    {
        self as u8
    }
}

impl fmt::Display for FrameFault {
    ghost use Rattle.std.specs.Prelude.{Some};
    ghost use Rattle.co_frame.specs.FrameFaults.{fault_name};

    ghost output = { λ fault. Some (fault_name fault) };

    fn fmt<W: fmt::Write>(&self, f: &mut fmt::Formatter<W>) -> fmt::Result {
        match self {
            FrameFault::BadId => write!(f, "BadId"),
            FrameFault::TooLong => write!(f, "TooLong"),
        }
    }
}

impl Error for FrameFault {}

/// A CAN data frame with an identifier of 11 bits, up to 7FFh, and up to 8 bytes of data
/// (CiA 301, 6.2). Contracts see it as the record of both. The default is identifier 0 without
/// data.
#[derive(Clone, Copy, Debug, PartialEq, Eq)]
pub struct Frame {
    id: u16,
    len: u8,
    // those from `len` on are 0
    cells: [u8; 8],
}

impl Model for Frame {
    ghost use Rattle.co_frame.specs.FrameContent.{FrameContent};

    ghost Value = { FrameContent };

    ghost use Rattle.co_frame.specs.FrameFields.{content_of, IsPadded, fields_of, fields_of-content_of};

    ghost view = { content_of };

    ghost invariant = { IsPadded };

    ghost inverse = { fields_of };

    ghost inverse_ok = { fields_of-content_of };
}

impl Frame {
    /// The frame with this identifier and these data bytes.
    /// `BadId` for an identifier above 7FFh, else `TooLong` for more than 8 bytes.
    pub fn new(id: u16, bytes: &[u8]) -> Result<Frame, FrameFault>
        ensures ok { IsOk result ↔ IsFrame (record { id = id; bytes = bytes.now }) }
        ensures frame { IfOk result (λ frame. frame ≡ record { id = id; bytes = bytes.now }) }
        ensures bad_id { IsErrOf result FrameFault.BadId ↔ (2048 ≤ id) }
        ensures too_long { IsErrOf result FrameFault.TooLong
            ↔ ((id < 2048) × (8 < length bytes.now)) }
    {
        if id > 0x7FF {
            return Err(FrameFault::BadId);
        }
        if bytes.len() > 8 {
            return Err(FrameFault::TooLong);
        }
        let mut packed = PackedBytes::new();
        packed.append(bytes);
        Ok(Frame::packed(id, &packed))
    }

    /// The frame with this identifier, at most 7FFh, and these data bytes, without an access to
    /// memory for each byte.
    #[inline(always)]
    pub fn packed(id: u16, bytes: &PackedBytes) -> Frame
        requires { id < 2048 }
        ensures { result ≡ record { id = id; bytes = bytes.now } }
    {
        Frame {
            id,
            len: bytes.len() as u8,
            cells: bytes.padded(),
        }
    }

    // The frame of a service that has eight bytes.
    pub(crate) fn of_eight(id: u16, bytes: [u8; 8]) -> Frame
        requires { id < 2048 }
        ensures { result ≡ record { id = id; bytes = bytes } }
    {
        Frame {
            id,
            len: 8,
            cells: bytes,
        }
    }

    /// The identifier, 0 to 7FFh.
    pub fn id(&self) -> u16
        ensures id { result ≡ self.now.id }
        ensures small { result < 2048 }
    {
        self.id
    }

    /// The data, 0 to 8 bytes.
    pub fn bytes(&self) -> &[u8]
        ensures bytes { result.now ≡ self.now.bytes }
        ensures few { length result.now ≤ 8 }
    {
        &self.cells[..self.len as usize]
    }
}

impl Default for Frame {
    ghost is_default = { λ frame. frame ≡ record { id = 0; bytes = [] } };

    fn default() -> Self {
        Frame {
            id: 0,
            len: 0,
            cells: [0; 8],
        }
    }
}
