//! Emergency messages.

ghost use Rattle.std.specs.Prelude.{◌≡◌, ◌<◌, Some, IfSome};
ghost use Rattle.co_frame.specs.Emergencies.{SpellsEmergency, emergency_bytes, emergency_in};

use crate::frame::Frame;
use byteorder::{ByteOrder, LittleEndian};

/// An EMCY message: a node reports an error, or that errors have ended (CiA 301, 7.2.7).
#[derive(Clone, Copy)]
pub struct Emergency {
    /// The emergency error code; 0000h for errors that have ended.
    pub code: u16,
    /// The error register, object 1001h.
    pub register: u8,
    /// The five bytes that the manufacturer defines.
    pub manufacturer: [u8; 5],
}

impl Emergency {
    /// The emergency that the frame's data spells. `None` unless there are eight bytes.
    /// The identifier isn't looked at.
    pub fn read(frame: &Frame) -> Option<Emergency>
        ensures exact { result ≡ emergency_in frame.now.bytes }
        ensures found { IfSome result (λ emergency. SpellsEmergency emergency frame.now.bytes) }
        ensures only { (emergency : Emergency)
            → SpellsEmergency emergency frame.now.bytes → result ≡ Some emergency }
    {
        let bytes = frame.bytes();
        if bytes.len() != 8 {
            return None;
        }
        let mut manufacturer = [0; 5];
        manufacturer.copy_from_slice(&bytes[3..]);
        Some(Emergency {
            code: LittleEndian::read_u16(bytes),
            register: bytes[2],
            manufacturer,
        })
    }

    /// The frame of the emergency with this identifier, 0 to 7FFh.
    pub fn write(&self, id: u16) -> Frame
        requires id { id < 2048 }
        ensures frame { result ≡ record { id = id; bytes = emergency_bytes self.now } }
        ensures spelled { SpellsEmergency self.now result.bytes }
    {
        let Emergency {
            code,
            register,
            manufacturer,
        } = *self;
        let mut bytes = [0; 8];
        LittleEndian::write_u16(&mut bytes, code);
        bytes[2] = register;
        bytes[3..].copy_from_slice(&manufacturer);
        Frame::of_eight(id, bytes)
    }

    /// Writing and then reading gives the same value. This is a law: a call of it changes nothing.
    pub fn round_trip(self)
        ensures { emergency_in (emergency_bytes self) ≡ Some self }
    {}
}
