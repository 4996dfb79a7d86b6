//! Synchronization messages.

ghost use Rattle.std.specs.Prelude.{◌≡◌, ◌<◌, Some, IfSome};
ghost use Rattle.co_frame.specs.Syncs.{SpellsSync, sync_bytes, sync_in};

use crate::frame::Frame;

/// A SYNC (CiA 301, 7.2.5).
#[derive(Clone, Copy)]
pub struct Sync {
    /// The counter, where the SYNC has one.
    pub counter: Option<u8>,
}

impl Sync {
    /// The SYNC that the frame's data spells: no byte, or one, the counter. `None` for more bytes.
    /// The identifier isn't looked at.
    pub fn read(frame: &Frame) -> Option<Sync>
        ensures exact { result ≡ sync_in frame.now.bytes }
        ensures found { IfSome result (λ sync. SpellsSync sync frame.now.bytes) }
        ensures only { (sync : Sync) → SpellsSync sync frame.now.bytes → result ≡ Some sync }
    {
        match frame.bytes() {
            [] => Some(Sync { counter: None }),
            [counter] => Some(Sync {
                counter: Some(*counter),
            }),
            _ => None,
        }
    }

    /// The frame of the SYNC with this identifier, 0 to 7FFh.
    pub fn write(&self, id: u16) -> Frame
        requires id { id < 2048 }
        ensures frame { result ≡ record { id = id; bytes = sync_bytes self.now } }
        ensures spelled { SpellsSync self.now result.bytes }
    {
        match self.counter {
            None => Frame::new(id, &[]).unwrap(),
            Some(counter) => Frame::new(id, &[counter]).unwrap(),
        }
    }

    /// Writing and then reading gives the same value. This is a law: a call of it changes nothing.
    pub fn round_trip(self)
        ensures { sync_in (sync_bytes self) ≡ Some self }
    {}
}
