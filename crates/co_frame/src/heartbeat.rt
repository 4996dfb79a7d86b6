//! Boot-up and heartbeat messages.

ghost use Rattle.std.specs.Prelude.{◌≡◌, ◌<◌, Some, IfSome};
ghost use Rattle.co_frame.specs.Heartbeats.{SpellsHeartbeat, heartbeat_bytes, heartbeat_in};

use crate::frame::Frame;

/// An error control message of a node: boot-up, or a heartbeat with the node's state
/// (CiA 301, 7.2.8.3.2 and 7.2.8.3.3).
#[derive(Clone, Copy, PartialEq, Eq)]
pub enum Heartbeat {
    /// Boot-up, 0: the node has booted and is pre-operational.
    BootUp = 0,
    /// Heartbeat, s = 4.
    Stopped = 4,
    /// Heartbeat, s = 5.
    Operational = 5,
    /// Heartbeat, s = 127.
    PreOperational = 127,
}

impl Heartbeat {
    /// The heartbeat that the frame's data spells: one byte, 0, 4, 5 or 127. `None` for every other
    /// data. The identifier isn't looked at.
    pub fn read(frame: &Frame) -> Option<Heartbeat>
        ensures exact { result ≡ heartbeat_in frame.now.bytes }
        ensures found { IfSome result (λ heartbeat. SpellsHeartbeat heartbeat frame.now.bytes) }
        ensures only { (heartbeat : Heartbeat)
            → SpellsHeartbeat heartbeat frame.now.bytes → result ≡ Some heartbeat }
    {
        let bytes = frame.bytes();
        if bytes.len() != 1 {
            return None;
        }
        match bytes[0] {
            0 => Some(Heartbeat::BootUp),
            4 => Some(Heartbeat::Stopped),
            5 => Some(Heartbeat::Operational),
            127 => Some(Heartbeat::PreOperational),
            _ => None,
        }
    }

    /// The frame of the heartbeat with this identifier, 0 to 7FFh.
    pub fn write(&self, id: u16) -> Frame
        requires id { id < 2048 }
        ensures frame { result ≡ record { id = id; bytes = heartbeat_bytes self.now } }
        ensures spelled { SpellsHeartbeat self.now result.bytes }
    {
        Frame::new(id, &[*self as u8]).unwrap()
    }

    /// Writing and then reading gives the same value. This is a law: a call of it changes nothing.
    pub fn round_trip(self)
        ensures { heartbeat_in (heartbeat_bytes self) ≡ Some self }
    {}
}
