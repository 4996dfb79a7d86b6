//! Network management commands.

ghost use Rattle.std.specs.Prelude.{◌≡◌, ◌↔◌, ◌<◌, Some, IsTrue, IfSome};
ghost use Rattle.co_frame.specs.Nmt.{
  IsNmtCommand,
  SpellsNmtCommand,
  nmt_command_bytes,
  nmt_command_in,
  specifier_of,
  service_with,
};

use crate::frame::Frame;

/// An NMT service of node control, with its command specifier cs (CiA 301, 7.2.8.3.1).
#[derive(Clone, Copy, PartialEq, Eq)]
pub enum NmtService {
    /// Start remote node, cs = 1.
    Start = 1,
    /// Stop remote node, cs = 2.
    Stop = 2,
    /// Enter pre-operational, cs = 128.
    EnterPreOperational = 128,
    /// Reset node, cs = 129.
    ResetNode = 129,
    /// Reset communication, cs = 130.
    ResetCommunication = 130,
}

impl NmtService {
    fn from_specifier(specifier: u8) -> Option<NmtService>
        ensures { result ≡ service_with specifier }
    {
        match specifier {
            1 => Some(NmtService::Start),
            2 => Some(NmtService::Stop),
            128 => Some(NmtService::EnterPreOperational),
            129 => Some(NmtService::ResetNode),
            130 => Some(NmtService::ResetCommunication),
            _ => None,
        }
    }

    fn specifier(self) -> u8
        ensures { result ≡ specifier_of self }
    {
        self as u8
    }
}

/// A command to one node or to all of them (CiA 301, 7.2.8.3.1).
#[derive(Clone, Copy, PartialEq, Eq)]
pub struct NmtCommand {
    /// What the node is to do.
    pub service: NmtService,
    /// The node-ID, 1 to 127, or 0 for all nodes.
    pub node: u8,
}

impl NmtCommand {
    /// The command that the frame spells: identifier 0, and two bytes. `None` for every other
    /// frame, also for one with a node-ID above 127.
    pub fn read(frame: &Frame) -> Option<NmtCommand>
        ensures exact { result ≡ nmt_command_in frame.now }
        ensures found { IfSome result (λ command. SpellsNmtCommand command frame.now) }
        ensures only { (command : NmtCommand)
            → SpellsNmtCommand command frame.now → result ≡ Some command }
        ensures spellable { IfSome result IsNmtCommand }
    {
        let bytes = frame.bytes();
        if frame.id() != 0 || bytes.len() != 2 || bytes[1] > 127 {
            return None;
        }
        let service = NmtService::from_specifier(bytes[0])?;
        Some(NmtCommand {
            service,
            node: bytes[1],
        })
    }

    /// The frame of the command, with identifier 0.
    pub fn write(&self) -> Frame
        requires spellable { IsNmtCommand self.now }
        ensures frame { result ≡ record { id = 0; bytes = nmt_command_bytes self.now } }
        ensures spelled { SpellsNmtCommand self.now result }
    {
        Frame::new(0, &[self.service.specifier(), self.node]).unwrap()
    }

    /// Whether a frame can spell the command: its node-ID is at most 127.
    pub fn is_spellable(&self) -> bool
        ensures { IsTrue result ↔ IsNmtCommand self.now }
    {
        self.node <= 127
    }

    /// Writing and then reading gives the same value. This is a law: a call of it changes nothing.
    pub fn round_trip(self)
        requires spellable { IsNmtCommand self }
        ensures { nmt_command_in (record { id = 0; bytes = nmt_command_bytes self }) ≡ Some self }
    {}
}
