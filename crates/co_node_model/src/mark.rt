//! What a received input was, for all services.

ghost use Rattle.std.specs.Prelude.{◌≡◌};
ghost use Rattle.co_node_model.specs.Marks.{
  command_mark,
  marked_command,
  marked_event,
  marked_heartbeat,
  marked_key,
  marked_rpdo,
  marked_sync,
  marked_tick,
  marked_time_out,
  written_mark,
};
ghost use Rattle.co_node_model.specs.Nmt.{is_reset};

use co_frame::{Frame, NmtService};
use co_node_parts::KeptFrame;
use co_pdo::PdoNumber;
use co_value::Key;

/// An application event of TPDOs.
#[derive(Clone, Copy)]
pub enum Asked {
    /// Of the TPDO with this number.
    Event(PdoNumber),
    /// Of each active TPDO that maps this entry.
    Changed(Key),
}

/// What an input was, as the device received it.
#[derive(Clone, Copy)]
pub enum Mark {
    /// Nothing that concerns a service.
    Quiet,
    /// An NMT command for this node or for all nodes.
    Command(NmtService),
    /// An entry was written, by SDO or by the application.
    Written(Key),
    /// A frame with the identifier of SYNC was received, and the node isn't stopped.
    Sync(Frame),
    /// A frame of an active RPDO was received, and the node is operational.
    Rpdo(KeptFrame),
    /// A heartbeat of the node with this node-ID was received; a boot-up is none.
    Heard(u8),
    /// 1 ms elapsed; whether an SDO transfer timed out then, and was aborted.
    Tick(bool),
    /// An application event of TPDOs.
    Asked(Asked),
}

// What each service reads of a mark.
impl Mark {
    /// The NMT command, if it was one.
    #[inline(always)]
    pub fn command(&self) -> Option<NmtService>
        ensures { result ≡ marked_command self.now }
    {
        match *self {
            Mark::Command(service) => Some(service),
            _ => None,
        }
    }

    /// The entry that was written, if one was.
    #[inline(always)]
    pub fn written(&self) -> Option<Key>
        ensures { result ≡ marked_key self.now }
    {
        match *self {
            Mark::Written(key) => Some(key),
            _ => None,
        }
    }

    /// The frame, if it was a SYNC.
    #[inline(always)]
    pub fn sync(&self) -> Option<Frame>
        ensures { result ≡ marked_sync self.now }
    {
        match *self {
            Mark::Sync(frame) => Some(frame),
            _ => None,
        }
    }

    /// The frame of an RPDO, if it was one.
    #[inline(always)]
    pub fn rpdo(&self) -> Option<KeptFrame>
        ensures { result ≡ marked_rpdo self.now }
    {
        match *self {
            Mark::Rpdo(frame) => Some(frame),
            _ => None,
        }
    }

    /// The node-ID of the node whose heartbeat was received, if one was.
    #[inline(always)]
    pub fn heard(&self) -> Option<u8>
        ensures { result ≡ marked_heartbeat self.now }
    {
        match *self {
            Mark::Heard(node) => Some(node),
            _ => None,
        }
    }

    /// Whether 1 ms elapsed.
    #[inline(always)]
    pub fn is_tick(&self) -> bool
        ensures { result ≡ marked_tick self.now }
    {
        matches!(*self, Mark::Tick(_))
    }

    /// Whether an SDO transfer timed out.
    #[inline(always)]
    pub fn is_time_out(&self) -> bool
        ensures { result ≡ marked_time_out self.now }
    {
        matches!(*self, Mark::Tick(true))
    }

    /// The application event of TPDOs, if it was one.
    #[inline(always)]
    pub fn asked(&self) -> Option<Asked>
        ensures { result ≡ marked_event self.now }
    {
        match *self {
            Mark::Asked(asked) => Some(asked),
            _ => None,
        }
    }

    /// The mark of an NMT command; quiet if it isn't for this node.
    #[inline(always)]
    pub fn of_command(service: Option<NmtService>) -> Mark
        ensures { result ≡ command_mark service }
    {
        match service {
            Some(service) => Mark::Command(service),
            None => Mark::Quiet,
        }
    }

    /// The mark of a write; quiet if no entry was written.
    #[inline(always)]
    pub fn of_write(key: Option<Key>) -> Mark
        ensures { result ≡ written_mark key }
    {
        match key {
            Some(key) => Mark::Written(key),
            None => Mark::Quiet,
        }
    }

    /// Whether the input was a reset, of the node or of its communication.
    #[inline(always)]
    pub fn is_reset(&self) -> bool
        ensures { result ≡ is_reset self.now }
    {
        matches!(
            *self,
            Mark::Command(NmtService::ResetNode | NmtService::ResetCommunication)
        )
    }
}
