//! What an application may want to know of an input.

ghost use Rattle.std.specs.Prelude.{◌≡◌};
ghost use Rattle.co_node_device.specs.Lasts.{seen_of};

use co_frame::NmtService;
use co_node_model::Mark;

/// What an application may want to know of an input, as the device received it.
#[derive(Clone, Copy)]
pub enum Seen {
    /// None of the others.
    Nothing,
    /// The NMT service reset node, for this node or for all nodes (CiA 301, 7.2.8.2.1).
    ResetNode,
    /// The NMT service reset communication.
    ResetCommunication,
    /// A SYNC, and the device wasn't stopped.
    Sync,
    /// A frame of an active RPDO, and the device was operational.
    Rpdo,
    /// A heartbeat of the node with this node-ID; a boot-up is none.
    Heartbeat(u8),
}

impl Seen {
    /// What is seen of a mark.
    #[inline(always)]
    pub(crate) fn of(mark: &Mark) -> Seen
        ensures { result ≡ seen_of mark.now }
    {
        match *mark {
            Mark::Command(NmtService::ResetNode) => Seen::ResetNode,
            Mark::Command(NmtService::ResetCommunication) => Seen::ResetCommunication,
            Mark::Sync(_) => Seen::Sync,
            Mark::Rpdo(_) => Seen::Rpdo,
            Mark::Heard(node) => Seen::Heartbeat(node),
            Mark::Command(NmtService::Start | NmtService::Stop | NmtService::EnterPreOperational)
            | Mark::Quiet
            | Mark::Written(_)
            | Mark::Tick(_)
            | Mark::Asked(_) => Seen::Nothing,
        }
    }
}
