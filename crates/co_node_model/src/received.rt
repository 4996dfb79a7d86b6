//! The mark of a received frame, by its addressee.

ghost use Rattle.std.specs.Prelude.{◌≡◌, None};
ghost use Rattle.co_dict.specs.Rows.{Contents};
ghost use Rattle.co_node_model.specs.Heartbeats.{with_error_control};
ghost use Rattle.co_node_model.specs.Inputs.{InputView};
ghost use Rattle.co_node_model.specs.Marks.{marked_rpdo};
ghost use Rattle.co_node_model.specs.Moments.{nothing_of};
ghost use Rattle.co_node_model.specs.Rpdos.{with_rpdo};
ghost use Rattle.co_node_model.specs.Sync.{counter_in, with_sync};

use crate::mark::Mark;
use co_frame::{Frame, Heartbeat, Sync};
use co_node_parts::{KeptFrame, NodeState};
use co_pdo::PdoNumber;

/// The mark of a SYNC: it is ignored while the device is stopped (CiA 301, 7.2.5).
#[inline(always)]
pub fn sync_mark(state: NodeState, frame: &Frame) -> Mark
    ensures mark { (input : InputView) (contents : Contents) → result
        ≡ (with_sync state frame.now (nothing_of input contents)).mark }
    ensures rpdo { marked_rpdo result ≡ None }
{
    if state == NodeState::Stopped {
        return Mark::Quiet;
    }
    Mark::Sync(*frame)
}

/// The counter of a SYNC: its byte, if it has exactly one.
#[inline(always)]
pub fn counter_in(frame: &Frame) -> Option<u8>
    ensures { result ≡ counter_in frame.now }
{
    match Sync::read(frame) {
        Some(sync) => sync.counter,
        None => None,
    }
}

/// The mark of a frame of an RPDO: it is ignored unless the device is operational (CiA 301, 7.2.2).
#[inline(always)]
pub fn rpdo_mark(state: NodeState, number: PdoNumber, frame: &Frame) -> Mark
    ensures { (input : InputView) (contents : Contents) → result
        ≡ (with_rpdo number state frame.now (nothing_of input contents)).mark }
{
    if state != NodeState::Operational {
        return Mark::Quiet;
    }
    Mark::Rpdo(KeptFrame {
        number,
        frame: *frame,
    })
}

/// The mark of an error control frame of another node: a heartbeat is heard, a boot-up is ignored
/// (CiA 301, 7.2.8.3.2).
#[inline(always)]
pub fn error_control_mark(node: u8, frame: &Frame) -> Mark
    ensures mark { (input : InputView) (contents : Contents) → result
        ≡ (with_error_control node frame.now (nothing_of input contents)).mark }
    ensures rpdo { marked_rpdo result ≡ None }
{
    match Heartbeat::read(frame) {
        None | Some(Heartbeat::BootUp) => Mark::Quiet,
        Some(Heartbeat::Stopped | Heartbeat::Operational | Heartbeat::PreOperational) => {
            Mark::Heard(node)
        }
    }
}
