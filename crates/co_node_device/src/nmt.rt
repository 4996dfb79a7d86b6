//! NMT: commands, and resets (CiA 301, 7.2.8.3.1 and 7.3.2).

ghost use Rattle.std.specs.Prelude.{◌≡◌, None};
ghost use Rattle.co_frame.specs.Nmt.{nmt_command_in};
ghost use Rattle.co_node_model.specs.Nmt.{after_service, service_for};
ghost use Rattle.co_node_model.specs.Marks.{command_mark};

use co_dict::{Area, ObjectStore};
use co_frame::{Frame, NmtCommand, NmtService};
use co_node_model::Mark;

/// The service of a command for this node or for all nodes (CiA 301, 7.2.8.3.1).
fn service_for<S: ObjectStore>(store: &S, frame: &Frame) -> Option<NmtService>
    ensures { result ≡ service_for
        (S.description store.now).node (nmt_command_in frame.now) }
{
    let command = NmtCommand::read(frame)?;
    if command.node == 0 || command.node == store.node_id() {
        Some(command.service)
    } else {
        None
    }
}

/// Takes an NMT command: if it is a reset of this node or of all nodes, its area is restored
/// (CiA 301, 7.2.8.3.1).
pub(crate) fn take_command<S: ObjectStore>(store: &mut S, frame: &Frame) -> Mark
    ensures mark { result ≡ command_mark (service_for
        (S.description store.old).node (nmt_command_in frame.now)) }
    ensures contents { S.contents store.new ≡ after_service
        (S.description store.old).initial (service_for (S.description store.old).node
        (nmt_command_in frame.now)) (S.contents store.old) }
    ensures description { S.description store.new ≡ S.description store.old }
{
    let service = service_for(store, frame);
    match service {
        Some(NmtService::ResetNode) => store.reset(Area::All),
        Some(NmtService::ResetCommunication) => store.reset(Area::Communication),
        Some(NmtService::Start | NmtService::Stop | NmtService::EnterPreOperational) | None => {}
    }
    Mark::of_command(service)
}
