//! The parts of a device besides its dictionary.

use crate::addresses::AddressTable;
use crate::mappings::CompiledMappings;
use crate::seen::Seen;
use co_node_model::AppAnswer;
use co_node_parts::{
    Emergencies, HeartbeatConsumers, HeartbeatProducer, LostHeartbeats, NmtState, RpdoSlots,
};
use co_pdo::{Due, Schedule};
use co_sdo::Bank;

/// The parts of a device besides its dictionary. Each part notes one event per input.
#[derive(Drop)]
pub struct Parts {
    /// The NMT state.
    pub state: NmtState,
    /// All SDO channels.
    pub bank: Bank,
    /// The identifiers of SYNC and RPDOs.
    pub addresses: AddressTable,
    /// The compiled mappings of all PDOs.
    pub mappings: CompiledMappings,
    /// The monitoring of other nodes' heartbeats.
    pub consumers: HeartbeatConsumers,
    /// The sub-indices of 1016h whose heartbeat was lost at the last input.
    pub lost: LostHeartbeats,
    /// The queue of emergencies.
    pub emergencies: Emergencies,
    /// The frames of RPDOs that wait for a SYNC.
    pub slots: RpdoSlots,
    /// The device's own heartbeat.
    pub producer: HeartbeatProducer,
    /// When TPDOs are due.
    pub schedule: Schedule,
    /// The numbers of the TPDOs that the last input sent.
    pub due: Due,
    /// The answer to the last input, if that was an application event.
    pub last_app: AppAnswer,
    /// What is seen of the last input.
    pub last_seen: Seen,
}
