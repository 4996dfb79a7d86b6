//! The services of CiA 301 that a recording may have.

ghost use Rattle.std.specs.Prelude.{◌≡◌, map, IfOk};
ghost use Rattle.std.specs.Option.{option_copied};
ghost use Rattle.conode_compare_report.specs.Coverages.{
  command_service,
  control_service,
  done_service,
  ended_service,
  lane_of,
  no_services,
  none_of,
  role_lane,
  role_service,
  service_of,
  services_with,
  transfer_service,
};
ghost use Rattle.conode_compare_report.specs.Services.{service_name, service_number};

use crate::before::Role;
use crate::lanes::Lane;
use co_frame::NmtService;
use conode_compare_rules::FrameKind;
use conode_explain_transfers::{Direction, Ended, Ending, Protocol};
use std::alloc::{AllocError, Global};

/// A service of a device, or one that it takes.
#[derive(Clone, Copy)]
pub enum Service {
    Start,
    Stop,
    EnterPreOperational,
    ResetNode,
    ResetCommunication,
    BootUp,
    Heartbeat,
    NodeGuarding,
    Emergency,
    Sync,
    Time,
    ExpeditedUpload,
    SegmentedUpload,
    BlockUpload,
    ExpeditedDownload,
    SegmentedDownload,
    BlockDownload,
    Tpdo1,
    Tpdo2,
    Tpdo3,
    Tpdo4,
    Rpdo1,
    Rpdo2,
    Rpdo3,
    Rpdo4,
}

// each service once, in this order
const SERVICES: [Service; 25] = [
    Service::Start,
    Service::Stop,
    Service::EnterPreOperational,
    Service::ResetNode,
    Service::ResetCommunication,
    Service::BootUp,
    Service::Heartbeat,
    Service::NodeGuarding,
    Service::Emergency,
    Service::Sync,
    Service::Time,
    Service::ExpeditedUpload,
    Service::SegmentedUpload,
    Service::BlockUpload,
    Service::ExpeditedDownload,
    Service::SegmentedDownload,
    Service::BlockDownload,
    Service::Tpdo1,
    Service::Tpdo2,
    Service::Tpdo3,
    Service::Tpdo4,
    Service::Rpdo1,
    Service::Rpdo2,
    Service::Rpdo3,
    Service::Rpdo4,
];

// their names, in this order
static NAMES: [&str; 25] = [
    "NMT start",
    "NMT stop",
    "NMT enter pre-operational",
    "NMT reset node",
    "NMT reset communication",
    "boot-up",
    "heartbeat",
    "node guarding",
    "EMCY",
    "SYNC",
    "TIME",
    "SDO upload expedited",
    "SDO upload segmented",
    "SDO block upload",
    "SDO download expedited",
    "SDO download segmented",
    "SDO block download",
    "TPDO1",
    "TPDO2",
    "TPDO3",
    "TPDO4",
    "RPDO1",
    "RPDO2",
    "RPDO3",
    "RPDO4",
];

/// How often a service was seen: frames of it, or SDO transfers that were confirmed.
#[derive(Clone, Copy)]
pub struct Served {
    pub service: Service,
    /// At most 2^64 - 1.
    pub count: u64,
}

impl Service {
    /// Its name: `heartbeat`.
    pub fn name(self) -> &'static str
        ensures { result.now ≡ service_name self }
    {
        NAMES[self as usize]
    }

    /// Its place among all, from 0 on.
    pub(crate) fn number(self) -> usize
        ensures { result ≡ service_number self }
    {
        self as usize
    }
}

// each of these services, none of which was seen so far
fn none_of_all(alloc: Global, services: &[Service]) -> Result<Vec<Served>, AllocError>
    ensures { IfOk result (λ counts. counts.items ≡ map none_of services.now) }
{
    let mut counts = Vec::new(alloc);
    for service in services {
        counts.push(Served {
            service: *service,
            count: 0,
        })?;
    }
    Ok(counts)
}

/// Each service once.
pub(crate) fn no_services(alloc: Global) -> Result<Vec<Served>, AllocError>
    ensures { IfOk result (λ services. services.items ≡ no_services) }
{
    none_of_all(alloc, &SERVICES)
}

fn command_service(service: NmtService) -> Service
    ensures { result ≡ command_service service }
{
    match service {
        NmtService::Start => Service::Start,
        NmtService::Stop => Service::Stop,
        NmtService::EnterPreOperational => Service::EnterPreOperational,
        NmtService::ResetNode => Service::ResetNode,
        NmtService::ResetCommunication => Service::ResetCommunication,
    }
}

// by a byte of error control: bit 7 is the toggle bit of node guarding
fn control_service(byte: u8) -> Service
    ensures { result ≡ control_service byte }
{
    if byte == 0 {
        Service::BootUp
    } else if byte < 0x80 {
        Service::Heartbeat
    } else {
        Service::NodeGuarding
    }
}

fn role_service(role: Role) -> Option<Service>
    ensures { result ≡ role_service role }
{
    match role {
        Role::Sync => Some(Service::Sync),
        Role::Time => Some(Service::Time),
        Role::Tpdo(1, _) => Some(Service::Tpdo1),
        Role::Tpdo(2, _) => Some(Service::Tpdo2),
        Role::Tpdo(3, _) => Some(Service::Tpdo3),
        Role::Tpdo(_, _) => Some(Service::Tpdo4),
        Role::Rpdo(1) => Some(Service::Rpdo1),
        Role::Rpdo(2) => Some(Service::Rpdo2),
        Role::Rpdo(3) => Some(Service::Rpdo3),
        Role::Rpdo(_) => Some(Service::Rpdo4),
        Role::Other => None,
    }
}

// of a transfer that was confirmed
fn transfer_service(direction: Direction, protocol: Protocol) -> Option<Service>
    ensures { result ≡ transfer_service direction protocol }
{
    match (direction, protocol) {
        (_, Protocol::Undecided) => None,
        (Direction::Upload, Protocol::Expedited) => Some(Service::ExpeditedUpload),
        (Direction::Upload, Protocol::Segmented) => Some(Service::SegmentedUpload),
        (Direction::Upload, Protocol::Block) => Some(Service::BlockUpload),
        (Direction::Download, Protocol::Expedited) => Some(Service::ExpeditedDownload),
        (Direction::Download, Protocol::Segmented) => Some(Service::SegmentedDownload),
        (Direction::Download, Protocol::Block) => Some(Service::BlockDownload),
    }
}

fn ended_service(ended: Option<&Ended>) -> Option<Service>
    ensures { result ≡ ended_service (option_copied ended.entry) }
{
    let Some(ended) = ended else {
        return None;
    };
    match ended.ending {
        Ending::Done { crc: _ } => transfer_service(ended.direction, ended.protocol),
        _ => None,
    }
}

/// What a frame is of, with the transfer that ended with it.
#[tactic(auto, unfolding(crate::specs::Coverages::service_of))]
pub(crate) fn service_of(kind: &FrameKind, role: Role, ended: Option<&Ended>) -> Option<Service>
    ensures { result ≡ service_of kind.now role (option_copied ended.entry) }
{
    match kind {
        FrameKind::Command(service) | FrameKind::CommandToAll(service) => {
            Some(command_service(*service))
        }
        FrameKind::Guarding => Some(Service::NodeGuarding),
        FrameKind::Control(byte) => Some(control_service(*byte)),
        FrameKind::OddControl(_) => Some(Service::Heartbeat),
        FrameKind::Emergency(_, _) | FrameKind::OddEmergency(_) => Some(Service::Emergency),
        FrameKind::Process(_, _) => role_service(role),
        FrameKind::Sdo(_, _) => ended_service(ended),
        _ => None,
    }
}

/// Counts a service, if a frame is of one.
#[tactic(auto, unfolding(crate::specs::Coverages::services_with))]
pub(crate) fn count_service(services: &mut [Served], service: Option<Service>)
    ensures { services.new ≡ services_with service services.old }
{
    let Some(service) = service else {
        return;
    };
    let place = service.number();
    if place < services.len() {
        let served = &mut services[place];
        served.count = served.count.saturating_add(1);
    }
}

fn role_lane(role: Role) -> Option<Lane>
    ensures { result ≡ role_lane role }
{
    match role {
        Role::Tpdo(_, _) => Some(Lane::Tpdos),
        Role::Rpdo(_) => Some(Lane::Rpdos),
        _ => None,
    }
}

/// In which lane a frame is.
#[tactic(auto, unfolding(crate::specs::Coverages::lane_of))]
pub(crate) fn lane_of(kind: &FrameKind, role: Role) -> Option<Lane>
    ensures { result ≡ lane_of kind.now role }
{
    match kind {
        FrameKind::Control(_) | FrameKind::OddControl(_) => Some(Lane::Heartbeats),
        FrameKind::Emergency(_, _) | FrameKind::OddEmergency(_) => Some(Lane::Emergencies),
        FrameKind::Sdo(_, _) => Some(Lane::Transfers),
        FrameKind::Process(_, _) => role_lane(role),
        _ => None,
    }
}
