//! Which of SYNC, TIME and the emergencies a frame is, by the data sheets and by what the recording
//! shows.

ghost use Rattle.std.specs.Prelude.{◌≡◌, ◌<◌, filter_map, map};
ghost use Rattle.conode_explain_cob_ids.specs.Buses.{bus_view};
ghost use Rattle.conode_explain_cob_ids.specs.Known.{known_view, services_for};
ghost use Rattle.conode_explain_cob_ids.specs.ServiceIds.{
  first_service,
  is_for_all,
  is_named,
  service_at,
  service_by_sheet,
  service_by_shown,
  service_of,
  service_on,
  service_with,
  service_word,
  shows_id,
  shows_service,
  word_of,
};

use crate::bus::Bus;
use crate::channel_words::shown_at;
use crate::cob_id::{is_node, may_be_pdo};
use crate::known::sheet_for;
use crate::known_sheet::KnownSheet;
use crate::named::{may_name, names_id};
use crate::origin::value_at;
use crate::sheet_services::{SheetService, is_service_index};
use co_value::Key;
use conode_explain_entries::{ShownPdo, Value};

/// A service with an identifier that a COB-ID gives it, other than PDOs and SDO channels.
#[derive(Clone, Copy)]
pub enum NamedService {
    /// SYNC (CiA 301, 7.2.5).
    Sync,
    /// TIME (CiA 301, 7.2.6).
    Time,
    /// The emergencies of a node (CiA 301, 7.2.7).
    Emergency { node: u8 },
}

fn service_of(index: u16, node: u8) -> NamedService
    ensures { result ≡ service_of index node }
{
    if index == 0x1005 {
        NamedService::Sync
    } else if index == 0x1012 {
        NamedService::Time
    } else {
        NamedService::Emergency { node }
    }
}

// the COB-ID of an index among those of a sheet, for a node
fn word_of(services: &[SheetService], index: u16, node: u8) -> Option<u64>
    ensures { result ≡ word_of services.now index node }
{
    for service in services {
        if service.index == index {
            return Some(service.cob_id.word_for(node as u64));
        }
    }
    None
}

// the COB-ID of the sheet that is for a node
fn sheet_word(bus: Bus<'_, '_, '_, '_, '_>, node: u8, index: u16) -> Option<u64>
    ensures { result ≡ word_of
        (services_for (bus_view bus.entry).sheets (bus_view bus.entry).interface node) index node }
{
    match sheet_for(bus.sheets, bus.interface, node) {
        Some(sheet) => word_of(sheet.services.as_slice(), index, node),
        None => None,
    }
}

#[tactic(auto, unfolding(crate::specs::ServiceIds::service_word))]
fn service_word(bus: Bus<'_, '_, '_, '_, '_>, node: u8, index: u16) -> Option<u64>
    ensures { result ≡ service_word (bus_view bus.entry) node index }
{
    match shown_at(bus, node, Key { index, sub: 0 }) {
        Value::Assumed => sheet_word(bus, node, index),
        Value::Seen { number } => Some(number as u64),
        Value::Saved { number } => Some(number as u64),
        Value::Unknown => None,
    }
}

fn is_named(bus: Bus<'_, '_, '_, '_, '_>, node: u8, index: u16, id: u16) -> bool
    ensures { result ≡ is_named (bus_view bus.entry) node index id }
{
    match service_word(bus, node, index) {
        Some(word) => names_id(index, word, id),
        None => false,
    }
}

fn is_for_all(only: Option<u8>, service: &SheetService) -> bool
    ensures { result ≡ is_for_all only service.now }
{
    only.is_none() && (service.index != 0x1014 && !service.cob_id.with_node)
}

fn service_at(bus: Bus<'_, '_, '_, '_, '_>, id: u16, index: u16, node: u64) -> Option<NamedService>
    requires { node < 65536 }
    ensures { result ≡ service_at (bus_view bus.entry) id index node }
{
    if is_node(node) && is_named(bus, node as u8, index, id) {
        return Some(service_of(index, node as u8));
    }
    None
}

#[tactic(auto, unfolding(crate::specs::ServiceIds::service_by_sheet))]
fn service_by_sheet(
    bus: Bus<'_, '_, '_, '_, '_>,
    id: u16,
    only: Option<u8>,
    service: &SheetService,
) -> Option<NamedService>
    ensures { result ≡ service_by_sheet (bus_view bus.entry) id only service.now }
{
    if !may_name(only, id, service) {
        return None;
    }
    if is_for_all(only, service) {
        return Some(service_of(service.index, 0));
    }
    service_at(bus, id, service.index, service.cob_id.node_for(only, id))
}

fn service_among(
    bus: Bus<'_, '_, '_, '_, '_>,
    id: u16,
    only: Option<u8>,
    services: &[SheetService],
) -> Option<NamedService>
    ensures { result ≡ first_service
        (filter_map (service_by_sheet (bus_view bus.entry) id only) services.now) }
{
    for service in services {
        if let Some(found) = service_by_sheet(bus, id, only, service) {
            return Some(found);
        }
    }
    None
}

fn service_on(
    bus: Bus<'_, '_, '_, '_, '_>,
    id: u16,
    sheet: &KnownSheet<'_, '_>,
) -> Option<NamedService>
    ensures { result ≡ service_on (bus_view bus.entry) id (known_view sheet.now) }
{
    if !sheet.may_name(id) {
        return None;
    }
    if !sheet.is_on(bus.interface) {
        return None;
    }
    service_among(bus, id, sheet.names.only, sheet.services.as_slice())
}

fn service_in_sheets(bus: Bus<'_, '_, '_, '_, '_>, id: u16) -> Option<NamedService>
    ensures { result ≡ first_service (filter_map (service_on (bus_view bus.entry) id)
        (map known_view bus.entry.sheets.now)) }
{
    let sheets = bus.sheets;
    for sheet in sheets {
        if let Some(found) = service_on(bus, id, sheet) {
            return Some(found);
        }
    }
    None
}

fn shows_id(index: u16, value: Value, id: u16) -> bool
    ensures { result ≡ shows_id index value id }
{
    match value {
        Value::Seen { number } => names_id(index, number as u64, id),
        Value::Saved { number } => names_id(index, number as u64, id),
        Value::Assumed | Value::Unknown => false,
    }
}

fn shows_service(bus: Bus<'_, '_, '_, '_, '_>, id: u16, shown: &ShownPdo) -> bool
    ensures { result ≡ shows_service (bus_view bus.entry) id shown.now }
{
    is_service_index(shown.index)
        && (shows_id(shown.index, value_at(&shown.state.now.mapping, 0), id)
            && shown.interface.as_slice() == bus.interface)
}

#[tactic(auto, unfolding(crate::specs::ServiceIds::service_by_shown))]
fn service_by_shown(bus: Bus<'_, '_, '_, '_, '_>, id: u16, shown: &ShownPdo) -> Option<NamedService>
    ensures { result ≡ service_by_shown (bus_view bus.entry) id shown.now }
{
    if shows_service(bus, id, shown) {
        return Some(service_of(shown.index, shown.node));
    }
    None
}

fn service_in_shown(bus: Bus<'_, '_, '_, '_, '_>, id: u16) -> Option<NamedService>
    ensures { result ≡ first_service (filter_map (service_by_shown (bus_view bus.entry) id)
        (bus_view bus.entry).entries) }
{
    let pdos = bus.entries.shown();
    for shown in pdos {
        if let Some(found) = service_by_shown(bus, id, shown) {
            return Some(found);
        }
    }
    None
}

/// The service whose frame a frame with this identifier is, by the COB-IDs of SYNC (1005h), TIME
/// (1012h) and emergencies (1014h): those of the data sheets, and those that the recording shows;
/// `None` where none names it.
#[tactic(auto, unfolding(crate::specs::ServiceIds::service_with))]
pub fn service_with(bus: Bus<'_, '_, '_, '_, '_>, id: u16) -> Option<NamedService>
    ensures { result ≡ service_with (bus_view bus.entry) id }
{
    if !may_be_pdo(id) {
        return None;
    }
    match service_in_sheets(bus, id) {
        Some(found) => Some(found),
        None => service_in_shown(bus, id),
    }
}
