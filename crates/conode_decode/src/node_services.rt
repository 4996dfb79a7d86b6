//! The texts of frames by their service. Each function appends a text. `Err`: out of memory; a part
//! of the text may be there.

ghost use Rattle.std.specs.Prelude.{◌≡◌, ◌<◌, ◌++◌, OnOk, string_bytes};
ghost use Rattle.co_sheet_changes.specs.Names.{names_view};
ghost use Rattle.conode_decode.specs.Texts.{
  emergency_text,
  heartbeat_text,
  named_answer,
  named_request,
  nmt_service_text,
  nmt_text,
  of_node,
  pdo_text,
  sdo_answer_text,
  sdo_request_text,
  service_text,
  sync_text,
  text_of_frame,
  unknown_text,
};

use crate::names::push_name;
use crate::numbers::push_words;
use crate::sdo_texts::{answer_key, push_answer, push_request, request_key};
use crate::service::Service;
use co_frame::{
    Emergency, Frame, Heartbeat, NmtCommand, NmtService, SdoRequest, SdoResponse, Sync,
};
use co_sheet_changes::Names;
use co_text::{push_byte, push_decimal, push_u16};
use std::alloc::AllocError;

fn nmt_service_text(service: NmtService) -> &'static str
    ensures { result.now ≡ nmt_service_text service }
{
    match service {
        NmtService::Start => "start",
        NmtService::Stop => "stop",
        NmtService::EnterPreOperational => "pre-operational",
        NmtService::ResetNode => "reset-node",
        NmtService::ResetCommunication => "reset-communication",
    }
}

#[tactic(auto, unfolding(crate::specs::Texts::nmt_text))]
fn push_nmt(text: &mut String, command: NmtCommand) -> Result<(), AllocError>
    ensures { OnOk result (string_bytes text.new ≡ string_bytes text.old ++ nmt_text command) }
{
    attempt!(push_words(text, "NMT "));
    attempt!(push_words(text, nmt_service_text(command.service)));
    attempt!(push_words(text, " "));
    push_decimal(text, command.node as u64)
}

#[tactic(auto, unfolding(crate::specs::Texts::sync_text))]
fn push_sync(text: &mut String, sync: Sync) -> Result<(), AllocError>
    ensures { OnOk result (string_bytes text.new ≡ string_bytes text.old ++ sync_text sync) }
{
    attempt!(push_words(text, "SYNC"));
    let Some(counter) = sync.counter else {
        return Ok(());
    };
    attempt!(push_words(text, " "));
    push_decimal(text, counter as u64)
}

#[tactic(auto, unfolding(crate::specs::Texts::of_node))]
fn push_of_node(text: &mut String, service: &str, node: u8) -> Result<(), AllocError>
    ensures { OnOk result
        (string_bytes text.new ≡ string_bytes text.old ++ of_node service.now node) }
{
    attempt!(push_words(text, service));
    attempt!(push_words(text, " node "));
    push_decimal(text, node as u64)
}

#[tactic(auto, unfolding(crate::specs::Texts::emergency_text))]
fn push_emergency(text: &mut String, node: u8, emergency: Emergency) -> Result<(), AllocError>
    ensures { OnOk result
        (string_bytes text.new ≡ string_bytes text.old ++ emergency_text node emergency) }
{
    attempt!(push_of_node(text, "EMCY", node));
    attempt!(push_words(text, " code "));
    attempt!(push_u16(text, emergency.code));
    attempt!(push_words(text, " register "));
    push_byte(text, emergency.register)
}

#[tactic(auto, unfolding(crate::specs::Texts::pdo_text, crate::specs::Texts::of_node))]
fn push_pdo(text: &mut String, service: &str, number: u8, node: u8) -> Result<(), AllocError>
    ensures { OnOk result
        (string_bytes text.new ≡ string_bytes text.old ++ pdo_text service.now number node) }
{
    attempt!(push_words(text, service));
    attempt!(push_decimal(text, number as u64));
    attempt!(push_words(text, " node "));
    push_decimal(text, node as u64)
}

fn push_heartbeat(text: &mut String, node: u8, heartbeat: Heartbeat) -> Result<(), AllocError>
    ensures { OnOk result
        (string_bytes text.new ≡ string_bytes text.old ++ heartbeat_text node heartbeat) }
{
    let (service, state) = match heartbeat {
        Heartbeat::BootUp => ("boot-up", ""),
        Heartbeat::Stopped => ("heartbeat", " stopped"),
        Heartbeat::Operational => ("heartbeat", " operational"),
        Heartbeat::PreOperational => ("heartbeat", " pre-operational"),
    };
    attempt!(push_of_node(text, service, node));
    push_words(text, state)
}

fn push_unknown(text: &mut String) -> Result<(), AllocError>
    ensures { OnOk result (string_bytes text.new ≡ string_bytes text.old ++ unknown_text) }
{
    push_words(text, "unknown")
}

#[tactic(auto, unfolding(crate::specs::Texts::named_request))]
fn push_named_request(
    text: &mut String,
    names: Names<'_, '_>,
    node: u8,
    frame: &Frame,
) -> Result<(), AllocError>
    ensures { OnOk result (string_bytes text.new
        ≡ string_bytes text.old ++ named_request (names_view names.entry) node frame.now.bytes) }
{
    let Some(request) = SdoRequest::read(frame) else {
        return push_unknown(text);
    };
    attempt!(push_request(text, &request));
    push_name(text, names, node, request_key(&request))
}

#[tactic(auto, unfolding(crate::specs::Texts::sdo_request_text))]
fn push_sdo_request(
    text: &mut String,
    names: Names<'_, '_>,
    node: u8,
    frame: &Frame,
) -> Result<(), AllocError>
    ensures { OnOk result (string_bytes text.new
        ≡ string_bytes text.old ++ sdo_request_text (names_view names.entry) node frame.now.bytes) }
{
    attempt!(push_of_node(text, "SDO request", node));
    attempt!(push_words(text, " "));
    push_named_request(text, names, node, frame)
}

#[tactic(auto, unfolding(crate::specs::Texts::named_answer))]
fn push_named_answer(
    text: &mut String,
    names: Names<'_, '_>,
    node: u8,
    frame: &Frame,
) -> Result<(), AllocError>
    ensures { OnOk result (string_bytes text.new
        ≡ string_bytes text.old ++ named_answer (names_view names.entry) node frame.now.bytes) }
{
    let Some(answer) = SdoResponse::read(frame) else {
        return push_unknown(text);
    };
    attempt!(push_answer(text, &answer));
    push_name(text, names, node, answer_key(&answer))
}

#[tactic(auto, unfolding(crate::specs::Texts::sdo_answer_text))]
fn push_sdo_answer(
    text: &mut String,
    names: Names<'_, '_>,
    node: u8,
    frame: &Frame,
) -> Result<(), AllocError>
    ensures { OnOk result (string_bytes text.new
        ≡ string_bytes text.old ++ sdo_answer_text (names_view names.entry) node frame.now.bytes) }
{
    attempt!(push_of_node(text, "SDO answer", node));
    attempt!(push_words(text, " "));
    push_named_answer(text, names, node, frame)
}

fn push_service(
    text: &mut String,
    names: Names<'_, '_>,
    node: u8,
    service: Service,
    frame: &Frame,
) -> Result<(), AllocError>
    ensures { OnOk result (string_bytes text.new ≡ string_bytes text.old
        ++ service_text (names_view names.entry) node frame.now.bytes service) }
{
    match service {
        Service::Emergency => match Emergency::read(frame) {
            Some(emergency) => push_emergency(text, node, emergency),
            None => push_unknown(text),
        },
        Service::Tpdo(number) => push_pdo(text, "TPDO", number, node),
        Service::Rpdo(number) => push_pdo(text, "RPDO", number, node),
        Service::SdoAnswer if frame.bytes().len() == 8 => push_sdo_answer(text, names, node, frame),
        Service::SdoRequest if frame.bytes().len() == 8 => {
            push_sdo_request(text, names, node, frame)
        }
        Service::SdoAnswer | Service::SdoRequest => push_unknown(text),
        Service::ErrorControl => match Heartbeat::read(frame) {
            Some(heartbeat) => push_heartbeat(text, node, heartbeat),
            None => push_unknown(text),
        },
    }
}

/// Appends the text of a frame, by its identifier and its service (CiA 301, 7.3.3, pre-defined
/// connection set), with the names of entries. `Err`: out of memory; a part of the text may be
/// there.
#[tactic(auto, unfolding(crate::specs::Texts::text_of_frame))]
pub fn push_text(text: &mut String, names: Names<'_, '_>, frame: &Frame) -> Result<(), AllocError>
    ensures { OnOk result (string_bytes text.new
        ≡ string_bytes text.old ++ text_of_frame (names_view names.entry) frame.now) }
{
    let id = frame.id();
    if id == 0 {
        return match NmtCommand::read(frame) {
            Some(command) => push_nmt(text, command),
            None => push_unknown(text),
        };
    }
    if id == 0x080 {
        return match Sync::read(frame) {
            Some(sync) => push_sync(text, sync),
            None => push_unknown(text),
        };
    }
    let node = id % 128;
    if node == 0 {
        return push_unknown(text);
    }
    match Service::at(id - node) {
        Some(service) => push_service(text, names, node as u8, service, frame),
        None => push_unknown(text),
    }
}
