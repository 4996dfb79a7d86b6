//! What a frame says.

ghost use Rattle.std.specs.Prelude.{◌≡◌, ◌++◌, ◌<◌, true, OnOk, string_bytes};
ghost use Rattle.co_sheet_changes.specs.Names.{names_view};
ghost use Rattle.conode_explain_cob_ids.specs.Buses.{bus_view};
ghost use Rattle.conode_explain_services.specs.ErrorFrames.{error_words};
ghost use Rattle.conode_record.specs.Grammar.{IsIdentifier};
ghost use Rattle.conode_record.specs.declared.fields.Identifier.TheVariants.{Base};
ghost use Rattle.conode_explain.specs.Nodes.{last_at};
ghost use Rattle.conode_explain.specs.FrameWords.{
  assumed_front,
  assumed_mark,
  assumed_words,
  decoded_words,
  frame_words,
  is_bare_sync,
  is_default_pdo,
  is_default_service,
  is_of_drive,
  other_words,
  plain_words,
  served_words,
  sync_words,
  words_of_content,
};

use crate::abort_words::push_abort_words;
use crate::node_digits::push_node;
use crate::own_words::push_own_words;
use crate::progress::last_of;
use crate::transfer::{push_transfer, transfer_in};
use co_frame::Frame;
use co_sheet_changes::Names;
use co_value::PackedBytes;
use conode_decode::push_text;
use conode_explain_cob_ids::{Bus, Claim};
use conode_explain_pdo::push_pdos;
use conode_explain_services::{
    Last, Nodes, is_emergency, push_error, push_remote, push_service, push_state,
};
use conode_record::{Content, Identifier, Record};
use std::alloc::AllocError;

fn is_default_pdo(id: u16) -> bool
    ensures { result ≡ is_default_pdo id }
{
    (0x180 < id && id < 0x580) && id % 0x80 != 0
}

fn is_default_service(id: u16) -> bool
    ensures { result ≡ is_default_service id }
{
    0x07F < id && id < 0x101
}

fn assumed_mark(named: bool, id: u16) -> &'static str
    ensures { result.now ≡ assumed_mark named id }
{
    if is_default_pdo(id) || (is_default_service(id) && !named) {
        "~"
    } else {
        ""
    }
}

// the text of a frame, what an abort's code means, and the NMT state of its node
fn push_decoded_words(
    said: &mut String,
    names: Names<'_, '_>,
    last: &Last,
    frame: &Frame,
) -> Result<(), AllocError>
    ensures { OnOk result (string_bytes said.new
        ≡ string_bytes said.old ++ decoded_words (names_view names.entry) last.now frame.now) }
{
    attempt!(push_text(said, names, frame));
    attempt!(push_abort_words(said, frame));
    push_state(said, *last, frame)
}

// words of its own, where there are some, else these
#[tactic(auto, using(crate::proofs::ServiceLemmas::said_alone, crate::proofs::ServiceLemmas::others_alone))]
fn push_plain_words(
    said: &mut String,
    names: Names<'_, '_>,
    last: &Last,
    frame: &Frame,
) -> Result<(), AllocError>
    ensures { OnOk result (string_bytes said.new
        ≡ string_bytes said.old ++ plain_words (names_view names.entry) last.now frame.now) }
{
    match push_own_words(said, names, frame) {
        Ok(true) => Ok(()),
        Ok(false) => push_decoded_words(said, names, last, frame),
        Err(fault) => Err(fault),
    }
}

// by its service, else by its text
#[tactic(auto, unfolding(crate::specs::FrameWords::served_words), using(crate::proofs::ServiceLemmas::said_alone, crate::proofs::ServiceLemmas::others_alone))]
fn push_served_words(
    said: &mut String,
    names: Names<'_, '_>,
    drive: bool,
    last: &Last,
    frame: &Frame,
) -> Result<(), AllocError>
    ensures { OnOk result (string_bytes said.new
        ≡ string_bytes said.old ++ served_words (names_view names.entry) drive last.now frame.now) }
{
    match push_service(said, drive, *last, frame) {
        Ok(true) => Ok(()),
        Ok(false) => push_plain_words(said, names, last, frame),
        Err(fault) => Err(fault),
    }
}

// The sheet is asked last, since few frames are emergencies.
fn is_of_drive(bus: Bus<'_, '_, '_, '_, '_>, frame: &Frame) -> bool
    ensures { result ≡ is_of_drive (bus_view bus.entry) frame.now }
{
    is_emergency(frame) && bus.is_drive((frame.id() % 128) as u8)
}

// what a frame says as these PDOs, else by its service or its text
#[tactic(auto, unfolding(crate::specs::FrameWords::other_words))]
fn push_other_words(
    said: &mut String,
    bus: Bus<'_, '_, '_, '_, '_>,
    claims: &[Claim],
    named: bool,
    last: &Last,
    frame: &Frame,
) -> Result<(), AllocError>
    ensures { OnOk result (string_bytes said.new ≡ string_bytes said.old
        ++ other_words (bus_view bus.entry) claims.now named last.now frame.now) }
{
    match claims {
        [] => {
            attempt!(said.push_str(assumed_mark(named, frame.id())));
            let names = bus.names((frame.id() % 128) as u8);
            push_served_words(said, names, is_of_drive(bus, frame), last, frame)
        }
        _ => push_pdos(said, bus, frame.bytes(), claims),
    }
}

// what a frame says; apart from the words of most frames, which need less room on the stack
#[inline(never)]
#[tactic(auto, unfolding(crate::specs::FrameWords::frame_words, crate::specs::Transfers::transfer_words))]
fn push_frame_words(
    said: &mut String,
    bus: Bus<'_, '_, '_, '_, '_>,
    claims: &[Claim],
    named: bool,
    last: &Last,
    frame: &Frame,
) -> Result<(), AllocError>
    ensures { OnOk result (string_bytes said.new ≡ string_bytes said.old
        ++ frame_words (bus_view bus.entry) claims.now named last.now frame.now) }
{
    if let Some(transfer) = transfer_in(frame) {
        let device = bus.device(transfer.node);
        if let Some(row) = device.names.entry(transfer.node, transfer.key) {
            return push_transfer(said, device, &transfer, row);
        }
    }
    push_other_words(said, bus, claims, named, last, frame)
}

fn assumed_front(step: u16) -> &'static str
    ensures { result.now ≡ assumed_front step }
{
    match step {
        3 => "~TPDO1 node ",
        4 => "~RPDO1 node ",
        5 => "~TPDO2 node ",
        6 => "~RPDO2 node ",
        7 => "~TPDO3 node ",
        8 => "~RPDO3 node ",
        9 => "~TPDO4 node ",
        _ => "~RPDO4 node ",
    }
}

#[tactic(auto, unfolding(crate::specs::FrameWords::assumed_words))]
fn push_assumed_words(said: &mut String, id: u16) -> Result<(), AllocError>
    ensures { OnOk result (string_bytes said.new ≡ string_bytes said.old ++ assumed_words id) }
{
    attempt!(said.push_str(assumed_front(id / 128)));
    push_node(said, (id % 128) as u8)
}

fn is_bare_sync(id: u16, bytes: &PackedBytes) -> bool
    ensures { result ≡ is_bare_sync id bytes.now }
{
    id == 0x080 && bytes.len() == 0
}

fn push_sync(said: &mut String, named: bool) -> Result<(), AllocError>
    ensures { OnOk result (string_bytes said.new ≡ string_bytes said.old ++ sync_words named) }
{
    said.push_str(if named { "SYNC" } else { "~SYNC" })
}

// what data with an identifier of 11 bits say that is no PDO of the pre-defined connection set, of
// this frame
#[inline(always)]
fn push_other_base_words(
    said: &mut String,
    bus: Bus<'_, '_, '_, '_, '_>,
    claims: &[Claim],
    named: bool,
    nodes: &Nodes,
    id: u16,
    bytes: &PackedBytes,
    frame: &Record<'_>,
) -> Result<(), AllocError>
    requires id { id < 2048 }
    requires of { IsIdentifier frame.now.id }
    ensures { OnOk result (string_bytes said.new ≡ string_bytes said.old
        ++ frame_words (bus_view bus.entry) claims.now named (last_at nodes.now (Base id) frame.now)
        (record { id = id; bytes = bytes.now })) }
{
    match claims {
        [] if is_bare_sync(id, bytes) => push_sync(said, named),
        _ => {
            let last = last_of(nodes, Identifier::Base(id), frame);
            push_frame_words(said, bus, claims, named, &last, &Frame::packed(id, bytes))
        }
    }
}

// what data with an identifier of 11 bits say, of this frame
fn push_base_words(
    said: &mut String,
    bus: Bus<'_, '_, '_, '_, '_>,
    claims: &[Claim],
    named: bool,
    nodes: &Nodes,
    id: u16,
    bytes: &PackedBytes,
    frame: &Record<'_>,
) -> Result<(), AllocError>
    requires id { id < 2048 }
    requires of { IsIdentifier frame.now.id }
    ensures { OnOk result (string_bytes said.new ≡ string_bytes said.old
        ++ frame_words (bus_view bus.entry) claims.now named (last_at nodes.now (Base id) frame.now)
        (record { id = id; bytes = bytes.now })) }
{
    match claims {
        // most frames of most recordings
        [] if is_default_pdo(id) => push_assumed_words(said, id),
        _ => push_other_base_words(said, bus, claims, named, nodes, id, bytes, frame),
    }
}

// what an error frame says; apart from the words of most frames, which need less room on the stack
#[inline(never)]
fn push_error_frame(said: &mut String, class: u32, bytes: &PackedBytes) -> Result<(), AllocError>
    ensures { OnOk result
        (string_bytes said.new ≡ string_bytes said.old ++ error_words class bytes.now) }
{
    push_error(said, class, bytes.to_list().as_slice())
}

/// Sets `said` to what a frame says that is read as one with this identifier; `claims` are the PDOs
/// that it is, `named` is whether a COB-ID of a channel or of a service has its identifier, `nodes`
/// have what the last frames of its node had. On an `Err` memory ran out, and it is incomplete.
// inlined, so that no copy of `bus` is made for the words of most frames, which don't look at it
#[inline(always)]
#[tactic(auto, unfolding(crate::specs::FrameWords::words_of_content))]
pub(crate) fn set_words(
    said: &mut String,
    bus: Bus<'_, '_, '_, '_, '_>,
    claims: &[Claim],
    named: bool,
    nodes: &Nodes,
    id: Identifier,
    frame: &Record<'_>,
) -> Result<(), AllocError>
    requires id { IsIdentifier id }
    requires of { IsIdentifier frame.now.id }
    ensures { OnOk result (string_bytes said.new ≡ words_of_content (bus_view bus.entry)
        claims.now named (last_at nodes.now id frame.now) id frame.now.content) }
{
    said.clear();
    match (&frame.content, id) {
        (Content::Data(bytes), Identifier::Base(id)) => {
            push_base_words(said, bus, claims, named, nodes, id, bytes, frame)
        }
        (Content::Data(_), Identifier::Extended(_)) => {
            said.push_str("frame with an identifier of 29 bits")
        }
        (Content::Data(bytes), Identifier::Error(class)) => push_error_frame(said, class, bytes),
        (Content::Remote(_), Identifier::Base(id)) => push_remote(said, id),
        (Content::Remote(_), Identifier::Extended(_) | Identifier::Error(_)) => {
            said.push_str("remote frame")
        }
        (Content::Fd(_, _), _) => said.push_str("CAN FD frame"),
    }
}
