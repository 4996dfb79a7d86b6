//! What is said of SDO transfers: of their frames, and of those that ended.

ghost use Rattle.std.specs.Prelude.{◌≡◌, ◌++◌, OnOk, string_bytes};
ghost use Rattle.co_sheet_changes.specs.Names.{names_view};
ghost use Rattle.conode_explain_cob_ids.specs.Buses.{bus_view};
ghost use Rattle.conode_record.specs.Grammar.{IsIdentifier};
ghost use Rattle.co_text.specs.Printed.{digits_text};
ghost use Rattle.conode_explain.specs.Nodes.{last_at};
ghost use Rattle.conode_explain_entries.specs.Ends.{quoted};
ghost use Rattle.conode_explain.specs.ToldWords.{
  accepted_key,
  accepted_words,
  channel_words,
  ended_words,
  ending_words,
  name_bytes,
  part_words,
  name_in,
  response_key,
  told_words,
  transfer_words,
};

use crate::abort_words::words_of;
use crate::frame_words::set_words;
use crate::transfer::push_service;
use co_frame::{Frame, SdoResponse};
use co_sheet_changes::{Names, shown_name};
use co_text::{push_byte, push_decimal, push_digit};
use co_value::Key;
use conode_explain_cob_ids::{Bus, Claim};
use conode_explain_entries::{
    ChannelIds, push_after, push_end, push_segment, push_transfer, segment_number,
};
use conode_explain_forms::{push_end_value, push_refusal};
use conode_explain_services::Nodes;
use conode_explain_transfers::{Ended, Ending, Part, Side, Told, What};
use conode_record::{Content, Identifier, Record};
use std::alloc::AllocError;

// the name of a node's entry; empty where it has none
#[tactic(auto, unfolding(crate::specs::ToldWords::name_bytes))]
fn name_of<'s>(names: Names<'s, '_>, node: u8, key: Key) -> &'s str
    ensures { result.now ≡ name_bytes (names_view names.entry) node key }
{
    match names.entry(node, key) {
        Some(row) => match shown_name(row) {
            Some(name) => name,
            None => "",
        },
        None => "",
    }
}

fn name_in<'s>(names: Names<'s, '_>, node: u8, of: Option<Key>) -> &'s str
    ensures { result.now ≡ name_in (names_view names.entry) node of }
{
    match of {
        Some(key) => name_of(names, node, key),
        None => "",
    }
}

#[tactic(auto, unfolding(crate::specs::ToldWords::part_words))]
fn set_part_words(
    said: &mut String,
    bus: Bus<'_, '_, '_, '_, '_>,
    claims: &[Claim],
    named: bool,
    nodes: &Nodes,
    id: Identifier,
    frame: &Record<'_>,
    node: u8,
    part: Part,
) -> Result<(), AllocError>
    requires id { IsIdentifier id }
    requires of { IsIdentifier frame.now.id }
    ensures { OnOk result (string_bytes said.new
        ≡ part_words (bus_view bus.entry) claims.now named (last_at nodes.now id frame.now) id
        frame.now.content node part) }
{
    let name = name_in(bus.names(node), node, part.of);
    let Some(number) = segment_number(part.what) else {
        attempt!(set_words(said, bus, claims, named, nodes, id, frame));
        return push_after(said, part.what, part.of, name);
    };
    said.clear();
    attempt!(push_segment(said, part.side, node, number));
    push_after(said, part.what, part.of, name)
}

// the entry of the response to a download's initiate request
fn response_key(content: &Content<'_>) -> Option<Key>
    ensures { result ≡ response_key content.now }
{
    match content {
        Content::Data(bytes) => match SdoResponse::read(&Frame::packed(0, bytes)) {
            Some(SdoResponse::DownloadDone { key }) => Some(key),
            _ => None,
        },
        _ => None,
    }
}

// the entry of a download that goes on with the frame that is such a response
fn accepted_key(side: Side, what: What, ended: &Option<Ended>, content: &Content<'_>) -> Option<Key>
    ensures { result ≡ accepted_key side what ended.now content.now }
{
    match (side, what, ended) {
        (Side::Server, What::Part, None) => response_key(content),
        _ => None,
    }
}

fn push_quoted(said: &mut String, name: &str) -> Result<(), AllocError>
    ensures { OnOk result (string_bytes said.new ≡ string_bytes said.old ++ quoted name.now) }
{
    if name.is_empty() {
        return Ok(());
    }
    attempt!(said.push_str(" \""));
    attempt!(said.push_str(name));
    said.push_str("\"")
}

#[tactic(auto, unfolding(crate::specs::ToldWords::accepted_words))]
fn push_accepted(said: &mut String, node: u8, key: Key, name: &str) -> Result<(), AllocError>
    ensures { OnOk result
        (string_bytes said.new ≡ string_bytes said.old ++ accepted_words node key name.now) }
{
    attempt!(push_service(said, "SDO answer node ", node, " download "));
    attempt!(said.push_str(key.text().as_str()));
    attempt!(said.push_str(" accepted"));
    push_quoted(said, name)
}

/// Sets `said` to what a frame says that is read as one with this identifier; `claims` are the PDOs
/// that it is, `named` is whether a COB-ID of a channel or of a service has its identifier, `nodes`
/// have what the last frames of its node had, `told` is what its SDO channel says about it. On an
/// `Err` memory ran out, and it is incomplete.
pub(crate) fn set_told_words(
    said: &mut String,
    bus: Bus<'_, '_, '_, '_, '_>,
    claims: &[Claim],
    named: bool,
    nodes: &Nodes,
    id: Identifier,
    frame: &Record<'_>,
    told: &Option<Told>,
) -> Result<(), AllocError>
    requires id { IsIdentifier id }
    requires of { IsIdentifier frame.now.id }
    ensures { OnOk result (string_bytes said.new
        ≡ told_words (bus_view bus.entry) claims.now named (last_at nodes.now id frame.now) id
        frame.now.content told.now) }
{
    let Some(told) = told else {
        return set_words(said, bus, claims, named, nodes, id, frame);
    };
    let Some(part) = told.part else {
        return set_words(said, bus, claims, named, nodes, id, frame);
    };
    if let Some(key) = accepted_key(part.side, part.what, &told.ended, &frame.content) {
        said.clear();
        return push_accepted(
            said,
            told.node,
            key,
            name_of(bus.names(told.node), told.node, key),
        );
    }
    set_part_words(said, bus, claims, named, nodes, id, frame, told.node, part)
}

// what the code of an abort means
fn ending_words(ending: Ending) -> &'static str
    ensures { result.now ≡ ending_words ending }
{
    match ending {
        Ending::Aborted { by: _, code } => words_of(code.0),
        _ => "",
    }
}

// an identifier, in three digits
#[tactic(auto, unfolding(co_text::specs::Printed::digits_text))]
fn push_identifier(said: &mut String, id: u16) -> Result<(), AllocError>
    ensures { OnOk result (string_bytes said.new ≡ string_bytes said.old ++ digits_text 16 3 id) }
{
    attempt!(push_digit(said, (id / 256 % 16) as u8));
    push_byte(said, (id % 256) as u8)
}

fn push_channel(said: &mut String, ids: Option<ChannelIds>) -> Result<(), AllocError>
    ensures { OnOk result (string_bytes said.new ≡ string_bytes said.old ++ channel_words ids) }
{
    let Some(ids) = ids else {
        return Ok(());
    };
    attempt!(said.push_str(" channel "));
    attempt!(push_identifier(said, ids.request));
    attempt!(said.push_str("/"));
    push_identifier(said, ids.answer)
}

// what was transferred, and how it ended
#[tactic(auto, unfolding(crate::specs::ToldWords::transfer_words))]
fn push_transfer_words(
    said: &mut String,
    names: Names<'_, '_>,
    node: u8,
    ended: &Ended,
) -> Result<(), AllocError>
    ensures { OnOk result (string_bytes said.new
        ≡ string_bytes said.old ++ transfer_words (names_view names.entry) node ended.now) }
{
    attempt!(push_transfer(said, ended, name_of(names, node, ended.key)));
    attempt!(push_end_value(said, names, node, ended));
    attempt!(push_end(said, ended, ending_words(ended.ending)));
    push_refusal(said, names, node, ended)
}

/// Sets `said` to what is said of a node's transfer that ended; `ids` are those of its channel,
/// where that isn't the default one. On an `Err` memory ran out, and it is incomplete.
#[tactic(auto, unfolding(crate::specs::ToldWords::ended_words))]
pub(crate) fn set_ended_words(
    said: &mut String,
    names: Names<'_, '_>,
    node: u8,
    ids: Option<ChannelIds>,
    ended: &Ended,
) -> Result<(), AllocError>
    ensures { OnOk result (string_bytes said.new
        ≡ ended_words (names_view names.entry) node ids ended.now) }
{
    said.clear();
    attempt!(said.push_str("node "));
    attempt!(push_decimal(said, node as u64));
    attempt!(push_channel(said, ids));
    attempt!(said.push_str("  "));
    push_transfer_words(said, names, node, ended)
}
