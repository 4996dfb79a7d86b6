//! SDO transfers that failed, or are open, and EMCY messages, in JSON. Each function writes tokens.

ghost use Rattle.std.specs.Prelude.{◌≡◌};
ghost use Rattle.conode_stats_text.specs.Papers.{IsAppended};
ghost use Rattle.conode_stats.specs.FailureTokens.{
  counted_tokens,
  failure_tokens,
  open_tokens_in,
  reason_members,
};
ghost use Rattle.conode_stats.specs.Parts.{part_tokens};

use crate::document::Document;
use crate::parts::{Part, Word};
use conode_explain_transfers::Ended;
use conode_stats_counts::{Bus, FailureRow, Reason, Tally};
use conode_stats_text::{Kind, is_waiting};

// how often something of a node came, and when
#[tactic(auto, unfolding(crate::specs::FailureTokens::counted_tokens))]
fn put_counted(document: &mut Document, row: &FailureRow, reason: Part<'_>)
    ensures { IsAppended document.old
        (counted_tokens row.now (part_tokens reason.entry)) document.new }
{
    document.put(&[
        Part::BeginObject,
        Part::Number("node", row.cause.node as u64),
        reason,
        Part::Number("count", row.count),
        Part::Number("first", row.first),
        Part::Number("last", row.last),
        Part::EndObject,
    ])
}

// the code of an abort, or of an EMCY message; of a confirmed transfer the result
fn reason_part(kind: Kind, reason: Reason) -> Part<'static>
    ensures { part_tokens result ≡ reason_members kind reason }
{
    match (kind, reason) {
        (Kind::Emergencies, Reason::Code(code)) => {
            Part::Word("errorCode", Word::Short((code % 65536) as u16))
        }
        (_, Reason::Code(code)) => Part::Word("abortCode", Word::Long(code)),
        (_, Reason::NoCode) => Part::Nothing,
        (_, Reason::OtherSize) => Part::Text("result", "sizeDiffers"),
        (_, Reason::WrongCrc) => Part::Text("result", "crcDiffers"),
    }
}

// SDO transfers that failed, or EMCY messages
#[tactic(auto, unfolding(crate::specs::FailureTokens::failure_tokens))]
fn put_row(document: &mut Document, kind: Kind, row: &FailureRow)
    ensures { IsAppended document.old (failure_tokens kind row.now) document.new }
{
    put_counted(document, row, reason_part(kind, row.cause.reason));
}

// those of a node
fn put_rows_of(document: &mut Document, kind: Kind, rows: &[FailureRow], node: u8) {
    for row in rows {
        if row.cause.node == node {
            put_row(document, kind, row);
        }
    }
}

// those of a bus, by node
fn put_rows(document: &mut Document, kind: Kind, rows: &[FailureRow]) {
    for node in 1..128u8 {
        put_rows_of(document, kind, rows, node);
    }
}

/// Writes how many frames of a bus have no row, its SDO transfers that failed, and those that are
/// open, and its EMCY messages.
pub(crate) fn put_failures(document: &mut Document, bus: &Bus) {
    let (transfers, emergencies) = (bus.transfers(), bus.emergencies());
    document.put(&[
        Part::Number("framesLeftOut", bus.left_out()),
        Part::Array("failedTransfers"),
    ]);
    put_rows(document, Kind::Failures, transfers.rows());
    document.put(&[
        Part::EndArray,
        Part::Number("failedTransfersLeftOut", transfers.left_out()),
        Part::Array("openTransfers"),
    ]);
    put_all_open(document, bus);
    document.put(&[Part::EndArray, Part::Array("emergencies")]);
    put_rows(document, Kind::Emergencies, emergencies.rows());
    document.put(&[
        Part::EndArray,
        Part::Number("emergenciesLeftOut", emergencies.left_out()),
    ])
}

// a transfer that is open at the end, if it had no frame for more than a second
#[tactic(auto, using(conode_stats_text::proofs::Appended::none), unfolding(crate::specs::FailureTokens::open_tokens, crate::specs::FailureTokens::key_members))]
fn put_open_in(document: &mut Document, node: u8, all: &Tally, transfer: &Option<Ended>)
    ensures { IsAppended document.old
        (open_tokens_in node all.now transfer.now) document.new }
{
    match transfer {
        Some(transfer) if is_waiting(all, transfer) => document.put(&[
            Part::BeginObject,
            Part::Number("node", node as u64),
            Part::Number("index", transfer.key.index as u64),
            Part::Number("subIndex", transfer.key.sub as u64),
            Part::Number("since", transfer.newest),
            Part::EndObject,
        ]),
        _ => {}
    }
}

// the SDO transfers that are open on a bus
fn put_all_open(document: &mut Document, bus: &Bus) {
    let all = bus.all();
    for track in bus.transfers().channels() {
        let transfer = track.channel.unfinished(all.last);
        put_open_in(document, track.node, &all, &transfer);
    }
}
