//! What the statistics take of a data sheet.

use crate::bit_rate::bit_rate_in;
use co_profile::PRODUCER_HEARTBEAT;
use co_sheet::{EntryRow, Preset, Sheet};
use conode_sheets::SheetWord;
use conode_stats_text::SheetFacts;

// the number that a sheet has for an entry, if it has 16 bits
fn number_in(entry: &EntryRow<'_>) -> Option<u16> {
    match entry.default {
        Preset::Number(number) if 0 <= number && number < 0x1_0000 => Some(number as u16),
        _ => None,
    }
}

// the number that a sheet has for the producer heartbeat time, if it has one
fn time_in(sheet: &Sheet<'_>) -> Option<u16> {
    for entry in sheet.entries() {
        if entry.key.index == PRODUCER_HEARTBEAT && entry.key.sub == 0 {
            return number_in(entry);
        }
    }
    None
}

/// What a sheet with this text has: the producer heartbeat time, ParameterValue, or else
/// DefaultValue; the bit rate of a device configuration file. It is for the node and the interface
/// that a word names; without a node for that of the sheet, a device configuration file; else for
/// each.
pub(crate) fn facts_of<'a>(sheet: &Sheet<'_>, text: &[u8], word: &SheetWord<'a>) -> SheetFacts<'a> {
    let node = match word.node {
        Some(node) => Some(node),
        None => sheet.node_id(),
    };
    SheetFacts {
        interface: word.interface,
        node,
        time: time_in(sheet).unwrap_or(0),
        bit_rate: bit_rate_in(text).unwrap_or(0),
    }
}
