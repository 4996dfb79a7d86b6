//! The mapping of a PDO in the data sheet that is for its node.

ghost use Rattle.std.specs.Prelude.{◌≡◌, slice_index};
ghost use Rattle.std.specs.Option.{option_copied};
ghost use Rattle.conode_explain_cob_ids.specs.Buses.{bus_view};
ghost use Rattle.conode_explain_cob_ids.specs.SheetMappings.{
  if_there,
  is_assumed,
  mapping_of,
  sheet_count,
  sheet_mapping,
  sheet_word,
};

use crate::bus::Bus;
use crate::known::sheet_for;
use crate::origin::{Origin, is_from};
use crate::sheet::SheetPdo;
use arrayvec::ArrayVec;
use conode_explain_entries::Value;
use std::marker::Model;

/// A mapping parameter as a data sheet has it (CiA 301, 7.5.2.36 and 7.5.2.38).
/// Contracts see its sub-index 0, if the sheet has a number there, and its sub-indices from 1 on, 0
/// where the sheet has none.
#[derive(Drop)]
pub struct SheetMapping {
    // how many entries are mapped
    pub(crate) count: Option<u8>,
    // index, sub-index and length in bits of each entry
    pub(crate) words: ArrayVec<u32, 64>,
}

impl Model for SheetMapping {
    ghost use Rattle.conode_explain_cob_ids.specs.Content.{SheetMapping as SheetMappingContent};

    ghost Value = { SheetMappingContent };

    ghost view = { λ mapping. record { count = mapping.count; words = mapping.words.items } };
}

fn mapping_of(pdos: &[SheetPdo], index: u16) -> Option<&SheetMapping>
    ensures { option_copied result ≡ mapping_of pdos.now index }
{
    for pdo in pdos {
        if pdo.index == index {
            return Some(&pdo.mapping);
        }
    }
    None
}

/// What the data sheet that is for a node says of the mapping of its PDO (CiA 301, 7.5.2.36 and
/// 7.5.2.38), by the index of the PDO's communication parameter (1400h to 15FFh, 1800h to 19FFh);
/// `None` without a sheet, and where the sheet hasn't the PDO.
pub fn sheet_mapping<'k>(
    bus: Bus<'k, '_, '_, '_, '_>,
    node: u8,
    index: u16,
) -> Option<&'k SheetMapping>
    ensures { option_copied result ≡ sheet_mapping (bus_view bus.entry) node index }
{
    match sheet_for(bus.sheets, bus.interface, node) {
        Some(sheet) => mapping_of(sheet.pdos.as_slice(), index),
        None => None,
    }
}

// the number at a place, 0 past the last
fn word_at(words: &[u32], place: usize) -> u32
    ensures { result ≡ slice_index words.now place }
{
    if place < words.len() { words[place] } else { 0 }
}

/// How many entries the sheet's mapping of a PDO has, its sub-index 0 (CiA 301, 7.5.2.36 and
/// 7.5.2.38); `None` where the sheet has no number there, and without a mapping.
pub fn sheet_count(sheet: Option<&SheetMapping>) -> Option<u32>
    ensures { result ≡ sheet_count (option_copied sheet.entry) }
{
    match sheet {
        Some(mapping) => match mapping.count {
            Some(count) => Some(count as u32),
            None => None,
        },
        None => None,
    }
}

fn if_there(word: u32) -> Option<u32>
    ensures { result ≡ if_there word }
{
    if word == 0 { None } else { Some(word) }
}

/// A word of the sheet's mapping of a PDO, counted from 0 (CiA 301, 7.5.2.36 and 7.5.2.38): index
/// (bits 31 to 16), sub-index (bits 15 to 8) and length in bits (bits 7 to 0) of a mapped entry;
/// `None` where the sheet has none, or 0.
pub fn sheet_word(sheet: Option<&SheetMapping>, place: u8) -> Option<u32>
    ensures { result ≡ sheet_word (option_copied sheet.entry) place }
{
    match sheet {
        Some(mapping) => if_there(word_at(mapping.words.as_slice(), place as usize)),
        None => None,
    }
}

/// Whether no COB-ID of a PDO is known: its node's sheet doesn't have the PDO, and the recording
/// shows none (CiA 301, 7.5.2.35 and 7.5.2.37).
pub fn is_assumed(sheet: Option<&SheetMapping>, cob_id: Value) -> bool
    ensures { result ≡ is_assumed (option_copied sheet.entry) cob_id }
{
    sheet.is_none() && is_from(Origin::Sheet, cob_id)
}
