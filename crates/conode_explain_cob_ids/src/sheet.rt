//! The PDOs of a data sheet.

ghost use Rattle.std.specs.Prelude.{◌≡◌, ◌≤◌, ◌++◌, ◌%◌, IfOk, OnOk, true, filter_map, map, option_map};
ghost use Rattle.std.specs.List.{AllPairs};
ghost use Rattle.std.specs.Option.{option_to_list};
ghost use Rattle.co_profile.specs.Indices.{is_within};
ghost use Rattle.co_sheet.specs.SheetViews.{row_view};
ghost use Rattle.co_sheet.specs.Views.{default_view};
ghost use Rattle.co_value.specs.Keys.{is_key_before};
ghost use Rattle.co_sheet_changes.specs.Names.{names_view};
ghost use Rattle.conode_explain_cob_ids.specs.Sheets.{
  is_cob_id,
  mapping_at,
  number_at,
  number_of,
  pdo_of,
  pdos_in,
  sheet_pdos,
  word_at,
  words_at,
};

use crate::cob_id::{BOUND, SheetCobId, cob_id_of};
use crate::sheet_mappings::SheetMapping;
use arrayvec::ArrayVec;
use co_profile::IndexRange;
use co_sheet::{EntryRow, Preset};
use co_sheet_changes::{Names, row_at};
use co_value::Key;
use std::alloc::{AllocError, Global};

/// A PDO of a data sheet.
#[derive(Drop)]
pub struct SheetPdo {
    /// The index of its communication parameter: 1400h to 15FFh, 1800h to 19FFh.
    pub index: u16,
    /// Its COB-ID.
    pub cob_id: SheetCobId,
    /// Its mapping parameter.
    pub mapping: SheetMapping,
}

/// The number of 32 bits, without the node-ID, that an entry begins with; `None` where the sheet
/// has none.
pub(crate) fn number_of(default: Preset<'_>) -> Option<u32>
    ensures { result ≡ number_of (default_view default.entry) }
{
    match default {
        Preset::Number(number) if 0 <= number && number < i128::from(BOUND) => Some(number as u32),
        _ => None,
    }
}

// the number that an entry begins with, of rows in increasing key
#[tactic(auto, unfolding(crate::specs::Sheets::number_at))]
fn number_at(rows: &[EntryRow<'_>], index: u16, sub: u8) -> Option<u32>
    requires { AllPairs (λ e f. is_key_before e.key f.key ≡ true) rows.now }
    ensures { result ≡ number_at (map row_view rows.now) index sub }
{
    match row_at(rows, Key { index, sub }) {
        Some(row) => number_of(row.default),
        None => None,
    }
}

// a word of a mapping parameter, 0 where the sheet has none
fn word_at(rows: &[EntryRow<'_>], index: u16, sub: u8) -> u32
    requires { AllPairs (λ e f. is_key_before e.key f.key ≡ true) rows.now }
    ensures { result ≡ word_at (map row_view rows.now) index sub }
{
    match number_at(rows, index, sub) {
        Some(word) => word,
        None => 0,
    }
}

// the first words of a mapping parameter
#[tactic(auto, unfolding(crate::specs::Sheets::words_at))]
fn words_at(rows: &[EntryRow<'_>], index: u16) -> ArrayVec<u32, 64>
    requires { AllPairs (λ e f. is_key_before e.key f.key ≡ true) rows.now }
    ensures { result.items ≡ words_at (map row_view rows.now) index 64 }
{
    let mut words = ArrayVec::new();
    for count in 0u8..64 {
        words.push(word_at(rows, index, count + 1));
    }
    words
}

fn low_byte(number: Option<u32>) -> Option<u8>
    ensures { result ≡ option_map (λ count. count % 256) number }
{
    match number {
        Some(number) => Some((number % 256) as u8),
        None => None,
    }
}

#[tactic(auto, unfolding(crate::specs::Sheets::mapping_at))]
fn mapping_at(rows: &[EntryRow<'_>], index: u16) -> SheetMapping
    requires { AllPairs (λ e f. is_key_before e.key f.key ≡ true) rows.now }
    ensures { result ≡ mapping_at (map row_view rows.now) index }
{
    SheetMapping {
        count: low_byte(number_at(rows, index, 0)),
        words: words_at(rows, index),
    }
}

fn is_cob_id(range: IndexRange, key: Key) -> bool
    ensures { result ≡ is_cob_id range key }
{
    key.sub == 1 && range.contains(key.index)
}

// the PDO of a kind whose COB-ID an entry is
#[tactic(auto, unfolding(crate::specs::Sheets::pdo_of))]
fn pdo_of(rows: &[EntryRow<'_>], range: IndexRange, row: &EntryRow<'_>) -> Option<SheetPdo>
    requires rows { AllPairs (λ e f. is_key_before e.key f.key ≡ true) rows.now }
    requires range { range.1 ≤ 0x2000 }
    ensures { result ≡ pdo_of (map row_view rows.now) range (row_view row.now) }
{
    if !is_cob_id(range, row.key) {
        return None;
    }
    let Some(cob_id) = cob_id_of(row.default) else {
        return None;
    };
    Some(SheetPdo {
        index: row.key.index,
        cob_id,
        mapping: mapping_at(rows, row.key.index + 0x200),
    })
}

fn add_pdo(pdos: &mut Vec<SheetPdo>, pdo: Option<SheetPdo>) -> Result<(), AllocError>
    ensures { OnOk result (pdos.new.items ≡ pdos.old.items ++ option_to_list pdo) }
{
    let Some(pdo) = pdo else {
        return Ok(());
    };
    match pdos.push(pdo) {
        Ok(()) => Ok(()),
        Err(_) => Err(AllocError),
    }
}

// adds the PDOs of a kind
fn add_pdos(
    pdos: &mut Vec<SheetPdo>,
    rows: &[EntryRow<'_>],
    range: IndexRange,
) -> Result<(), AllocError>
    requires rows { AllPairs (λ e f. is_key_before e.key f.key ≡ true) rows.now }
    requires range { range.1 ≤ 0x2000 }
    ensures { OnOk result (pdos.new.items ≡ pdos.old.items
        ++ filter_map (pdo_of (map row_view rows.now) range) (map row_view rows.now)) }
{
    for row in rows {
        attempt!(add_pdo(pdos, pdo_of(rows, range, row)));
    }
    Ok(())
}

// adds the PDOs of a sheet's rows
#[tactic(auto, unfolding(crate::specs::Sheets::pdos_in))]
fn add_both_kinds(pdos: &mut Vec<SheetPdo>, rows: &[EntryRow<'_>]) -> Result<(), AllocError>
    requires { AllPairs (λ e f. is_key_before e.key f.key ≡ true) rows.now }
    ensures { OnOk result (pdos.new.items ≡ pdos.old.items ++ pdos_in (map row_view rows.now)) }
{
    attempt!(add_pdos(pdos, rows, IndexRange::TPDO_COMMUNICATION));
    add_pdos(pdos, rows, IndexRange::RPDO_COMMUNICATION)
}

/// The PDOs of the data sheet of these names, by the values that its entries begin with: those that
/// the device sends, and then those that it receives, by index. None without a data sheet. On an
/// `Err` memory ran out.
#[tactic(auto, unfolding(crate::specs::Sheets::sheet_pdos))]
pub fn sheet_pdos(alloc: Global, names: Names<'_, '_>) -> Result<Vec<SheetPdo>, AllocError>
    ensures { IfOk result (λ pdos. pdos.items ≡ sheet_pdos (names_view names.entry)) }
{
    let mut pdos = Vec::new(alloc);
    if let Some(sheet) = names.sheet {
        attempt!(add_both_kinds(&mut pdos, sheet.entries()));
    }
    Ok(pdos)
}
