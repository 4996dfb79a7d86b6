//! The names of entries.

ghost use Rattle.std.specs.Prelude.{◌≡◌, Option, Some, map, option_map, AllPairs, true};
ghost use Rattle.std.specs.Option.{option_copied};
ghost use Rattle.co_value.specs.Keys.{is_key_before};
ghost use Rattle.co_sheet.specs.SheetViews.{row_view};
ghost use Rattle.co_sheet_changes.specs.Names.{names_view, entry_of, if_utf8, original_of, row_at, name_at, name_of, shown_name};

use crate::Originals;
use co_sheet::{EntryRow, Sheet};
use co_value::Key;
use std::str;

/// Where the names of entries come from.
#[derive(Clone, Copy)]
pub struct Names<'s, 'a> {
    /// The data sheet that has them, as ParameterName (CiA 306); `None`: no entry has a name.
    pub sheet: Option<&'s Sheet<'a>>,
    /// The node that the data sheet is for; `None`: it is for every node.
    pub only: Option<u8>,
    /// The original data types of the sheet's entries, if it was adapted; `None`: no entry has one.
    pub originals: Option<&'s Originals>,
}

/// The row of a key among rows in increasing key, if there is one.
pub fn row_at<'r, 'a>(rows: &'r [EntryRow<'a>], key: Key) -> Option<&'r EntryRow<'a>>
    requires { AllPairs (λ e f. is_key_before e.key f.key ≡ true) rows.now }
    ensures { option_map row_view (option_copied result) ≡ row_at (map row_view rows.now) key }
{
    match rows.binary_search_by_key(&key, |row| row.key) {
        Ok(place) => Some(&rows[place]),
        Err(_) => None,
    }
}

fn if_utf8(text: &[u8]) -> Option<&str>
    ensures { option_copied result ≡ if_utf8 text.now }
{
    match str::from_utf8(text) {
        Ok(text) => Some(text),
        Err(_) => None,
    }
}

/// The name of an entry, if it has one in UTF-8.
pub fn shown_name<'a>(row: &EntryRow<'a>) -> Option<&'a str>
    ensures { option_copied result ≡ shown_name (row_view row.now) }
{
    match row.name {
        Some(name) => if_utf8(name),
        None => None,
    }
}

// the name of the entry of a key, if it has one in UTF-8
fn name_at<'a>(rows: &[EntryRow<'a>], key: Key) -> Option<&'a str>
    requires { AllPairs (λ e f. is_key_before e.key f.key ≡ true) rows.now }
    ensures { option_copied result ≡ name_at (map row_view rows.now) key }
{
    match row_at(rows, key) {
        Some(row) => shown_name(row),
        None => None,
    }
}

impl<'s, 'a> Names<'s, 'a> {
    /// The entry of a node, if the data sheet is for that node and has the entry.
    #[tactic(auto, unfolding(crate::specs::Names::entry_of))]
    pub fn entry(self, node: u8, key: Key) -> Option<&'s EntryRow<'a>>
        ensures { option_map row_view (option_copied result)
            ≡ entry_of (names_view self.entry) node key }
    {
        if self.only.is_some_and(|one| one != node) {
            return None;
        }
        match self.sheet {
            Some(sheet) => row_at(sheet.entries(), key),
            None => None,
        }
    }

    /// The code of an entry's original data type, as `0x0008`, if the data sheet was adapted
    /// (`OriginalDataType`).
    pub fn original(self, row: &EntryRow<'_>) -> Option<&'static [u8]>
        ensures { option_copied result ≡ original_of (names_view self.entry) (row_view row.now) }
    {
        match self.originals {
            Some(originals) => originals.at(row.line),
            None => None,
        }
    }

    /// The name of a node's entry, if it has one in UTF-8.
    #[tactic(auto, unfolding(crate::specs::Names::name_of))]
    pub fn name(self, node: u8, key: Key) -> Option<&'a str>
        ensures { option_copied result ≡ name_of (names_view self.entry) node key }
    {
        if self.only.is_some_and(|one| one != node) {
            return None;
        }
        match self.sheet {
            Some(sheet) => name_at(sheet.entries(), key),
            None => None,
        }
    }
}
