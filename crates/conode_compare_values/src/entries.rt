//! The entries that are held to what was written.

ghost use Rattle.std.specs.Prelude.{
  ◌≡◌,
  ◌∷◌,
  ◌++◌,
  [],
  ◌<◌,
  true,
  map,
  length,
  Some,
  None,
  IfOk,
  IfErr,
  IfSome,
  IfNone,
  OnOk,
  option_map,
};
ghost use Rattle.std.specs.List.{AllPairs};
ghost use Rattle.std.specs.Option.{option_copied};
ghost use Rattle.co_sheet.specs.SheetViews.{row_view};
ghost use Rattle.co_value.specs.Keys.{is_key_before};
ghost use Rattle.conode_compare_values.specs.HeldWords.{
  IsFault,
  entry_of,
  held_at,
  held_in,
  held_width,
  held_word,
  place_of,
  words_in,
};

use arrayvec::ArrayVec;
use co_sheet::EntryRow;
use co_sheet_changes::row_at;
use co_text::split_at_first;
use co_value::{DataType, Key};

/// An entry that is held to what was written.
#[derive(Clone, Copy)]
pub struct HeldEntry {
    /// Which one it is.
    pub key: Key,
    /// How many bytes its values have, 1 to 8.
    pub width: usize,
    /// Whether a PDO may have it.
    pub mappable: bool,
}

// what the room of those that aren't named is filled with
impl Default for HeldEntry {
    ghost use Rattle.std.specs.Prelude.{◌≡◌, false};

    ghost is_default = { λ entry. entry
        ≡ record { key = record { index = 0; sub = 0 }; width = 0; mappable = false } };

    fn default() -> HeldEntry {
        HeldEntry {
            key: Key { index: 0, sub: 0 },
            width: 0,
            mappable: false,
        }
    }
}

/// The entries that are held, at most 64.
#[derive(Drop)]
pub struct HeldEntries {
    /// They, in the order in which they were named.
    pub entries: ArrayVec<HeldEntry, 64>,
}

/// Why a text names no entries that can be held.
#[derive(Clone, Copy, Debug)]
pub enum HeldFault {
    /// A word is no key.
    Word,
    /// The data sheet has no integer there.
    Entry(Key),
    /// It names more than 64.
    TooMany,
}

/// How many bytes a value of a type has, where it can be held: an integer. Of the byte of a BOOLEAN
/// only one bit may count.
pub fn held_width(data_type: DataType) -> Option<usize>
    ensures { result ≡ held_width data_type }
{
    match data_type {
        DataType::Boolean => None,
        _ => data_type.width(),
    }
}

// the entry of a key, where it can be held
fn held_at(rows: &[EntryRow<'_>], key: Key) -> Option<HeldEntry>
    requires { AllPairs (λ e f. is_key_before e.key f.key ≡ true) rows.now }
    ensures { result ≡ held_at (map row_view rows.now) key }
{
    let row = row_at(rows, key)?;
    let width = held_width(row.data_type)?;
    Some(HeldEntry {
        key,
        width,
        mappable: row.mappable,
    })
}

// the entry that a word names
fn entry_in(rows: &[EntryRow<'_>], word: &[u8]) -> Result<HeldEntry, HeldFault>
    requires { AllPairs (λ e f. is_key_before e.key f.key ≡ true) rows.now }
    ensures ok { IfOk result (λ entry. held_word (map row_view rows.now) word.now ≡ Some entry) }
    ensures err { IfErr result (λ fault. held_word (map row_view rows.now) word.now ≡ None) }
{
    let Some(key) = Key::parse(word) else {
        return Err(HeldFault::Word);
    };
    match held_at(rows, key) {
        Some(entry) => Ok(entry),
        None => Err(HeldFault::Entry(key)),
    }
}

// the first word, and what is after its comma; `None` where it is one word
#[tactic(auto, using(crate::proofs::Readings::shorter_if))]
fn first_word(text: &[u8]) -> Option<(&[u8], &[u8])>
    ensures one { IfNone result (words_in text.now ≡ text.now ∷ []) }
    ensures more { IfSome result (λ cut. words_in text.now ≡ cut.0.now ∷ words_in cut.1.now) }
    ensures shorter { IfSome result (λ cut. length cut.1.now < length text.now) }
{
    split_at_first(text, b',')
}

impl HeldEntries {
    /// None is held.
    pub fn none() -> HeldEntries
        ensures { result.entries.items ≡ [] }
    {
        HeldEntries {
            entries: ArrayVec::new(),
        }
    }

    fn add(&mut self, entry: HeldEntry) -> Result<(), HeldFault>
        ensures ok { OnOk result (self.new.entries.items ≡ self.old.entries.items ++ entry ∷ []) }
        ensures err { IfErr result (λ fault. fault ≡ HeldFault.TooMany) }
    {
        if self.entries.is_full() {
            return Err(HeldFault::TooMany);
        }
        self.entries.push(entry);
        Ok(())
    }

    /// The entries that a text names: keys with a comma between two, as `2001:00,2010:00`, each of
    /// an integer in the data sheet, whose entries are in increasing key.
    #[tactic(auto, using(crate::proofs::Readings::goes_on, crate::proofs::Readings::fails_at, crate::proofs::Readings::ends, crate::proofs::Readings::fails_last, crate::proofs::Readings::onto_none))]
    pub fn read(rows: &[EntryRow<'_>], text: &[u8]) -> Result<HeldEntries, HeldFault>
        requires { AllPairs (λ e f. is_key_before e.key f.key ≡ true) rows.now }
        ensures ok { IfOk result (λ held.
            held_in (map row_view rows.now) text.now ≡ Some held.entries.items) }
        ensures err { IfErr result (IsFault (map row_view rows.now) text.now) }
    {
        let mut held = HeldEntries::none();
        let mut rest = text;
        while let Some((word, more)) = first_word(rest) {
            held.add(entry_in(rows, word)?)?;
            rest = more;
        }
        held.add(entry_in(rows, rest)?)?;
        Ok(held)
    }

    /// The entry of a key, if it is held.
    pub fn entry(&self, key: Key) -> Option<HeldEntry>
        ensures { result ≡ entry_of self.now.entries.items key }
    {
        let entries = self.entries.as_slice();
        for entry in entries {
            if entry.key == key {
                return Some(*entry);
            }
        }
        None
    }

    /// The place of a key among those that are held.
    pub(crate) fn place(&self, key: Key) -> Option<usize>
        ensures { result ≡ place_of self.now.entries.items key }
    {
        self.entries.iter().position(|entry| entry.key == key)
    }
}
