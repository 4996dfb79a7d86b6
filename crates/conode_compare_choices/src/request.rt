//! The initiate request that a refusal answers, and the code by which our device would refuse it
//! (CiA 301, 7.2.4.3).

ghost use Rattle.std.specs.Prelude.{◌≡◌, true, map};
ghost use Rattle.std.specs.List.{AllPairs};
ghost use Rattle.co_sheet.specs.SheetViews.{row_view};
ghost use Rattle.co_value.specs.Keys.{is_key_before};
ghost use Rattle.conode_compare_choices.specs.Requests.{
  block_size,
  download_size,
  has_width,
  indicated_size,
  is_expedited,
  is_mapping,
  length_code,
  limit_code,
  mapped_code,
  missing_code,
  nothing_requested,
  number_code,
  own_code,
  request_code,
  request_of,
  size_code,
  value_code,
  word_code,
};

use co_frame::{AbortCode, Frame};
use co_profile::{RESTORE_PARAMETERS, STORE_PARAMETERS};
use co_sheet::EntryRow;
use co_sheet_changes::row_at;
use co_value::{Key, unsigned_of};
use conode_compare_transfers::byte_at;
use conode_compare_values::{Mismatch, beyond_mismatch};

/// The newest initiate request of a client, without its multiplexer.
#[derive(Clone, Copy)]
pub struct Request {
    /// Its first byte, with the command specifier.
    pub first: u8,
    /// Its last four bytes: data, or how many bytes are to come.
    pub rest: [u8; 4],
}

// 1600h to 17FFh and 1A00h to 1BFFh, the mappings of PDOs
fn is_mapping(index: u16) -> bool
    ensures { result ≡ is_mapping index }
{
    (0x1600 <= index && index < 0x1800) || (0x1A00 <= index && index < 0x1C00)
}

// the code for so many bytes of a number with this width
fn length_code(width: usize, size: u64) -> Option<u32>
    ensures { result ≡ length_code width size }
{
    let width = width as u64;
    if width < size {
        Some(AbortCode::TOO_LONG.0)
    } else if size < width {
        Some(AbortCode::TOO_SHORT.0)
    } else {
        None
    }
}

// the code for a number beyond the data sheet's limits
fn limit_code(mismatch: Option<Mismatch>) -> Option<u32>
    ensures { result ≡ limit_code mismatch }
{
    match mismatch {
        Some(Mismatch::AboveLimit(_)) => Some(AbortCode::ABOVE_HIGH_LIMIT.0),
        Some(Mismatch::BelowLimit(_)) => Some(AbortCode::BELOW_LOW_LIMIT.0),
        _ => None,
    }
}

/// The code for an entry that the data sheet, whose entries are in increasing key, doesn't have.
pub(crate) fn missing_code(rows: &[EntryRow<'_>], key: Key) -> u32
    requires { AllPairs (λ e f. is_key_before e.key f.key ≡ true) rows.now }
    ensures { result ≡ missing_code (map row_view rows.now) key }
{
    let object = Key {
        index: key.index,
        sub: 0,
    };
    if row_at(rows, object).is_some() {
        AbortCode::SUB_INDEX_MISSING.0
    } else {
        AbortCode::OBJECT_MISSING.0
    }
}

// whether an entry is a number of so many bits
fn has_width(row: &EntryRow<'_>, bits: u64) -> bool
    ensures { result ≡ has_width (row_view row.now) bits }
{
    match row.data_type.width() {
        Some(width) => 8 * width as u64 == bits,
        None => false,
    }
}

// the code where a word of a mapping maps an entry with so many bits
fn mapped_code(rows: &[EntryRow<'_>], key: Key, bits: u64) -> Option<u32>
    requires { AllPairs (λ e f. is_key_before e.key f.key ≡ true) rows.now }
    ensures { result ≡ mapped_code (map row_view rows.now) key bits }
{
    match row_at(rows, key) {
        Some(row) if row.mappable && has_width(row, bits) => None,
        Some(_) => Some(AbortCode::NOT_MAPPABLE.0),
        None => Some(missing_code(rows, key)),
    }
}

// the code for a word of a mapping, unless it maps a dummy entry
fn word_code(rows: &[EntryRow<'_>], word: u64) -> Option<u32>
    requires { AllPairs (λ e f. is_key_before e.key f.key ≡ true) rows.now }
    ensures { result ≡ word_code (map row_view rows.now) word }
{
    let index = word / 0x1_0000;
    if index < 0x1000 || 0x1_0000 <= index {
        return None;
    }
    let key = Key {
        index: index as u16,
        sub: (word / 0x100 % 0x100) as u8,
    };
    mapped_code(rows, key, word % 0x100)
}

impl Request {
    /// None came.
    pub(crate) fn nothing() -> Request
        ensures { result ≡ nothing_requested }
    {
        Request {
            first: 0,
            rest: [0; 4],
        }
    }

    /// That of a frame.
    pub(crate) fn of(frame: &Frame) -> Request
        ensures { result ≡ request_of frame.now }
    {
        Request {
            first: byte_at(frame, 0),
            rest: [
                byte_at(frame, 4),
                byte_at(frame, 5),
                byte_at(frame, 6),
                byte_at(frame, 7),
            ],
        }
    }

    // whether it is one of a download with its bytes: ccs = 1, e = 1
    fn is_expedited(&self) -> bool
        ensures { result ≡ is_expedited self.now }
    {
        self.first / 32 == 1 && self.first / 2 % 2 == 1
    }

    // how many bytes a download has, with s = 1
    fn download_size(&self) -> Option<u64>
        ensures { result ≡ download_size self.now }
    {
        if self.first % 2 == 0 {
            None
        } else if self.first / 2 % 2 == 1 {
            Some((4 - self.first / 4 % 4) as u64)
        } else {
            Some(unsigned_of(&self.rest))
        }
    }

    // how many bytes a block download has, with s = 1
    fn block_size(&self) -> Option<u64>
        ensures { result ≡ block_size self.now }
    {
        if self.first / 2 % 2 == 1 {
            Some(unsigned_of(&self.rest))
        } else {
            None
        }
    }

    // how many bytes are to be written, where that is indicated
    fn indicated_size(&self) -> Option<u64>
        ensures { result ≡ indicated_size self.now }
    {
        match self.first / 32 {
            1 => self.download_size(),
            6 => self.block_size(),
            _ => None,
        }
    }

    // the code for the number of bytes, of an entry with this width
    fn size_code(&self, width: usize) -> Option<u32>
        ensures { result ≡ size_code self.now width }
    {
        match self.indicated_size() {
            Some(size) => length_code(width, size),
            None => None,
        }
    }

    // the code for a number beyond the limits
    fn value_code(&self, row: &EntryRow<'_>, width: usize) -> Option<u32>
        ensures { result ≡ value_code self.now (row_view row.now) width }
    {
        if self.is_expedited() && width <= 4 {
            limit_code(beyond_mismatch(row, &self.rest[..width]))
        } else {
            None
        }
    }

    // the code of an entry's own rule: nothing is stored, and a PDO maps what can be mapped
    fn own_code(&self, rows: &[EntryRow<'_>], key: Key) -> Option<u32>
        requires { AllPairs (λ e f. is_key_before e.key f.key ≡ true) rows.now }
        ensures { result ≡ own_code self.now (map row_view rows.now) key }
    {
        if key.sub == 0 || !self.is_expedited() {
            None
        } else if key.index == STORE_PARAMETERS || key.index == RESTORE_PARAMETERS {
            Some(AbortCode::NOT_STORABLE.0)
        } else if is_mapping(key.index) {
            word_code(rows, unsigned_of(&self.rest))
        } else {
            None
        }
    }

    // the code of an entry of this width
    fn number_code(&self, rows: &[EntryRow<'_>], row: &EntryRow<'_>, width: usize) -> Option<u32>
        requires { AllPairs (λ e f. is_key_before e.key f.key ≡ true) rows.now }
        ensures { result ≡ number_code self.now (map row_view rows.now) (row_view row.now) width }
    {
        self.size_code(width)
            .or(self.value_code(row, width))
            .or(self.own_code(rows, row.key))
    }

    /// The code by which our device refuses what a download is to write, where the request and the
    /// data sheet, whose entries are in increasing key, show it: its length, its limits, the rule
    /// of its own that an entry has.
    #[tactic(auto, unfolding(crate::specs::Requests::request_code))]
    pub(crate) fn request_code(&self, rows: &[EntryRow<'_>], row: &EntryRow<'_>) -> Option<u32>
        requires { AllPairs (λ e f. is_key_before e.key f.key ≡ true) rows.now }
        ensures { result ≡ request_code self.now (map row_view rows.now) (row_view row.now) }
    {
        match row.data_type.width() {
            Some(width) => self.number_code(rows, row, width),
            None => None,
        }
    }
}
