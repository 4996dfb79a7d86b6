//! What transfers write and show, of entries whose next upload is compared with it.

ghost use Rattle.std.specs.Prelude.{◌≡◌};
ghost use Rattle.co_sheet.specs.SheetViews.{row_view};
ghost use Rattle.conode_compare_notes.specs.Contents.{
  bytes_in,
  checksum_from,
  content_warning,
  is_exact,
  mixed,
  number_shown,
  number_written_in,
  shown_content,
  written_content,
};

use crate::warning::Warning;
use co_sheet::EntryRow;
use co_value::Key;
use conode_compare_values::{HeldMismatch, held_width, number_written, shown_number};
use conode_explain_transfers::{Ended, Protocol};

/// What a transfer shows of an entry.
#[derive(Clone, Copy)]
pub enum Content {
    /// A number.
    Number(u64),
    /// Of other bytes how many they are, and a checksum of the first 64.
    Bytes(u64, u32),
}

// the largest prime below 2^32
const MODULUS: u64 = 4_294_967_291;

// the checksum of bytes with this one so far, and one more
#[tactic(auto, unfolding(crate::specs::Contents::mixed))]
fn mixed(sum: u32, byte: u8) -> u32
    ensures { result ≡ mixed sum byte }
{
    ((sum as u64 * 257 + byte as u64) % MODULUS) as u32
}

fn checksum_from(sum: u32, bytes: &[u8]) -> u32
    ensures { result ≡ checksum_from sum bytes.now }
{
    let mut so_far = sum;
    for byte in bytes {
        so_far = mixed(so_far, *byte);
    }
    so_far
}

/// Whether it is known how many bytes of a transfer count. Of a last segment with seven bytes some
/// may not.
pub(crate) fn is_exact(protocol: Protocol, count: u64) -> bool
    ensures { result ≡ is_exact protocol count }
{
    match protocol {
        Protocol::Block => true,
        Protocol::Segmented => count % 7 != 0,
        _ => false,
    }
}

// of an entry whose values are no numbers
fn bytes_in(ended: &Ended) -> Option<Content>
    ensures { result ≡ bytes_in ended.now }
{
    if is_exact(ended.protocol, ended.bytes) {
        let checksum = checksum_from(0, ended.first.as_slice());
        Some(Content::Bytes(ended.bytes, checksum))
    } else {
        None
    }
}

fn number_shown(row: &EntryRow<'_>, ended: &Ended) -> Option<Content>
    ensures { result ≡ number_shown (row_view row.now) ended.now }
{
    let Some(width) = held_width(row.data_type) else {
        return None;
    };
    let Some(number) = shown_number(width, ended.first.as_slice()) else {
        return None;
    };
    Some(Content::Number(number))
}

fn number_written_in(row: &EntryRow<'_>, ended: &Ended) -> Option<Content>
    ensures { result ≡ number_written_in (row_view row.now) ended.now }
{
    let Some(width) = held_width(row.data_type) else {
        return None;
    };
    let Some(number) = number_written(width, ended.first.as_slice()) else {
        return None;
    };
    Some(Content::Number(number))
}

/// What an upload that is done shows.
pub(crate) fn shown_content(row: &EntryRow<'_>, ended: &Ended) -> Option<Content>
    ensures { result ≡ shown_content (row_view row.now) ended.now }
{
    match row.data_type.width() {
        Some(_) => number_shown(row, ended),
        None => bytes_in(ended),
    }
}

/// What a download that is done wrote.
pub(crate) fn written_content(row: &EntryRow<'_>, ended: &Ended) -> Option<Content>
    ensures { result ≡ written_content (row_view row.now) ended.now }
{
    match row.data_type.width() {
        Some(_) => number_written_in(row, ended),
        None => bytes_in(ended),
    }
}

/// Whether another number is shown than was written, or as many other bytes.
pub(crate) fn content_warning(key: Key, shown: Content, written: Content) -> Option<Warning>
    ensures { result ≡ content_warning key shown written }
{
    match (shown, written) {
        (Content::Number(shown), Content::Number(written)) if shown != written => {
            Some(Warning::Changed(HeldMismatch {
                key,
                shown,
                written,
            }))
        }
        (Content::Bytes(count, shown), Content::Bytes(length, written))
            if count == length && shown != written => { Some(Warning::ChangedBytes(key)) }
        _ => None,
    }
}
