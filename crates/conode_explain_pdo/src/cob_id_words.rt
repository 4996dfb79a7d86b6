//! A COB-ID as people read it, after its value.

ghost use Rattle.std.specs.Prelude.{◌≡◌, ◌++◌, OnOk, string_bytes};
ghost use Rattle.conode_explain_pdo.specs.CobIdWords.{
  cob_id_words,
  disabled_words,
  has_cob_id,
  is_channel_id,
  is_pdo_id,
};

use co_profile::IndexRange;
use co_text::push_u32;
use co_value::{Key, read_u32};
use conode_explain_cob_ids::is_service_index;
use std::alloc::AllocError;

fn is_channel_id(key: Key) -> bool
    ensures { result ≡ is_channel_id key }
{
    (key.sub == 1 || key.sub == 2) && (0x1200 <= key.index && key.index <= 0x12FF)
}

fn is_pdo_id(key: Key) -> bool
    ensures { result ≡ is_pdo_id key }
{
    key.sub == 1
        && (IndexRange::RPDO_COMMUNICATION.contains(key.index)
            || IndexRange::TPDO_COMMUNICATION.contains(key.index))
}

fn has_cob_id(key: Key) -> bool
    ensures { result ≡ has_cob_id key }
{
    (key.sub == 0 && is_service_index(key.index)) || (is_channel_id(key) || is_pdo_id(key))
}

fn disabled_words(index: u16, word: u32) -> &'static str
    ensures { result.now ≡ disabled_words index word }
{
    if word >= 0x8000_0000 && !(index == 0x1005 || index == 0x1012) {
        ", disabled"
    } else {
        ""
    }
}

/// Appends a COB-ID in hexadecimal digits, in brackets after a blank, and whether bit 31 disables
/// it: ` (800001C5, disabled)`; nothing for every other entry. On an `Err` memory ran out, and a
/// part of it may be there.
pub(crate) fn push_cob_id(
    text: &mut String,
    key: Key,
    bits: usize,
    bytes: &[u8],
) -> Result<(), AllocError>
    ensures { OnOk result
        (string_bytes text.new ≡ string_bytes text.old ++ cob_id_words key bits bytes.now) }
{
    if !(has_cob_id(key) && (bits == 32 && bytes.len() == 4)) {
        return Ok(());
    }
    let word = read_u32(bytes);
    attempt!(text.push_str(" ("));
    attempt!(push_u32(text, word));
    attempt!(text.push_str(disabled_words(key.index, word)));
    text.push_str(")")
}
