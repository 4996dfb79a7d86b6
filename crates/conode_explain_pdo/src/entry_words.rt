//! Entries of 32 bits with several parts as people read them, after their value.

ghost use Rattle.std.specs.Prelude.{◌≡◌, ◌++◌, OnOk, string_bytes};
ghost use Rattle.conode_explain_pdo.specs.EntryWords.{
  bit_unit,
  consumer_time_text,
  entry_words,
  is_consumer_time,
  is_consumer_used,
  is_mapping_word,
  mapping_word_text,
  word_text,
};

use crate::mapping::{word_bits, word_key};
use co_profile::IndexRange;
use co_value::{Key, read_u32};
use conode_text::{Value, push_filled};
use std::alloc::AllocError;

fn is_mapping_word(key: Key) -> bool
    ensures { result ≡ is_mapping_word key }
{
    (1 <= key.sub && key.sub <= 64)
        && (IndexRange::RPDO_MAPPING.contains(key.index)
            || IndexRange::TPDO_MAPPING.contains(key.index))
}

fn bit_unit(bits: usize) -> &'static str
    ensures { result.now ≡ bit_unit bits }
{
    if bits == 1 { " bit" } else { " bits" }
}

#[tactic(auto, unfolding(crate::specs::EntryWords::mapping_word_text))]
fn push_mapping_word(text: &mut String, word: u32) -> Result<(), AllocError>
    ensures { OnOk result
        (string_bytes text.new ≡ string_bytes text.old ++ mapping_word_text word) }
{
    let bits = word_bits(word);
    push_filled(
        text,
        " (%, %%)",
        &[
            Value::Key(word_key(word)),
            Value::Number(bits as u64),
            Value::Words(bit_unit(bits)),
        ],
    )
}

fn is_consumer_time(key: Key) -> bool
    ensures { result ≡ is_consumer_time key }
{
    key.index == 0x1016 && key.sub != 0
}

fn is_consumer_used(word: u32) -> bool
    ensures { result ≡ is_consumer_used word }
{
    let node = word / 65536 % 256;
    (1 <= node && node <= 127) && word % 65536 != 0
}

#[tactic(auto, unfolding(crate::specs::EntryWords::consumer_time_text))]
fn push_consumer_time(text: &mut String, word: u32) -> Result<(), AllocError>
    ensures { OnOk result
        (string_bytes text.new ≡ string_bytes text.old ++ consumer_time_text word) }
{
    if !is_consumer_used(word) {
        return text.push_str(" (not used)");
    }
    push_filled(
        text,
        " (node %, % ms)",
        &[
            Value::Number((word / 65536 % 256) as u64),
            Value::Number((word % 65536) as u64),
        ],
    )
}

fn push_word(text: &mut String, key: Key, word: u32) -> Result<(), AllocError>
    ensures { OnOk result (string_bytes text.new ≡ string_bytes text.old ++ word_text key word) }
{
    if word == 0 {
        return Ok(());
    }
    if is_mapping_word(key) {
        return push_mapping_word(text, word);
    }
    if is_consumer_time(key) {
        return push_consumer_time(text, word);
    }
    Ok(())
}

/// Appends in brackets what the parts of an entry of 32 bits mean: of a word of a mapping
/// ` (6000:01, 8 bits)`, of a time of the heartbeat consumer ` (node 1, 200 ms)`, or ` (not used)`;
/// nothing of every other entry. On an `Err` memory ran out, and a part of it may be there.
pub(crate) fn push_entry_words(
    text: &mut String,
    key: Key,
    bits: usize,
    bytes: &[u8],
) -> Result<(), AllocError>
    ensures { OnOk result
        (string_bytes text.new ≡ string_bytes text.old ++ entry_words key bits bytes.now) }
{
    if !(bits == 32 && bytes.len() == 4) {
        return Ok(());
    }
    push_word(text, key, read_u32(bytes))
}
