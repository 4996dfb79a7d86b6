//! What the numbers of the communication profile mean, in words (CiA 301, 7.5.2). Each function with
//! a text appends to it. `Err`: out of memory; a part of the text may be there.

ghost use Rattle.std.specs.Prelude.{
  ◌≡◌,
  ◌++◌,
  ◌/◌,
  ◌%◌,
  [],
  ◌∷◌,
  OnOk,
  codes,
  decimal,
  string_bytes,
};
ghost use Rattle.conode_text.specs.Filled.{filled};
ghost use Rattle.conode_show_text.specs.Phrases.{phrase_text};
ghost use Rattle.std.specs.Option.{option_copied};
ghost use Rattle.co_sheet_text.specs.Views.{section_view};
ghost use Rattle.conode_show_text.specs.Meanings.{
  before_words,
  bits_name,
  consumer_reserved,
  consumer_text,
  is_cob_id,
  is_consumer_used,
  is_in_tenths,
  mapped_key,
  mapped_text,
  meaning_text,
  micros_text,
  off_words,
  overflow_text,
  reception_text,
  relative_text,
  said,
  time_text,
  transmission_name,
  transmission_text,
  word_text,
};

use crate::cob_ids::{cob_id, pdo_cob_id, sync_name, time_name, use_name};
use crate::names::name_among;
use crate::phrase::{Phrase, Piece, alone, push_phrase, with_number};
use crate::texts::push_plain;
use crate::values::{Word, value_of, word_of};
use co_sheet_text::TextSection;
use co_value::Key;
use conode_text::HasText;
use std::alloc::AllocError;

/// The meaning of a number in the communication profile.
#[derive(Clone, Copy)]
pub enum Meaning {
    /// The COB-ID of a PDO.
    PdoCobId,
    /// The COB-ID of EMCY or of an SDO channel.
    CobId,
    /// The COB-ID of SYNC.
    SyncCobId,
    /// The communication cycle period, in µs.
    SyncPeriod,
    /// The synchronous window length, in µs.
    SyncWindow,
    /// The synchronous counter overflow value.
    SyncOverflow,
    /// The COB-ID of TIME.
    TimeCobId,
    /// The transmission type of a TPDO.
    Transmission,
    /// The transmission type of an RPDO.
    Reception,
    /// The inhibit time of a PDO, in 100 µs.
    PdoInhibit,
    /// The event timer of a PDO, in ms.
    EventTimer,
    /// The inhibit time of EMCY, in 100 µs.
    EmcyInhibit,
    /// A consumer heartbeat time: a node and ms.
    Consumer,
    /// The producer heartbeat time, in ms.
    Producer,
    /// What a PDO maps: a key and a number of bits.
    Mapped,
}

/// The transmission types of TPDOs that have words of their own (CiA 301, 7.5.2.37).
const TRANSMISSION_NAMES: [(u64, &str); 6] = [
    (0, "0: synchronous, acyclic"),
    (1, "1: every SYNC"),
    (252, "252: remote, synchronous"),
    (253, "253: remote, event-driven"),
    (254, "254: event-driven, manufacturer"),
    (255, "255: event-driven, device profile"),
];

fn transmission_name(number: u64) -> Option<&'static str>
    ensures { option_copied result ≡ transmission_name number }
{
    name_among(number, &TRANSMISSION_NAMES)
}

// the transmission type of a TPDO: by name, by a number of SYNCs, or reserved
#[tactic(auto, unfolding(crate::specs::Meanings::transmission_text, crate::specs::Meanings::counted_syncs, conode_text::specs::Filled::filled))]
fn transmission(number: u64) -> Phrase<'static>
    ensures { phrase_text result ≡ transmission_text number }
{
    if let Some(name) = transmission_name(number) {
        return alone(Piece::Words(name));
    }
    if 240 < number {
        return with_number("%: reserved", number);
    }
    Phrase {
        words: "%: every % SYNCs",
        first: Piece::Number(number),
        second: Piece::Number(number),
        third: Piece::Nothing,
        fourth: Piece::Nothing,
    }
}

// the transmission type of an RPDO: up to 240 the next SYNC brings what was received
#[tactic(auto, unfolding(crate::specs::Meanings::reception_text, conode_text::specs::Filled::filled))]
fn reception(number: u64) -> Phrase<'static>
    ensures { phrase_text result ≡ reception_text number }
{
    if number <= 240 {
        return with_number("%: with the next SYNC", number);
    }
    if number == 254 || number == 255 {
        return transmission(number);
    }
    with_number("%: reserved", number)
}

// the words for a time of 0, and those before another one
fn off_words(meaning: Meaning) -> &'static str
    ensures { result.now ≡ off_words meaning }
{
    match meaning {
        Meaning::EmcyInhibit => "none",
        Meaning::Producer => "off",
        _ => "",
    }
}

fn before_words(meaning: Meaning) -> &'static str
    ensures { result.now ≡ before_words meaning }
{
    match meaning {
        Meaning::Producer => "every ",
        _ => "",
    }
}

// an inhibit time: in 100 µs
fn is_in_tenths(meaning: Meaning) -> bool
    ensures { result ≡ is_in_tenths meaning }
{
    matches!(meaning, Meaning::PdoInhibit | Meaning::EmcyInhibit)
}

// a time in ms, with tenths if the number is in 100 µs
#[tactic(auto, unfolding(crate::specs::Meanings::time_text, crate::specs::Meanings::millis_text, conode_text::specs::Filled::filled))]
fn time(meaning: Meaning, number: u64) -> Phrase<'static>
    ensures { phrase_text result
        ≡ time_text (off_words meaning) (before_words meaning) (is_in_tenths meaning) number }
{
    if number == 0 {
        return alone(Piece::Words(off_words(meaning)));
    }
    let before = Piece::Words(before_words(meaning));
    if is_in_tenths(meaning) {
        Phrase {
            words: "%%.% ms",
            first: before,
            second: Piece::Number(number / 10),
            third: Piece::Number(number % 10),
            fourth: Piece::Nothing,
        }
    } else {
        Phrase {
            words: "%% ms",
            first: before,
            second: Piece::Number(number),
            third: Piece::Nothing,
            fourth: Piece::Nothing,
        }
    }
}

// a time in µs, printed in ms, in these words
fn millis(words: &'static str, number: u64) -> Phrase<'static>
    ensures { phrase_text result ≡ filled words.now (decimal (number / 1000)
        ∷ decimal (number / 100 % 10) ∷ decimal (number / 10 % 10) ∷ decimal (number % 10) ∷ []) }
{
    Phrase {
        words,
        first: Piece::Number(number / 1000),
        second: Piece::Number(number / 100 % 10),
        third: Piece::Number(number / 10 % 10),
        fourth: Piece::Number(number % 10),
    }
}

// the SYNC period
#[tactic(auto, unfolding(crate::specs::Meanings::micros_text, conode_text::specs::Filled::filled))]
fn period(number: u64) -> Phrase<'static>
    ensures { phrase_text result ≡ micros_text (codes "every ") number }
{
    if number == 0 {
        return alone(Piece::Words("none"));
    }
    millis("every %.%%% ms", number)
}

// the SYNC window
#[tactic(auto, unfolding(crate::specs::Meanings::micros_text, conode_text::specs::Filled::filled))]
fn window(number: u64) -> Phrase<'static>
    ensures { phrase_text result ≡ micros_text [] number }
{
    if number == 0 {
        return alone(Piece::Words("none"));
    }
    millis("%.%%% ms", number)
}

// the SYNC counter overflow value
#[tactic(auto, unfolding(crate::specs::Meanings::overflow_text, conode_text::specs::Filled::filled))]
fn overflow(number: u64) -> Phrase<'static>
    ensures { phrase_text result ≡ overflow_text number }
{
    match number {
        0 => alone(Piece::Words("no counter")),
        2..=240 => with_number("counter from 1 to %", number),
        _ => with_number("%: reserved", number),
    }
}

// whether an entry of the heartbeat consumer is used: its time isn't 0, its node-ID 1 to 127
fn is_consumer_used(number: u64) -> bool
    ensures { result ≡ is_consumer_used number }
{
    let node = number / 0x1_0000 % 0x100;
    1 <= node && node <= 127 && number % 0x1_0000 != 0
}

// the reserved bits of a consumer heartbeat time
fn consumer_reserved(number: u64) -> &'static str
    ensures { result.now ≡ consumer_reserved number }
{
    if number / 0x100_0000 == 0 {
        ""
    } else {
        ", bits 31 to 24 set"
    }
}

#[tactic(auto, unfolding(crate::specs::Meanings::consumer_text, conode_text::specs::Filled::filled))]
fn consumer(number: u64) -> Phrase<'static>
    ensures { phrase_text result ≡ consumer_text number }
{
    if !is_consumer_used(number) {
        return alone(Piece::Words("not used"));
    }
    Phrase {
        words: "node %, within % ms%",
        first: Piece::Number(number / 0x1_0000 % 0x100),
        second: Piece::Number(number % 0x1_0000),
        third: Piece::Words(consumer_reserved(number)),
        fourth: Piece::Nothing,
    }
}

/// The key that a word of a mapping names (CiA 301, 7.5.2.36).
pub fn mapped_key(number: u64) -> Key
    ensures { result ≡ mapped_key number }
{
    Key {
        index: (number / 0x1_0000 % 0x1_0000) as u16,
        sub: (number / 0x100 % 0x100) as u8,
    }
}

fn bits_name(bits: u64) -> &'static str
    ensures { result.now ≡ bits_name bits }
{
    if bits == 1 { " bit" } else { " bits" }
}

#[tactic(auto, unfolding(crate::specs::Meanings::mapped_text, conode_text::specs::Filled::filled))]
fn mapped(number: u64) -> Phrase<'static>
    ensures { phrase_text result ≡ mapped_text number }
{
    let bits = number % 0x100;
    Phrase {
        words: "%, %%",
        first: Piece::Key(mapped_key(number)),
        second: Piece::Number(bits),
        third: Piece::Words(bits_name(bits)),
        fourth: Piece::Nothing,
    }
}

// the meaning of a word
#[tactic(auto, unfolding(crate::specs::CobIds::cob_id_text, crate::specs::CobIds::sync_text, crate::specs::CobIds::time_cob_id_text))]
fn meaning_of(meaning: Meaning, word: Word) -> Phrase<'static>
    ensures { phrase_text result ≡ meaning_text meaning word }
{
    match meaning {
        Meaning::PdoCobId => pdo_cob_id(word),
        Meaning::CobId => cob_id(word.number, use_name(word), ""),
        Meaning::SyncCobId => cob_id(word.number, sync_name(word), ""),
        Meaning::SyncPeriod => period(word.number),
        Meaning::SyncWindow => window(word.number),
        Meaning::SyncOverflow => overflow(word.number),
        Meaning::TimeCobId => cob_id(word.number, time_name(word), ""),
        Meaning::Transmission => transmission(word.number),
        Meaning::Reception => reception(word.number),
        Meaning::PdoInhibit | Meaning::EventTimer | Meaning::EmcyInhibit | Meaning::Producer =>
            time(meaning, word.number),
        Meaning::Consumer => consumer(word.number),
        Meaning::Mapped => mapped(word.number),
    }
}

// whether it is a COB-ID
fn is_cob_id(meaning: Meaning) -> bool
    ensures { result ≡ is_cob_id meaning }
{
    matches!(
        meaning,
        Meaning::PdoCobId | Meaning::CobId | Meaning::SyncCobId | Meaning::TimeCobId
    )
}

// a sum with a node-ID that isn't known: only a COB-ID has words
fn push_relative(text: &mut String, meaning: Meaning, word: Word) -> Result<(), AllocError>
    ensures { OnOk result
        (string_bytes text.new ≡ string_bytes text.old ++ relative_text meaning word) }
{
    if !is_cob_id(meaning) {
        return Piece::Sum(word.number).push(text);
    }
    attempt!(text.push_str("$NODEID+"));
    push_phrase(text, &meaning_of(meaning, word))
}

// a number of the communication profile in words
#[tactic(auto, unfolding(crate::specs::Meanings::word_text))]
fn push_word(text: &mut String, meaning: Meaning, word: Word) -> Result<(), AllocError>
    ensures { OnOk result
        (string_bytes text.new ≡ string_bytes text.old ++ word_text meaning word) }
{
    if word.relative {
        push_relative(text, meaning, word)
    } else {
        push_phrase(text, &meaning_of(meaning, word))
    }
}

/// Appends the value of an entry in words; a text that is no number as it is.
#[tactic(auto, unfolding(crate::specs::Meanings::said))]
pub(crate) fn push_said(
    text: &mut String,
    meaning: Meaning,
    node: Option<u8>,
    section: &TextSection<'_, '_>,
) -> Result<(), AllocError>
    ensures { OnOk result (string_bytes text.new
        ≡ string_bytes text.old ++ said meaning node (section_view section.now)) }
{
    let Some(property) = value_of(section) else {
        return Ok(());
    };
    match word_of(node, property.value) {
        Some(word) => push_word(text, meaning, word),
        None => push_plain(text, property.value),
    }
}
