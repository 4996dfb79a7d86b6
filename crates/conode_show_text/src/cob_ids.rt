//! COB-IDs in words (CiA 301, 7.2.2.7 and 7.5.2).

ghost use Rattle.std.specs.Prelude.{◌≡◌, ◌++◌};
ghost use Rattle.conode_show_text.specs.CobIds.{
  frame_name,
  identifier_text,
  is_not_used,
  pdo_cob_id_text,
  sync_name,
  time_name,
  use_name,
};
ghost use Rattle.conode_show_text.specs.Phrases.{phrase_text};

use crate::numbers::words_if;
use crate::phrase::{Phrase, Piece};
use crate::values::Word;

/// Bit 31: the object isn't enabled; the device consumes TIME.
const DISABLED: u64 = 0x8000_0000;

/// Bit 30: no RTR for a PDO; the device produces SYNC or TIME.
const BIT_30: u64 = 0x4000_0000;

/// Bit 29: the identifier has 29 bits.
const EXTENDED: u64 = 0x2000_0000;

/// The greatest identifier of 11 bits.
const GREATEST_BASE: u64 = 0x7FF;

// how many bits the identifier has, if not 11
fn frame_name(number: u64) -> &'static str
    ensures { result.now ≡ frame_name number }
{
    if number / EXTENDED % 2 == 1 {
        ", 29-bit"
    } else if GREATEST_BASE < number % EXTENDED {
        ", over 11 bits"
    } else {
        ""
    }
}

/// A COB-ID: its identifier, whether it is used, and words after that.
#[tactic(auto, unfolding(crate::specs::CobIds::identifier_text, conode_text::specs::Filled::filled))]
pub(crate) fn cob_id(number: u64, used: &'static str, rtr: &'static str) -> Phrase<'static>
    ensures { phrase_text result ≡ identifier_text number ++ used.now ++ rtr.now }
{
    Phrase {
        words: "%%%%",
        first: Piece::Hexadecimal(number % EXTENDED),
        second: Piece::Words(frame_name(number)),
        third: Piece::Words(used),
        fourth: Piece::Words(rtr),
    }
}

// whether it is identifier 0 of 11 bits, which is that of NMT
fn is_not_used(word: Word) -> bool
    ensures { result ≡ is_not_used word }
{
    !word.relative && word.number % BIT_30 == 0
}

/// Whether a COB-ID is enabled, in words.
pub(crate) fn use_name(word: Word) -> &'static str
    ensures { result.now ≡ use_name word }
{
    if word.number / DISABLED % 2 == 1 {
        ", disabled"
    } else if is_not_used(word) {
        ", not used"
    } else {
        ", enabled"
    }
}

/// The COB-ID of a PDO in words.
#[tactic(auto, unfolding(crate::specs::CobIds::pdo_cob_id_text, crate::specs::CobIds::cob_id_text))]
pub(crate) fn pdo_cob_id(word: Word) -> Phrase<'static>
    ensures { phrase_text result ≡ pdo_cob_id_text word }
{
    let rtr = words_if(word.number / BIT_30 % 2 == 1, ", no RTR");
    cob_id(word.number, use_name(word), rtr)
}

/// Whether the device produces SYNC, in words.
pub(crate) fn sync_name(word: Word) -> &'static str
    ensures { result.now ≡ sync_name word }
{
    if is_not_used(word) {
        ", not used"
    } else if word.number / BIT_30 % 2 == 1 {
        ", produced"
    } else {
        ", not produced"
    }
}

/// Whether the device consumes TIME (bit 31) and produces it (bit 30), in words.
pub(crate) fn time_name(word: Word) -> &'static str
    ensures { result.now ≡ time_name word }
{
    let is_consumed = word.number / DISABLED % 2 == 1;
    let is_produced = word.number / BIT_30 % 2 == 1;
    if is_not_used(word) {
        ", not used"
    } else if is_consumed && is_produced {
        ", consumed and produced"
    } else if is_consumed {
        ", consumed"
    } else if is_produced {
        ", produced"
    } else {
        ", not used"
    }
}
