//! The words about a fault of a mapping.

ghost use Rattle.std.specs.Prelude.{◌≡◌};
ghost use Rattle.conode_lint.specs.MappingWords.{
  mapping_about,
  mapping_fix,
  mapping_meaning,
  reason_row,
};

use crate::build_words::text_at;
use co_dict_faults::{MappingFault, MappingReason};
use conode_lint_text::About;

/// The word or the count that it is about; for a mapping that is too long, its bits too.
pub(crate) fn mapping_about(fault: MappingFault) -> About
    ensures { result ≡ mapping_about fault }
{
    match fault.reason {
        MappingReason::TooLong(bits) => About::Bits(fault.key.index, bits),
        _ => About::Entry(fault.key.index, fault.key.sub),
    }
}

// the row of a reason in the tables of words
fn row(reason: MappingReason) -> usize
    ensures { result ≡ reason_row reason }
{
    match reason {
        MappingReason::CountsMore => 0,
        MappingReason::TooLong(_) => 1,
        MappingReason::Missing => 2,
        MappingReason::Zero => 3,
        MappingReason::NoEntry => 4,
        MappingReason::NotMappable => 5,
        MappingReason::NoNumber => 6,
        MappingReason::BelowProfile => 7,
        MappingReason::WrongAccess => 8,
        MappingReason::OneBit => 9,
        MappingReason::WrongLength => 10,
        MappingReason::Multiplexed => 11,
    }
}

/// What is wrong by each reason, by row.
const MEANINGS: [&str; 12] = [
    "the count is greater than the number of mapping words",
    "a PDO has at most 64",
    "the mapping counts this word, and it is missing",
    "the mapping counts this word, and it is 0",
    "it maps an entry that the sheet doesn't have",
    "it maps an entry that may not be mapped",
    "it maps a string or a domain",
    "an RPDO maps no entry below 2000h",
    "it maps an entry with an access that doesn't fit",
    "it maps 1 bit of an entry of 8 bits",
    "its length isn't that of the entry",
    "the PDO is multiplexed: FEh and FFh count no words",
];

/// What is wrong, in one line.
pub(crate) fn mapping_meaning(reason: MappingReason) -> &'static str
    ensures { result.now ≡ mapping_meaning reason }
{
    text_at(&MEANINGS, row(reason))
}

/// How each is fixed, likewise.
const FIXES: [&str; 12] = [
    "lower the count, or describe the sub-indices that are missing",
    "lower the count, or map some of them in another PDO",
    "describe this sub-index",
    "give an entry to map, or lower the count",
    "list and describe that entry, or map another; an RPDO may map dummies 0002h to 0007h, sub-index 0, that DummyUsage allows, as Dummy0005=1; other dummies are legal, but conode's node takes whole bytes of these alone",
    "set PDOMapping=1 for that entry, if its access fits: an RPDO maps rw, rww and wo, from 2000h on, a TPDO ro, rw, rwr and const; or map another",
    "a string of at most 8 bytes is legal, but conode's node maps numbers alone: map an entry of a numeric type",
    "map an entry from 2000h on; CiA 301 permits others too, but conode's node doesn't",
    "an RPDO maps rw, rww and wo, a TPDO ro, rw, rwr and const",
    "give the length as 8 bits (08h); of a BOOLEAN 1 bit is legal, but conode's node maps whole bytes; conode adapt --force empties the mapping",
    "give 8 bits for each byte of the type of that entry",
    "this is legal, but conode's node sends and receives no multiplexed PDO: give a count of words to build",
];

/// How to fix it, in one line.
pub(crate) fn mapping_fix(reason: MappingReason) -> &'static str
    ensures { result.now ≡ mapping_fix reason }
{
    text_at(&FIXES, row(reason))
}
