//! The words of a build fault.

ghost use Rattle.std.specs.Prelude.{◌≡◌, ◌<◌, [], get_or, length, map};
ghost use Rattle.co_sheet_text.specs.Views.{section_view};
ghost use Rattle.conode_lint.specs.BuildWords.{
  build_about,
  build_place,
  build_fix,
  build_meaning,
  build_subject,
  row_of,
};

use co_dict_build::BuildFault;
use co_sheet_text::TextSection;
use conode_lint_text::{About, Place, value_range};

/// The object or the entry that it is about, at a line with this text; of a sum the node-IDs for
/// which it is right.
pub(crate) fn build_about(
    sections: &[TextSection<'_, '_>],
    line: usize,
    text: &[u8],
    fault: BuildFault,
) -> About
    ensures { result ≡ build_about (map section_view sections.now) line text.now fault }
{
    match fault {
        BuildFault::ValueRange(key) => value_range(key, sections, line, text),
        BuildFault::BadCobId(key) | BuildFault::BadMapping(key) => {
            About::Entry(key.index, key.sub)
        }
        BuildFault::PdoPair(index) => About::Object(index),
        BuildFault::NodeId | BuildFault::TooMany | BuildFault::Memory => About::Line,
    }
}

/// Which part of its line it is about: the value, if it is about an entry.
pub(crate) fn build_place(fault: BuildFault) -> Place
    ensures { result ≡ build_place fault }
{
    match fault {
        BuildFault::ValueRange(_) | BuildFault::BadCobId(_) | BuildFault::BadMapping(_) => {
            Place::Value
        }
        BuildFault::NodeId | BuildFault::PdoPair(_) | BuildFault::TooMany | BuildFault::Memory =>
            Place::Beginning,
    }
}

/// A text of a table, by its row.
pub(crate) fn text_at(texts: &[&'static str], row: usize) -> &'static str
    requires { row < length texts.now }
    ensures { result.now ≡ get_or (map (λ text. text.now) texts.now) row [] }
{
    texts[row]
}

// the row of a fault's words: its number, or the last one for SYNC
fn row_of(fault: BuildFault) -> usize
    ensures { result ≡ row_of fault }
{
    match fault {
        BuildFault::BadCobId(key) => { if key.index == 0x1005 { 8 } else { 3 } }
        _ => fault.number() as usize,
    }
}

/// What is wrong by each fault, by its number; none has number 0. The last row is of the COB-ID of
/// SYNC: bit 30 would make the node send it, which is a limit of what is built here.
const MEANINGS: [&str; 9] = [
    "",
    "the node-ID is none of 1 to 127",
    "the default with $NODEID is outside the type or the limits for this node-ID",
    "the COB-ID is reserved, belongs to an SDO channel or has wrong bits",
    "the PDO lacks its other object, or a sub-index that it needs",
    "it counts an entry that is missing or can't be mapped, a wrong length, or over 64 bits",
    "over 16,384 entries, or over 16,777,216 bytes of room",
    "memory ran out",
    "the COB-ID is reserved, belongs to an SDO channel or has wrong bits, or bit 30 is set",
];

/// What is wrong, in one line.
pub(crate) fn build_meaning(fault: BuildFault) -> &'static str
    ensures { result.now ≡ build_meaning fault }
{
    text_at(&MEANINGS, row_of(fault))
}

/// How each is fixed, likewise.
const FIXES: [&str; 9] = [
    "",
    "give a node-ID from 1 to 127",
    "correct the default or the limits",
    "give a free COB-ID of 11 bits; if bit 29 is set, clear it: it is legal, but conode's node has no 29-bit identifiers",
    "list or describe what is missing",
    "correct the mapping, or set PDOMapping=1 for the entry",
    "take objects out of the lists, or lower --domains or --strings",
    "run it again with more memory",
    "give a free COB-ID of 11 bits; bit 30 is legal, but conode's node sends no SYNC: clear it, or let conode adapt --force clear it",
];

/// How to fix it, in one line.
pub(crate) fn build_fix(fault: BuildFault) -> &'static str
    ensures { result.now ≡ build_fix fault }
{
    text_at(&FIXES, row_of(fault))
}

/// The subject that has the rule of each, likewise.
const SUBJECTS: [&str; 9] = [
    "",
    "CiA 301, node-ID",
    "CiA 306-1, object description",
    "CiA 301, restricted CAN-IDs",
    "CiA 301, PDO communication and mapping parameter",
    "CiA 301, PDO mapping parameter",
    "",
    "",
    "CiA 301, restricted CAN-IDs",
];

/// The subject of CiA 306-1 or CiA 301 that has the rule; empty if none has.
pub(crate) fn build_subject(fault: BuildFault) -> &'static str
    ensures { result.now ≡ build_subject fault }
{
    text_at(&SUBJECTS, row_of(fault))
}
