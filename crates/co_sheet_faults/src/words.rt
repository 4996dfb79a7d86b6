//! What a fault means and how it is fixed, in words.

ghost use Rattle.std.specs.Prelude.{◌≡◌, ◌<◌, [], get_or, length, map};
ghost use Rattle.co_sheet_faults.specs.FaultWords.{
  meaning_at_line,
  meaning_without_line,
  meaning_of,
  fix_at_line,
  fix_without_line,
  fix_of,
  subject_of,
};

use co_sheet::{FaultKind, SheetFault};

/// What each kind means at a line, by its number; no kind has number 0.
const MEANINGS: [&str; 21] = [
    "",
    "the line has more than 512 bytes",
    "the line is no whole section line and no key=value",
    "the line comes before the first section",
    "the section comes a second time, perhaps spelled otherwise",
    "the key comes a second time in its section",
    "the listed object has no section",
    "the value is no whole number of at most 64 bits",
    "the leading zero may mean octal",
    "SupportedObjects and the keys don't agree, or an index is above 0xFFFF",
    "the index is in the object lists on an earlier line too",
    "the entry has no DataType or no AccessType",
    "the code is none that this object or entry may have",
    "the data type isn't supported",
    "the access is none of ro, wo, rw, rwr, rww and const",
    "the limit is outside the type's range, or LowLimit is above HighLimit",
    "the value is outside the type or the limits, or not in the type's form",
    "the ARRAY or RECORD has no sub-index 0",
    "the compact form isn't read",
    "1000h, 1001h or 1018h is in no object list",
    "memory ran out",
];

/// How each kind is fixed at a line, likewise.
const FIXES: [&str; 21] = [
    "",
    "shorten the line; take out comments and sections that are passed over",
    "put the missing `[`, `]` or `=`, or `;` before a comment",
    "move it after the line of its section; put `;` before a comment",
    "take one of the two out, or give it the index that was meant",
    "take one of the two out",
    "add the section, as [1019]; or take the object out of its list, unless it is mandatory",
    "write decimal digits, or 0x and hexadecimal digits",
    "write the number without the zero or in hexadecimal, or try conode adapt --leading-zeros",
    "number the keys 1, 2, 3 without a gap or leading zeros, and count them",
    "take one of the two out, and renumber that list",
    "add it; to an ARRAY or a RECORD add ObjectType=8 or ObjectType=9",
    "give the code that the device has, with ObjectType=2 DataType=0x000F; take an object of \
    ObjectType=5 or 6 out of its list",
    "try conode adapt, which may give it a supported type; or take the object out of its list",
    "choose one of the six",
    "correct the limit; leave it out if the end of the type's range is meant",
    "correct the value or the limit",
    "describe sub-index 0; an object without sub-indices has ObjectType=7",
    "try conode adapt, or have the sheet's editor write each sub-index as a section of its own",
    "list the three, with their sections",
    "run it again with more memory",
];

/// The subject that has the rule of each kind, likewise.
const SUBJECTS: [&str; 21] = [
    "",
    "CiA 306-1, structure of an EDS",
    "CiA 306-1, structure of an EDS",
    "CiA 306-1, structure of an EDS",
    "CiA 306-1, structure of an EDS",
    "CiA 306-1, structure of an EDS",
    "CiA 306-1, object lists",
    "CiA 306-1, numerals",
    "CiA 306-1, numerals",
    "CiA 306-1, object lists",
    "CiA 306-1, object lists",
    "CiA 306-1, object description",
    "CiA 301, object codes and data types",
    "CiA 301, data types",
    "CiA 306-1, object description",
    "CiA 306-1, object description",
    "CiA 306-1, object description",
    "CiA 301, sub-index 0 of arrays and records",
    "CiA 306-1, compact storage",
    "CiA 301, mandatory objects",
    "",
];

// a text of a table, by its row
fn text_at(texts: &[&'static str], row: usize) -> &'static str
    requires { row < length texts.now }
    ensures { result.now ≡ get_or (map (λ text. text.now) texts.now) row [] }
{
    texts[row]
}

fn meaning_at_line(kind: FaultKind) -> &'static str
    ensures { result.now ≡ meaning_at_line kind }
{
    text_at(&MEANINGS, kind.number() as usize)
}

fn meaning_without_line(kind: FaultKind) -> &'static str
    ensures { result.now ≡ meaning_without_line kind }
{
    match kind {
        FaultKind::TooLarge => "the text has more than 1,048,576 bytes",
        FaultKind::MissingSection => "there is no section [MandatoryObjects]",
        other => meaning_at_line(other),
    }
}

/// What a fault means, in one line.
pub fn meaning_of(fault: &SheetFault) -> &'static str
    ensures { result.now ≡ meaning_of fault.now }
{
    if fault.line == 0 {
        meaning_without_line(fault.kind)
    } else {
        meaning_at_line(fault.kind)
    }
}

fn fix_at_line(kind: FaultKind) -> &'static str
    ensures { result.now ≡ fix_at_line kind }
{
    text_at(&FIXES, kind.number() as usize)
}

fn fix_without_line(kind: FaultKind) -> &'static str
    ensures { result.now ≡ fix_without_line kind }
{
    match kind {
        FaultKind::TooLarge => "take out comments and sections that are passed over",
        FaultKind::MissingSection => "add it, with 1000h, 1001h and 1018h",
        other => fix_at_line(other),
    }
}

/// How a fault is fixed, in one line.
pub fn fix_of(fault: &SheetFault) -> &'static str
    ensures { result.now ≡ fix_of fault.now }
{
    if fault.line == 0 {
        fix_without_line(fault.kind)
    } else {
        fix_at_line(fault.kind)
    }
}

/// The subject of CiA 306-1 or CiA 301 that has the rule; empty where memory ran out.
pub fn subject_of(kind: FaultKind) -> &'static str
    ensures { result.now ≡ subject_of kind }
{
    text_at(&SUBJECTS, kind.number() as usize)
}
