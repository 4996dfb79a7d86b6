//! What a warning means and how it is fixed, in words.

ghost use Rattle.std.specs.Prelude.{◌≡◌, ◌<◌, [], get_or, length, map};
ghost use Rattle.co_sheet_warnings.specs.WarningWords.{
  name_of,
  meaning_of,
  fix_of,
  subject_of,
};
ghost use Rattle.co_sheet_warnings.specs.private.Views.{kind_row};

use co_sheet_text_warnings::WarningKind;

// the row of a kind in the tables of words
fn row(kind: WarningKind) -> usize
    ensures { result ≡ kind_row kind }
{
    match kind {
        WarningKind::SubNumber => 0,
        WarningKind::SubIndex0 => 1,
        WarningKind::VarSubIndices => 2,
        WarningKind::MandatoryForm => 3,
        WarningKind::FileInfoKeys(_) => 4,
        WarningKind::DeviceInfoKeys(_) => 5,
        WarningKind::PdoCount => 6,
        WarningKind::WrongList => 7,
        WarningKind::UncountedKey => 8,
        WarningKind::Unlisted => 9,
        WarningKind::IdentityNumber(_) => 10,
        WarningKind::FixedCobId => 11,
        WarningKind::NodeIdPlace => 12,
        WarningKind::NodeIdSum => 13,
        WarningKind::NegativeLimit => 14,
        WarningKind::ReservedValue => 15,
        WarningKind::WrongAccess => 16,
        WarningKind::WrongType => 17,
        WarningKind::MisspeltSection => 18,
        WarningKind::MisspeltKey(_) => 19,
        WarningKind::SharedCobId(_) => 20,
        WarningKind::InhibitTime => 21,
        WarningKind::OwnHeartbeat => 22,
        WarningKind::HeartbeatTwice(_) => 23,
        WarningKind::NoErrorControl => 24,
        WarningKind::LongLine => 25,
        WarningKind::Utf8 => 26,
        WarningKind::NotAscii => 27,
        WarningKind::NodeId => 28,
        WarningKind::ListOrder => 29,
        WarningKind::EqualNames => 30,
        WarningKind::MissingName => 31,
        WarningKind::UnknownKey => 32,
        WarningKind::DateFormat => 33,
        WarningKind::LineEnds => 34,
    }
}

// a text of a table, by its row
fn text_at(texts: &[&'static str], row: usize) -> &'static str
    requires { row < length texts.now }
    ensures { result.now ≡ get_or (map (λ text. text.now) texts.now) row [] }
{
    texts[row]
}

/// The names of all kinds, by row.
const NAMES: [&str; 35] = [
    "SubNumber",
    "SubIndex0",
    "VarSubIndices",
    "MandatoryForm",
    "FileInfoKeys",
    "DeviceInfoKeys",
    "PdoCount",
    "WrongList",
    "UncountedKey",
    "Unlisted",
    "IdentityNumber",
    "FixedCobId",
    "NodeIdPlace",
    "NodeIdSum",
    "NegativeLimit",
    "ReservedValue",
    "WrongAccess",
    "WrongType",
    "MisspeltSection",
    "MisspeltKey",
    "SharedCobId",
    "InhibitTime",
    "OwnHeartbeat",
    "HeartbeatTwice",
    "NoErrorControl",
    "LongLine",
    "Utf8",
    "NotAscii",
    "NodeId",
    "ListOrder",
    "EqualNames",
    "MissingName",
    "UnknownKey",
    "DateFormat",
    "LineEnds",
];

/// The name of the kind, as `SubNumber`.
pub fn name_of(kind: WarningKind) -> &'static str
    ensures { result.now ≡ name_of kind }
{
    text_at(&NAMES, row(kind))
}

/// What a warning of each kind means, by row.
const MEANINGS: [&str; 35] = [
    "SubNumber isn't the number of the object's sub-index sections",
    "sub-index 0 isn't the highest sub-index of the object",
    "the object is a VAR or a DOMAIN, so its sub-index sections aren't read",
    "CiA 301 has 1000h and 1001h as a VAR, 1018h as a RECORD with sub-index 1, the vendor-ID",
    "FileInfo is missing, or a key that it has to have",
    "DeviceInfo is missing, or a key that it has to have",
    "this isn't the number of PDOs that the sheet has",
    "the object belongs in another list, or in none",
    "SupportedObjects doesn't count this key, so it isn't read",
    "no list names the object, so it isn't read",
    "the identity object has another number",
    "the COB-ID doesn't depend on the node-ID, so two such devices disturb each other",
    "$NODEID comes after the number, which other tools don't read",
    "the default with $NODEID is outside the type or the limits for every node-ID",
    "this HighLimit is -1 at its type, so no number from 0 on is permitted",
    "CiA 301 reserves this value",
    "CiA 301 has another access for this entry",
    "CiA 301 has another data type for this entry",
    "nothing reads a section of this name, and the standard has one like it",
    "the standard has no such key, but one like it",
    "an entry before it has the same identifier, for this node-ID",
    "a synchronous TPDO has an inhibit time, which isn't used",
    "the consumer waits for the heartbeat of its own node",
    "two words of the consumer have the same node-ID",
    "the device has neither a heartbeat nor node guarding",
    "the line has more than 255 characters, which other tools may cut",
    "the text has bytes above 7Fh, in UTF-8, which older tools read as Windows-1252",
    "the text has bytes above 7Fh and isn't UTF-8, so it is read as Windows-1252",
    "NodeID isn't 1 to 127, so the sheet has no node-ID",
    "an index of the list is smaller than the one before it",
    "an object or sub-index before it has the same name",
    "the object or sub-index has no ParameterName",
    "the standard has no such key, so it is passed over",
    "the date isn't mm-dd-yyyy, or the time isn't hh:mmAM or hh:mmPM",
    "the line ends otherwise than line 1: CR and LF, or LF alone",
];

/// What a warning means, in one line.
pub fn meaning_of(kind: WarningKind) -> &'static str
    ensures { result.now ≡ meaning_of kind }
{
    text_at(&MEANINGS, row(kind))
}

/// How a warning of each kind is fixed, by row.
const FIXES: [&str; 35] = [
    "count the sections; one may be missing, or its name misspelt",
    "give it the highest sub-index, or describe the one that is missing",
    "give it ObjectType=0x8 or 0x9, or take these sections out",
    "give 1000h and 1001h ObjectType=7; give 1018h ObjectType=9, and describe [1018sub1]",
    "add the missing section or keys",
    "add the missing section or keys",
    "count the objects 1400h to 15FFh for NrOfRXPDO, 1800h to 19FFh for NrOfTXPDO",
    "list 1000h, 1001h and 1018h as mandatory, 2000h to 5FFFh as the manufacturer's, all others \
    from 1000h on as optional",
    "number all keys of the list without a gap and count them, or take this one out",
    "list it, or take its section out",
    "give VendorNumber as in 1018:01, ProductNumber as in 1018:02, RevisionNumber as in 1018:03",
    "write $NODEID+ and the number of the predefined connection set",
    "write $NODEID first, as $NODEID+0x180",
    "correct the default or the limits",
    "give the greatest number of the type, as 0x7F or 0x7FFF, or take the limit out",
    "give a transmission type of 0 to 240 or from 254 on, of a TPDO also 252 or 253; to 1019h 0 or 2 \
    to 240",
    "give the entry that access",
    "give the entry that type",
    "write the name as the standard has it, as [DeviceInfo], [1018sub1]",
    "write the key as the standard has it",
    "give each an identifier of its own; or disable a PDO, an SDO channel or EMCY by bit 31, TIME by \
    bits 31 and 30 clear",
    "set it to 0, or take a transmission type from 254 on",
    "give the node-ID of another node, or set the word to 0",
    "take one of the two out",
    "add 1017h, or 100Ch and 100Dh",
    "shorten the line",
    "write ASCII alone",
    "write ASCII alone",
    "give the node-ID of the device",
    "sort the list by index",
    "give each object, and each sub-index of an object, a name of its own",
    "add ParameterName",
    "take it out, or put it into a section of the manufacturer's own",
    "write it as 02-11-2020, as 10:22AM",
    "end all lines alike",
];

/// How a warning is fixed, in one line.
pub fn fix_of(kind: WarningKind) -> &'static str
    ensures { result.now ≡ fix_of kind }
{
    text_at(&FIXES, row(kind))
}

/// The subject that has the rule of each kind, by row.
const SUBJECTS: [&str; 35] = [
    "CiA 306-1, object description",
    "CiA 301, sub-index 0 of arrays and records",
    "CiA 306-1, object description",
    "CiA 301, mandatory objects",
    "CiA 306-1, file information",
    "CiA 306-1, device information",
    "CiA 306-1, device information",
    "CiA 306-1, object lists",
    "CiA 306-1, object lists",
    "CiA 306-1, object lists",
    "CiA 306-1, device information",
    "CiA 301, predefined connection set",
    "CiA 306-1, object description",
    "CiA 306-1, object description",
    "CiA 306-1, object description",
    "CiA 301, transmission types and synchronous counter overflow value",
    "CiA 301, objects of the communication profile",
    "CiA 301, objects of the communication profile and sub-index 0 of arrays and records",
    "CiA 306-1, structure of an EDS",
    "CiA 306-1, structure of an EDS",
    "CiA 301, COB-IDs",
    "CiA 301, TPDO communication parameter",
    "CiA 301, heartbeat consumer",
    "CiA 301, heartbeat consumer",
    "CiA 301, error control",
    "CiA 306-1, structure of an EDS",
    "CiA 306-1, structure of an EDS",
    "CiA 306-1, structure of an EDS",
    "CiA 306-1, device commissioning",
    "CiA 306-1, object lists",
    "CiA 306-1, object description",
    "CiA 306-1, object description",
    "CiA 306-1, structure of an EDS",
    "CiA 306-1, file information",
    "CiA 306-1, structure of an EDS",
];

/// The subject of CiA 306-1 or CiA 301 that has the rule.
pub fn subject_of(kind: WarningKind) -> &'static str
    ensures { result.now ≡ subject_of kind }
{
    text_at(&SUBJECTS, row(kind))
}
