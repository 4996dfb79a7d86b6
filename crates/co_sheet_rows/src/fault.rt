//! Why a text is no data sheet.

use arrayvec::ArrayString;
use co_text::decimal_digits;
use std::error::Error;
use std::fmt;

/// What is wrong with a text.
#[derive(Clone, Copy, Debug, PartialEq, Eq)]
pub enum FaultKind {
    /// More than 1,048,576 bytes of text, or more than 512 in a line.
    TooLarge = 1,
    /// A section line without `]`, or a line of a section that is read without `=` or without a key
    /// before it.
    BadLine = 2,
    /// A line before the first section.
    KeyOutsideSection = 3,
    /// A section that occurs twice.
    DuplicateSection = 4,
    /// A key that occurs twice in its section.
    DuplicateKey = 5,
    /// No MandatoryObjects, or no section for a listed object.
    MissingSection = 6,
    /// A value that must be a number and isn't one.
    BadNumber = 7,
    /// A decimal number that begins with 0, and is another number when read as octal.
    AmbiguousNumber = 8,
    /// An object list whose number of objects is missing or above 65,535, with fewer places than it
    /// counts, or with an index above FFFFh.
    BadList = 9,
    /// An index in the object lists twice.
    ListedTwice = 10,
    /// An entry without DataType or AccessType.
    MissingKey = 11,
    /// An unknown object type or data type, or one that isn't allowed for this object or entry.
    BadType = 12,
    /// A data type that isn't supported.
    LeftOutType = 13,
    /// A word that is no access type.
    BadAccess = 14,
    /// A limit outside the type's range, or a low limit above the high one.
    BadLimits = 15,
    /// A default outside the type or the limits, or not of the type's form.
    BadDefault = 16,
    /// An ARRAY or a RECORD without sub-index 0.
    MissingSub0 = 17,
    /// A compact form of sub-indices or PDOs.
    CompactForm = 18,
    /// 1000h, 1001h or 1018h in no object list.
    MissingMandatory = 19,
    /// Out of memory.
    Memory = 20,
}

impl FaultKind {
    ghost use Rattle.std.specs.Prelude.{◌≡◌, ◌≤◌, length};
    ghost use Rattle.co_sheet_rows.specs.FaultTexts.{fault_number, fault_name};

    /// The number of the kind, from 1 to 20.
    pub fn number(self) -> u8
        ensures { result ≡ fault_number self }
    {
        self as u8
    }

    /// The name of the kind, as `BadList`.
    pub fn name(self) -> &'static str
        ensures name { result.now ≡ fault_name self }
        ensures short { length result.now ≤ 17 }
    {
        match self {
            FaultKind::TooLarge => "TooLarge",
            FaultKind::BadLine => "BadLine",
            FaultKind::KeyOutsideSection => "KeyOutsideSection",
            FaultKind::DuplicateSection => "DuplicateSection",
            FaultKind::DuplicateKey => "DuplicateKey",
            FaultKind::MissingSection => "MissingSection",
            FaultKind::BadNumber => "BadNumber",
            FaultKind::AmbiguousNumber => "AmbiguousNumber",
            FaultKind::BadList => "BadList",
            FaultKind::ListedTwice => "ListedTwice",
            FaultKind::MissingKey => "MissingKey",
            FaultKind::BadType => "BadType",
            FaultKind::LeftOutType => "LeftOutType",
            FaultKind::BadAccess => "BadAccess",
            FaultKind::BadLimits => "BadLimits",
            FaultKind::BadDefault => "BadDefault",
            FaultKind::MissingSub0 => "MissingSub0",
            FaultKind::CompactForm => "CompactForm",
            FaultKind::MissingMandatory => "MissingMandatory",
            FaultKind::Memory => "Memory",
        }
    }
}

/// Prints the name, as `BadList`.
impl fmt::Display for FaultKind {
    ghost use Rattle.std.specs.Prelude.{Some};
    ghost use Rattle.co_sheet_rows.specs.FaultTexts.{fault_name};

    ghost output = { λ kind. Some (fault_name kind) };

    fn fmt<W: fmt::Write>(&self, f: &mut fmt::Formatter<W>) -> fmt::Result {
        f.write_str(self.name())
    }
}

/// What is wrong with a text, and where.
#[derive(Clone, Copy, Debug, PartialEq, Eq)]
pub struct SheetFault {
    pub kind: FaultKind,
    /// From 1; 0 where no line is to blame.
    pub line: usize,
}

impl SheetFault {
    ghost use Rattle.std.specs.Prelude.{◌≡◌};
    ghost use Rattle.co_sheet_rows.specs.FaultTexts.{fault_text};

    /// Number, name and line, as `fault 9 BadList line 1`.
    pub fn text(&self) -> ArrayString<80>
        ensures { result.bytes ≡ fault_text self.now }
    {
        let mut text = ArrayString::new();
        text.push_str("fault ");
        text.push_str(decimal_digits(u64::from(self.kind.number())).as_str());
        text.push(' ');
        text.push_str(self.kind.name());
        text.push_str(" line ");
        text.push_str(decimal_digits(self.line as u64).as_str());
        text
    }
}

/// Prints the fault as `text` has it.
impl fmt::Display for SheetFault {
    ghost use Rattle.std.specs.Prelude.{Some};
    ghost use Rattle.co_sheet_rows.specs.FaultTexts.{fault_text};

    ghost output = { λ fault. Some (fault_text fault) };

    fn fmt<W: fmt::Write>(&self, f: &mut fmt::Formatter<W>) -> fmt::Result {
        f.write_str(self.text().as_str())
    }
}

impl Error for SheetFault {}
