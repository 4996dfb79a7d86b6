//! What comes in place of a line at fault.

ghost use Rattle.std.specs.Prelude.{◌≡◌};
ghost use Rattle.co_sheet_mend.specs.Repairs.{rank, repair_for, stronger};

use co_sheet_faults::FaultKind;

/// What comes in place of a line at fault.
#[derive(Clone, Copy)]
pub enum Repair {
    /// Nothing; of a section line one that begins a section which nothing reads, and of the object
    /// type ARRAY or RECORD, where a section of a sub-index is next, its number (CiA 301, object
    /// codes).
    Emptied,
    /// Of a data type the one that CiA 301 fixes for the entry, else DOMAIN, whose values are
    /// bytes; of a section line that line, and a VAR; nothing of another property.
    Typed,
    /// An entry that is read and written.
    ReadWrite,
    /// The section line, and after it a data type and an access type, those that the section lacks.
    Completed,
    /// Of the section line of an object list: that line, and the objects that the list names,
    /// counted and numbered from 1. Of line 0: the list of the mandatory objects, which counts
    /// 1000h, 1001h and 1018h too.
    Counted,
    /// Of the section line of an ARRAY or a RECORD: a section of sub-index 0, and that line.
    Numbered,
}

impl Repair {
    // which of two comes: that with the smaller number
    fn rank(self) -> u8
        ensures { result ≡ rank self }
    {
        match self {
            Repair::Emptied => 0,
            Repair::Typed => 1,
            Repair::ReadWrite => 2,
            Repair::Completed => 3,
            Repair::Counted => 4,
            Repair::Numbered => 5,
        }
    }
}

/// Of two repairs of a line the one that comes.
pub(crate) fn stronger(one: Option<Repair>, other: Option<Repair>) -> Option<Repair>
    ensures { result ≡ stronger one other }
{
    match (one, other) {
        (None, other) => other,
        (one, None) => one,
        (Some(one), Some(other)) if one.rank() <= other.rank() => Some(one),
        (Some(_), Some(other)) => Some(other),
    }
}

/// What comes in place of a line with a fault of this kind; of line 0, which stands for the whole
/// text, see `mended_by`. `None`: nothing helps.
#[tactic(auto, unfolding(crate::specs::Repairs::repair_for))]
pub(crate) fn repair_for(kind: FaultKind) -> Option<Repair>
    ensures { result ≡ repair_for kind }
{
    match kind {
        FaultKind::TooLarge
        | FaultKind::BadLine
        | FaultKind::KeyOutsideSection
        | FaultKind::DuplicateSection
        | FaultKind::DuplicateKey
        | FaultKind::MissingSection
        | FaultKind::BadNumber
        | FaultKind::AmbiguousNumber
        | FaultKind::ListedTwice
        | FaultKind::BadLimits
        | FaultKind::BadDefault
        | FaultKind::CompactForm => Some(Repair::Emptied),
        FaultKind::BadType | FaultKind::LeftOutType => Some(Repair::Typed),
        FaultKind::BadAccess => Some(Repair::ReadWrite),
        FaultKind::MissingKey => Some(Repair::Completed),
        FaultKind::BadList | FaultKind::MissingMandatory => Some(Repair::Counted),
        FaultKind::MissingSub0 => Some(Repair::Numbered),
        FaultKind::Memory => None,
    }
}
