//! The words of changes.

ghost use Rattle.std.specs.Prelude.{◌≡◌};
ghost use Rattle.co_sheet_changes.specs.Words.{change_name};

use crate::change::ChangeKind;

/// What a change is called.
pub fn change_name(kind: ChangeKind) -> &'static str
    ensures { result.now ≡ change_name kind }
{
    match kind {
        ChangeKind::SectionName => "blanks in a section's name",
        ChangeKind::ListKey => "zeros before a list's key",
        ChangeKind::SubIndex0 => "sub-index 0 without its type or access",
        ChangeKind::CompactSubObj { .. } => "sub-indices in compact form",
        ChangeKind::CompactPdo { .. } => "PDOs in compact form",
        ChangeKind::ListCount => "objects of PDOs in the list",
        ChangeKind::DataType => "data type",
        ChangeKind::RealLimit => "limit of a REAL",
        ChangeKind::RealValue => "value of a REAL by its bits",
        ChangeKind::UnicodeValue => "text in UTF-16",
        ChangeKind::UnsignedLimit => "unsigned limit of a signed number",
        ChangeKind::SignExtended => "value with its sign extended",
        ChangeKind::OctetBlanks => "blanks between bytes",
        ChangeKind::EndMark => "end-of-file mark",
        ChangeKind::LeadingZero => "leading zero",
        ChangeKind::ForcedLimit => "limit against its type",
        ChangeKind::ForcedMapping => "mapping at fault",
        ChangeKind::ForcedSync => "bit 30 of the SYNC's COB-ID",
    }
}
