//! The section of a kind.

ghost use Rattle.std.specs.Prelude.{◌≡◌, map, option_map};
ghost use Rattle.std.specs.Option.{option_copied};
ghost use Rattle.co_sheet_text.specs.Names.{same_kind};
ghost use Rattle.co_sheet_text.specs.Sections.{section_at};
ghost use Rattle.co_sheet_text.specs.Views.{section_view};

use co_sheet_text::{SectionKind, TextSection};

// whether two sections are about the same
fn same_kind(kind: SectionKind, other: SectionKind) -> bool
    ensures { result ≡ same_kind kind other }
{
    match kind {
        SectionKind::MandatoryObjects => matches!(other, SectionKind::MandatoryObjects),
        SectionKind::OptionalObjects => matches!(other, SectionKind::OptionalObjects),
        SectionKind::ManufacturerObjects => matches!(other, SectionKind::ManufacturerObjects),
        SectionKind::DummyUsage => matches!(other, SectionKind::DummyUsage),
        SectionKind::DeviceInfo => matches!(other, SectionKind::DeviceInfo),
        SectionKind::DeviceCommissioning => matches!(other, SectionKind::DeviceCommissioning),
        SectionKind::Object(index) => matches!(other, SectionKind::Object(of) if index == of),
        SectionKind::SubIndex(key) => {
            matches!(other, SectionKind::SubIndex(of) if key.index == of.index && key.sub == of.sub)
        }
        SectionKind::PassedOver => matches!(other, SectionKind::PassedOver),
    }
}

/// The section of a kind, if there is one.
pub fn section_at<'s, 'a>(
    sections: &'s [TextSection<'s, 'a>],
    kind: SectionKind,
) -> Option<&'s TextSection<'s, 'a>>
    ensures { option_map section_view (option_copied result)
        ≡ section_at kind (map section_view sections.now) }
{
    for section in sections {
        if same_kind(section.kind, kind) {
            return Some(section);
        }
    }
    None
}
