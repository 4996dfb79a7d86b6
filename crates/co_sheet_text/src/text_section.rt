//! The sections of a text, and their properties.

ghost use Rattle.std.specs.Prelude.{◌≡◌, option_map};
ghost use Rattle.co_sheet_text.specs.Sections.{property_at};
ghost use Rattle.co_sheet_text.specs.Properties.{property_number, number_at};
ghost use Rattle.co_sheet_text.specs.Views.{property_view, section_view};

use crate::numeral::unsigned_number;
use crate::section_kind::SectionKind;
use crate::text::same_name;

/// A property of a section: a name with a value, and its line (CiA 306, structure of an EDS).
#[derive(Clone, Copy)]
pub struct Property<'a> {
    pub name: &'a [u8],
    pub value: &'a [u8],
    /// From 1.
    pub line: usize,
}

impl Property<'_> {
    /// The value as a number that isn't negative; `None` where it is no such number.
    pub fn number(&self) -> Option<u64>
        ensures { result ≡ property_number (property_view self.now) }
    {
        unsigned_number(self.value).ok()
    }
}

/// A section of a text, with the properties that are read in it in the order of their lines.
#[derive(Clone, Copy)]
pub struct TextSection<'s, 'a> {
    pub kind: SectionKind,
    /// What is between `[` and the first `]`, without blanks at its ends.
    pub name: &'a [u8],
    /// From 1.
    pub line: usize,
    pub properties: &'s [Property<'a>],
}

impl<'s, 'a> TextSection<'s, 'a> {
    /// The property of this name, in any case of its letters; `None` where the section has none.
    pub fn property(&self, name: &[u8]) -> Option<Property<'a>>
        ensures { option_map property_view result ≡ property_at name.now (section_view self.now) }
    {
        for property in self.properties {
            if same_name(property.name, name) {
                return Some(*property);
            }
        }
        None
    }

    /// The number that the property of this name has; `None` where there is no such property, or
    /// its value is no number.
    pub fn number_at(&self, name: &[u8]) -> Option<u64>
        ensures { result ≡ number_at name.now (section_view self.now) }
    {
        self.property(name)?.number()
    }
}
