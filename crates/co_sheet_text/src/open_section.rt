//! The section that is being read.

ghost use Rattle.std.specs.Prelude.{
  ◌≡◌,
  ◌≤◌,
  ◌+◌,
  ◌⊎◌,
  ◌++◌,
  [],
  length,
  map,
  filter,
  drop,
  is_some,
  option_map,
  false,
  Some,
  None,
  OnOk,
  OnErr,
  IfErr,
};
ghost use Rattle.std.specs.List.{list_any};
ghost use Rattle.co_sheet_text.specs.Text.{same_name};
ghost use Rattle.co_sheet_text.specs.Sections.{property_at, name_value, property_given, fault_at};
ghost use Rattle.co_sheet_text.specs.LinesRead.{with_property, begun_section, all_digits, fault_within};
ghost use Rattle.co_sheet_text.specs.OutOfMemory.{out_of_memory};
ghost use Rattle.co_sheet_text.specs.Views.{property_view};
ghost use Rattle.co_sheet_text.specs.Cuts.{section_with};

use crate::fault::{TextFault, TextFaultKind};
use crate::header::Header;
use crate::numeral::all_digits;
use crate::section_kind::SectionKind;
use crate::text::same_name;
use crate::text_section::Property;
use indexmap::IndexSet;
use std::alloc::{AllocError, Global};

/// The section that is being read, and the properties of the text so far: from `first` on its own,
/// before that those of earlier sections.
///
/// Thousands of its names may be numbers, so these are in a set too; of others it has at most
/// eleven.
pub(crate) struct OpenSection<'a> {
    kind: SectionKind,
    name: &'a [u8],
    line: usize,
    properties: Vec<Property<'a>>,
    first: usize,
    numbers: IndexSet<&'a [u8]>,
    ghost within: { first ≤ length properties.items },
    ghost indexed: { map (λ n. n.now) numbers.keys
        ≡ filter all_digits (map (λ k. k.name.now) (drop first properties.items)) },
}

// Not derived: else each function that drops a section would contain the drop of each part.
impl<'a> Drop for OpenSection<'a> {
    fn drop(self) {
        let OpenSection {
            kind: _,
            name: _,
            line: _,
            properties,
            first: _,
            numbers,
        } = self;
        drop(properties);
        drop(numbers);
    }
}

impl<'a> OpenSection<'a> {
    ghost use Rattle.co_sheet_text.specs.OpenSections.{open_view, own_properties, earlier_properties, KeepsEarlier};

    /// The first section of a text, without properties so far.
    pub(crate) fn new(
        alloc: Global,
        kind: SectionKind,
        name: &'a [u8],
        line: usize,
    ) -> OpenSection<'a>
        ensures begun { open_view result ≡ begun_section kind name.now line }
        ensures first { result.first ≡ 0 }
        ensures earlier { earlier_properties result ≡ [] }
    {
        OpenSection {
            kind,
            name,
            line,
            properties: Vec::new(alloc),
            first: 0,
            numbers: IndexSet::new(alloc),
        }
    }

    /// What the section is about, by its name.
    pub(crate) fn kind(&self) -> SectionKind
        ensures { result ≡ self.now.kind }
    {
        self.kind
    }

    /// The section line, and how many properties the section has so far.
    pub(crate) fn header(&self) -> Header<'a>
        ensures whole { section_with result (own_properties self.now) ≡ open_view self.now }
        ensures count { result.count ≡ length (own_properties self.now) }
    {
        Header {
            kind: self.kind,
            name: self.name,
            line: self.line,
            count: self.properties.len() - self.first,
        }
    }

    /// Begins the section after this one, without properties so far.
    pub(crate) fn begin(&mut self, kind: SectionKind, name: &'a [u8], line: usize)
        ensures begun { open_view self.new ≡ begun_section kind name.now line }
        ensures first { self.new.first
            ≡ self.old.first + length (own_properties self.old) }
        ensures earlier { earlier_properties self.new
            ≡ earlier_properties self.old ++ own_properties self.old }
    {
        self.kind = kind;
        self.name = name;
        self.line = line;
        self.first = self.properties.len();
        // clearing takes time for the set's largest size so far, and few sections have numbers
        if !self.numbers.is_empty() {
            self.numbers.clear();
        }
    }

    /// All properties of the text.
    pub(crate) fn into_properties(self) -> Vec<Property<'a>>
        ensures { result.items
            ≡ earlier_properties self.entry ++ own_properties self.entry }
    {
        let OpenSection {
            kind: _,
            name: _,
            line: _,
            properties,
            first: _,
            numbers,
        } = self;
        drop(numbers);
        properties
    }

    // the properties of the section
    fn own_properties(&self) -> &[Property<'a>]
        ensures { result.now ≡ own_properties self.now }
    {
        let (_, own) = self.properties.as_slice().split_at(self.first);
        own
    }

    /// Whether the section has a property of this name so far.
    pub(crate) fn has(&self, name: &[u8]) -> bool
        ensures { result ≡ is_some (property_at name.now (open_view self.now)) }
    {
        if all_digits(name, 10) {
            self.numbers.contains(&name)
        } else {
            is_among(self.own_properties(), name)
        }
    }

    /// Adds a property that the section doesn't have yet. `Err`: out of memory.
    pub(crate) fn add(&mut self, property: Property<'a>) -> Result<(), AllocError>
        requires { is_some (property_at property.name.now (open_view self.old)) ≡ false }
        ensures ok { OnOk result (open_view self.new
            ≡ with_property (open_view self.old) (Some (property_view property.entry))) }
        ensures err { OnErr result (open_view self.new ≡ open_view self.old) }
        ensures earlier { KeepsEarlier self.old self.new }
    {
        self.properties.reserve(1)?;
        if all_digits(property.name, 10) {
            self.numbers.insert(property.name)?;
        }
        self.properties.push_reserved(property);
        Ok(())
    }

    /// Takes a line with a name and a value: adds the property, or passes over the line. `Err`: the
    /// line's fault, or out of memory.
    pub(crate) fn take_line(
        &mut self,
        name: &'a [u8],
        value: &'a [u8],
        line: usize,
    ) -> Result<(), TextFault>
        ensures good { OnOk result
            (fault_within (Some (open_view self.old)) (name_value name.now value.now) ≡ None) }
        ensures taken { OnOk result (open_view self.new ≡ with_property (open_view self.old)
            (property_given self.old.kind line (name_value name.now value.now))) }
        ensures kept { OnErr result (open_view self.new ≡ open_view self.old) }
        ensures earlier { KeepsEarlier self.old self.new }
        ensures err { IfErr result (λ fault. (fault ≡ out_of_memory)
            ⊎ (option_map (fault_at line) (fault_within (Some (open_view self.old))
            (name_value name.now value.now)) ≡ Some fault)) }
    {
        if value.is_empty() || !self.kind.reads(name) {
            return Ok(());
        }
        if self.has(name) {
            return Err(TextFault {
                kind: TextFaultKind::DuplicateKey,
                line,
            });
        }
        self.add(Property { name, value, line })?;
        Ok(())
    }
}

// whether one of the properties has this name
fn is_among(properties: &[Property], name: &[u8]) -> bool
    ensures { result ≡ list_any (λ k. same_name k.name.now name.now) properties.now }
{
    properties
        .iter()
        .any(|property| same_name(property.name, name))
}
