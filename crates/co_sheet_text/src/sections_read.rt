//! The sections of the lines that are read so far.

ghost use Rattle.std.specs.Prelude.{◌≡◌, [], is_some, option_map, Some, OnOk, OnErr, IfOk, IfErr};
ghost use Rattle.std.specs.Option.{ForNone, ForSome};
ghost use Rattle.std.specs.List.{list_any};
ghost use Rattle.co_sheet_text.specs.Text.{Line, trim};
ghost use Rattle.co_sheet_text.specs.Names.{same_kind};
ghost use Rattle.co_sheet_text.specs.Sections.{section_line, name_value, malformed, section_at, fault_at, form_of};
ghost use Rattle.co_sheet_text.specs.LinesRead.{
  TakesForm,
  RefusesForm,
  TakesLine,
  RefusesLine,
  form_fault,
  fault_by_form,
  with_line,
  with_line_read,
};
ghost use Rattle.co_sheet_text.specs.LinesAtFault.{emptied_form, emptied};
ghost use Rattle.co_sheet_text.specs.Cuts.{property_count};
ghost use Rattle.co_sheet_text.specs.SectionsKept.{sections_kept};

use crate::fault::{TextFault, TextFaultKind};
use crate::header::Header;
use crate::line::{LineForm, form_of};
use crate::open_section::OpenSection;
use crate::parsed_text::ParsedText;
use crate::section_kind::SectionKind;
use indexmap::IndexSet;
use std::alloc::{AllocError, Global};

/// The most bytes of a line, its end not counted.
const LONGEST_LINE: usize = 512;

// what a line at fault is read as: a section line begins a section that nothing reads, any other
// line is empty
fn emptied(line: &[u8]) -> &'static [u8]
    ensures { result.now ≡ emptied_form (form_of (trim line.now)) }
{
    match form_of(line) {
        LineForm::Section(_) | LineForm::Unclosed => b"[]",
        LineForm::Skipped | LineForm::NameValue(_, _) | LineForm::Malformed => b"",
    }
}

/// The sections of the lines that are read so far: the finished ones by their section lines, and
/// the one that is being read, which holds the properties of all.
pub(crate) struct SectionsRead<'a> {
    closed: Vec<Header<'a>>,
    current: Option<OpenSection<'a>>,
    kinds: IndexSet<SectionKind>,
    ghost indexed: { (k : _) → list_any (same_kind k) kinds.keys
        ≡ is_some (section_at k (sections_kept closed.items current)) },
    ghost begun: { ForNone current (closed.items ≡ []) },
    ghost counted: { ForSome current (λ s. property_count closed.items ≡ s.first) },
}

// Not derived: else each function that drops the sections would contain the drop of each part.
impl<'a> Drop for SectionsRead<'a> {
    fn drop(self) {
        let SectionsRead {
            closed,
            current,
            kinds,
        } = self;
        drop(closed);
        drop(current);
        drop(kinds);
    }
}

impl<'a> SectionsRead<'a> {
    ghost use Rattle.co_sheet_text.specs.SectionsSoFar.{sections_so_far};

    /// Before the first line.
    pub(crate) fn new(alloc: Global) -> SectionsRead<'a>
        ensures { sections_so_far result ≡ [] }
    {
        SectionsRead {
            closed: Vec::new(alloc),
            current: None,
            kinds: IndexSet::new(alloc),
        }
    }

    // a section line
    fn take_section(&mut self, alloc: Global, name: &'a [u8], line: usize) -> Result<(), TextFault>
        ensures ok { OnOk result
            (TakesForm (sections_so_far self.old) line (section_line name.now)
            (sections_so_far self.new)) }
        ensures err { IfErr result
            (RefusesForm (sections_so_far self.old) line (section_line name.now)) }
        ensures kept { OnErr result (sections_so_far self.new ≡ sections_so_far self.old) }
    {
        self.closed.reserve(1)?;
        let kind = SectionKind::of_name(name);
        let is_new = self.kinds.insert(kind)?;
        if kind.is_read() && !is_new {
            return Err(TextFault {
                kind: TextFaultKind::DuplicateSection,
                line,
            });
        }
        match &mut self.current {
            Some(section) => {
                self.closed.push_reserved(section.header());
                section.begin(kind, name, line);
            }
            None => self.current = Some(OpenSection::new(alloc, kind, name, line)),
        }
        Ok(())
    }

    // a line with a property
    fn take_property(
        &mut self,
        name: &'a [u8],
        value: &'a [u8],
        line: usize,
    ) -> Result<(), TextFault>
        ensures ok { OnOk result
            (TakesForm (sections_so_far self.old) line (name_value name.now value.now)
            (sections_so_far self.new)) }
        ensures err { IfErr result
            (RefusesForm (sections_so_far self.old) line (name_value name.now value.now)) }
        ensures kept { OnErr result (sections_so_far self.new ≡ sections_so_far self.old) }
    {
        match &mut self.current {
            Some(section) => section.take_line(name, value, line),
            None => Err(TextFault {
                kind: TextFaultKind::KeyOutsideSection,
                line,
            }),
        }
    }

    // a line without `=`, or without a name before it
    fn take_malformed(&self, line: usize) -> Result<(), TextFault>
        ensures ok { OnOk result
            (TakesForm (sections_so_far self.now) line malformed (sections_so_far self.now)) }
        ensures err { IfErr result
            (λ fault. option_map (fault_at line)
            (form_fault (sections_so_far self.now) malformed) ≡ Some fault) }
    {
        let kind = match &self.current {
            None => TextFaultKind::KeyOutsideSection,
            Some(section) if section.kind().is_read() => TextFaultKind::BadLine,
            Some(_) => return Ok(()),
        };
        Err(TextFault { kind, line })
    }

    /// Takes one more line, of this number. `Err`: the line's fault, or out of memory.
    pub(crate) fn take_line(
        &mut self,
        alloc: Global,
        bytes: &'a [u8],
        number: usize,
    ) -> Result<(), TextFault>
        ensures ok { let line : Line = record { number = number; bytes = bytes.now } in
            OnOk result (TakesLine (sections_so_far self.old) line (sections_so_far self.new)) }
        ensures err { let line : Line = record { number = number; bytes = bytes.now } in
            IfErr result (RefusesLine (sections_so_far self.old) line) }
        ensures kept { OnErr result (sections_so_far self.new ≡ sections_so_far self.old) }
    {
        if bytes.len() > LONGEST_LINE {
            return Err(TextFault {
                kind: TextFaultKind::TooLarge,
                line: number,
            });
        }
        match form_of(bytes) {
            LineForm::Skipped => Ok(()),
            LineForm::Section(name) => self.take_section(alloc, name, number),
            LineForm::Unclosed => Err(TextFault {
                kind: TextFaultKind::BadLine,
                line: number,
            }),
            LineForm::NameValue(name, value) => self.take_property(name, value, number),
            LineForm::Malformed => self.take_malformed(number),
        }
    }

    // takes what a line at fault is read as
    fn take_emptied(
        &mut self,
        alloc: Global,
        bytes: &'a [u8],
        number: usize,
    ) -> Result<(), AllocError>
        ensures { let line : Line = record { number = number; bytes = bytes.now } in
            OnOk result
            (sections_so_far self.new ≡ with_line (sections_so_far self.old) (emptied line)) }
    {
        match self.take_line(alloc, emptied(bytes), number) {
            Ok(()) => Ok(()),
            Err(_) => Err(AllocError),
        }
    }

    /// Takes one more line in spite of its fault, and returns the fault.
    pub(crate) fn take_in_spite(
        &mut self,
        alloc: Global,
        bytes: &'a [u8],
        number: usize,
    ) -> Result<Option<TextFault>, AllocError>
        ensures fault { let line : Line = record { number = number; bytes = bytes.now } in
            IfOk result (λ fault. fault
            ≡ option_map (fault_at number) (fault_by_form (sections_so_far self.old) line)) }
        ensures taken { let line : Line = record { number = number; bytes = bytes.now } in
            OnOk result
            (sections_so_far self.new ≡ with_line_read (sections_so_far self.old) line) }
    {
        let Err(fault) = self.take_line(alloc, bytes, number) else {
            return Ok(None);
        };
        if fault.kind.is_memory() {
            return Err(AllocError);
        }
        self.take_emptied(alloc, bytes, number)?;
        Ok(Some(fault))
    }

    /// The sections, with one list of their properties.
    pub(crate) fn into_text(self, alloc: Global) -> Result<ParsedText<'a>, AllocError>
        ensures { IfOk result (λ text. text ≡ sections_so_far self.entry) }
    {
        let SectionsRead {
            mut closed,
            current,
            kinds,
        } = self;
        drop(kinds);
        let Some(section) = current else {
            return Ok(ParsedText {
                headers: closed,
                properties: Vec::new(alloc),
            });
        };
        closed.push(section.header())?;
        Ok(ParsedText {
            headers: closed,
            properties: section.into_properties(),
        })
    }
}
