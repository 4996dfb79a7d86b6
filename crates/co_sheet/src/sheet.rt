//! A data sheet, read.

ghost use Rattle.std.specs.Prelude.{
  ◌≡◌,
  ◌<◌,
  ◌≤◌,
  [],
  map,
  true,
  All,
  AllPairs,
  IfOk,
  IfErr,
  IfSome,
  OnOk,
};
ghost use Rattle.co_sheet.specs.Checks.{checks};
ghost use Rattle.co_sheet.specs.Accepted.{first_found, IsAnswered};
ghost use Rattle.co_sheet_text.specs.Views.{section_view};
ghost use Rattle.co_sheet_text.specs.SectionLaws.{IsParsed};
ghost use Rattle.co_value.specs.Keys.{is_key_before};
ghost use Rattle.co_sheet.specs.Content.{IsSheetOf, IsWholeOf, is_dummy};
ghost use Rattle.co_sheet.specs.SheetViews.{row_view, object_row_view, section_name_view};
ghost use Rattle.co_sheet.specs.SheetLaws.{IsSheetRow, IsSheetContent};
ghost use Rattle.co_sheet.specs.private.SheetReadings.{AreEmpty, AreListsOf, IsReadOf};

use crate::checks::entries::read_entries;
use crate::checks::lists::{Listing, collect_indices, missing_mandatory, read_lists};
use crate::checks::objects::read_objects;
use crate::commissioning::node_id;
use crate::notes::add_notes;
use crate::rows::{add_section_names, dummies, sort_objects, sort_rows};
use crate::tables::{EntrySection, Tables};
use co_sheet_rows::{EntryRow, Note, Object, Section, SheetFault};
use co_sheet_text::TextSection;
use indexmap::IndexSet;
use std::alloc::Global;
use std::marker::Model;

/// The lists of a data sheet.
pub(crate) struct Lists<'a> {
    pub(crate) objects: Vec<Object<'a>>,
    pub(crate) entries: Vec<EntryRow<'a>>,
    pub(crate) sections: Vec<Section<'a>>,
    pub(crate) notes: Vec<Note>,
}

// Not derived: else each function that drops a sheet would contain the drop of each of its lists.
impl<'a> Drop for Lists<'a> {
    fn drop(self) {
        let Lists {
            objects,
            entries,
            sections,
            notes,
        } = self;
        drop(objects);
        drop(entries);
        drop(sections);
        drop(notes);
    }
}

/// The contents of a data sheet (CiA 306).
#[derive(Drop)]
pub struct Sheet<'a> {
    pub(crate) lists: Lists<'a>,
    pub(crate) dummies: [bool; 6],
    pub(crate) node_id: Option<u8>,
}

impl<'a> Model for Sheet<'a> {
    ghost use Rattle.co_sheet.specs.Content.{SheetContent};
    ghost use Rattle.co_sheet.specs.SheetViews.{content_view};
    ghost use Rattle.co_sheet.specs.SheetLaws.{IsSheetContent};

    ghost Value = { SheetContent };

    ghost view = { λ s. content_view s.lists.objects.items s.lists.entries.items
        s.lists.sections.items s.lists.notes.items s.dummies s.node_id };

    ghost invariant = { λ s. IsSheetContent (content_view s.lists.objects.items
        s.lists.entries.items s.lists.sections.items s.lists.notes.items s.dummies s.node_id) };
}

impl<'a> Sheet<'a> {
    /// The sheet of sections that are read already: what `read` makes of a text where no line has a
    /// fault. The fault is that of the first check that finds any, on the smallest line; or
    /// `Memory` with line 0: out of memory. Names and strings are borrowed from the text, not from
    /// the sections.
    pub fn of_sections(
        alloc: Global,
        sections: &[TextSection<'_, 'a>],
    ) -> Result<Sheet<'a>, SheetFault>
        requires { IsParsed (map section_view sections.now) }
        ensures sheet { IfOk result (IsSheetOf (map section_view sections.now)) }
        ensures whole { IfOk result (IsWholeOf (map section_view sections.now)) }
        ensures err { IfErr result
            (IsAnswered (first_found checks (map section_view sections.now))) }
    {
        let tables = Tables::new(alloc, sections)?;
        sheet_in(alloc, &tables)
    }

    /// The objects that the lists name from 1000h on, in increasing index.
    pub fn objects(&self) -> &[Object<'a>]
        ensures view { map object_row_view result.now ≡ self.now.objects }
        ensures increase { AllPairs (λ o p. o.index < p.index) result.now }
        // What the sheet keeps as a whole.
        ensures sheet { IsSheetContent self.now }
    {
        self.lists.objects.as_slice()
    }

    /// The entries of these objects, in increasing key. Limits are numbers of the entry's type, in
    /// order. A default, by ParameterValue or else DefaultValue, is of its type's form, a number
    /// within the limits, and of at most 512 bytes of text. A data type that CiA 301 fixes for a
    /// key is that one (object dictionary).
    pub fn entries(&self) -> &[EntryRow<'a>]
        ensures view { map row_view result.now ≡ self.now.rows }
        ensures each { All (λ e. IsSheetRow (row_view e)) result.now }
        ensures increase { AllPairs (λ e f. is_key_before e.key f.key ≡ true) result.now }
        // What the sheet keeps as a whole.
        ensures sheet { IsSheetContent self.now }
    {
        self.lists.entries.as_slice()
    }

    /// The section lines of the text in its order, those that are passed over too.
    pub fn sections(&self) -> &[Section<'a>]
        ensures { map section_name_view result.now ≡ self.now.sections }
    {
        self.lists.sections.as_slice()
    }

    /// What is odd in the text, in its order.
    pub fn notes(&self) -> &[Note]
        ensures { result.now ≡ self.now.notes }
    {
        self.lists.notes.as_slice()
    }

    /// Whether a dummy entry, 0002h to 0007h, may be mapped: DummyUsage has 1 for it (CiA 306,
    /// dummy usage).
    pub fn dummy(&self, index: u16) -> bool
        ensures { result ≡ is_dummy self.now.dummies index }
    {
        index >= 2
            && self
                .dummies
                .get(usize::from(index) - 2)
                .copied()
                .unwrap_or(false)
    }

    /// The node-ID that a device configuration file has for its node: NodeID of DeviceComissioning,
    /// where it is 1 to 127 (CiA 306, device commissioning).
    pub fn node_id(&self) -> Option<u8>
        ensures value { result ≡ self.now.node_id }
        ensures range { IfSome result (λ id. (1 ≤ id) × (id ≤ 127)) }
    {
        self.node_id
    }
}

impl<'a> Lists<'a> {
    // reads each list, what the steps need on the way into the lists that the caller has
    fn read_by_steps<'s>(
        &mut self,
        tables: &Tables<'s, 'a>,
        named: &mut Vec<Listing>,
        indices: &mut IndexSet<u64>,
        entries: &mut Vec<EntrySection<'s, 'a>>,
    ) -> Result<(), SheetFault>
        requires parsed { IsParsed tables.now }
        requires new { AreEmpty self.old }
        requires named { named.old.items ≡ [] }
        requires indices { indices.old.keys ≡ [] }
        requires entries { entries.old.items ≡ [] }
        ensures read { OnOk result (AreListsOf tables.now self.new) }
        ensures err { IfErr result (IsAnswered (first_found checks tables.now)) }
    {
        let sections = tables.sections();
        read_lists(named, sections)?;
        let listings = named.as_slice();
        collect_indices(indices, listings)?;
        read_objects(&mut self.objects, entries, tables, listings)?;
        read_entries(&mut self.entries, entries.as_slice())?;
        if let Some(fault) = missing_mandatory(indices) {
            return Err(fault);
        }
        sort_objects(&mut self.objects)?;
        sort_rows(&mut self.entries)?;
        add_section_names(&mut self.sections, sections)?;
        Ok(add_notes(&mut self.notes, tables, indices)?)
    }

    // reads each list
    fn read(&mut self, alloc: Global, tables: &Tables<'_, 'a>) -> Result<(), SheetFault>
        requires parsed { IsParsed tables.now }
        requires new { AreEmpty self.old }
        ensures read { OnOk result (AreListsOf tables.now self.new) }
        ensures err { IfErr result (IsAnswered (first_found checks tables.now)) }
    {
        // dropped here alone: else each way out of the steps would contain these drops
        let mut named = Vec::new(alloc);
        let mut indices = IndexSet::new(alloc);
        let mut entries = Vec::new(alloc);
        self.read_by_steps(tables, &mut named, &mut indices, &mut entries)
    }
}

// the sheet of the sections in these tables
fn sheet_in<'a>(alloc: Global, tables: &Tables<'_, 'a>) -> Result<Sheet<'a>, SheetFault>
    requires { IsParsed tables.now }
    ensures read { IfOk result (IsReadOf tables.now) }
    ensures err { IfErr result (IsAnswered (first_found checks tables.now)) }
{
    let mut lists = Lists {
        objects: Vec::new(alloc),
        entries: Vec::new(alloc),
        sections: Vec::new(alloc),
        notes: Vec::new(alloc),
    };
    lists.read(alloc, tables)?;
    let sections = tables.sections();
    Ok(Sheet {
        lists,
        dummies: dummies(sections),
        node_id: node_id(sections),
    })
}
