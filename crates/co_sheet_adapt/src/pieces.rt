//! A text in pieces: the lines that stay, the lines that are changed, and what is added.

ghost use Rattle.std.specs.Prelude.{◌≡◌, ◌++◌, ◌∷◌, [], codes, if◌then◌else◌, map, option_map, IfOk, OnOk};
ghost use Rattle.std.specs.List.{flat_map, list_all};
ghost use Rattle.std.specs.Option.{option_copied};
ghost use Rattle.co_sheet_adapt.specs.Pieces.{
  stripped,
  is_padded,
  list_change,
  is_renamed,
  head_text,
  is_written_first,
  missing_lines,
  head_change,
  compact_change,
  form_change,
  is_zero,
  other_change,
  given_change,
  line_change,
  property_change,
  line_piece,
  own_pieces,
  added,
  group_pieces,
  sections_pieces,
  all_pieces,
};
ghost use Rattle.co_sheet_adapt.specs.Meant.{all_meant};
ghost use Rattle.co_sheet_adapt.specs.Named.{own_in_groups, text_in_groups};
ghost use Rattle.co_sheet_changes.specs.Groups.{groups_of};
ghost use Rattle.co_sheet_adapt.specs.private.Named.{texts_at, IsTablesOf};
ghost use Rattle.co_sheet_adapt.specs.private.Pdos.{form_view};
ghost use Rattle.co_sheet_changes.specs.Pieces.{mended_view, piece_view};
ghost use Rattle.co_sheet_changes.specs.Views.{group_view, line_view};

use crate::compact::{Compact, is_mapping};
use crate::compact_pdo::{PdoForm, pdo_change};
use crate::entry::entry_change;
use crate::facts::Facts;
use crate::meant::all_meant;
use crate::named::Texts;
use crate::pdo_sections::push_pdos;
use co_sheet::GREATEST_SIZE;
use co_sheet_changes::{
    AdaptFault, ChangeKind, Group, Line, Mended, Piece, assigned, before_sections, groups_in,
    joined, piece_of, push_kept, without_blanks,
};
use co_sheet_text::{SectionKind, all_digits, same_name, unsigned_number};
use co_text::decimal_digits;
use std::alloc::{AllocError, Global};

// digits without leading zeros
fn stripped(digits: &[u8]) -> &[u8]
    ensures { result.now ≡ stripped digits.now }
{
    let mut rest = digits;
    while let Some((first, others)) = rest.split_first() {
        if *first != b'0' {
            return rest;
        }
        rest = others;
    }
    rest
}

// whether a name is a place in an object list, but for leading zeros
fn is_padded(name: &[u8]) -> bool
    ensures { result ≡ is_padded name.now }
{
    let rest = stripped(name);
    all_digits(name, 10) && !rest.is_empty() && rest.len() < name.len()
}

fn list_change(alloc: Global, name: &[u8], value: &[u8]) -> Result<Option<Mended>, AllocError>
    ensures { IfOk result (λ made.
        option_map mended_view made ≡ list_change name.now value.now) }
{
    if !is_padded(name) {
        return Ok(None);
    }
    let new = attempt!(assigned(alloc, stripped(name), value));
    let kind = ChangeKind::ListKey;
    Ok(Some(Mended { kind, new }))
}

// whether a section is read without the blanks in its name alone
fn is_renamed(group: &Group) -> bool
    ensures { result ≡ is_renamed (group_view group.now) }
{
    group.kind.is_read() && !SectionKind::of_name(group.name).is_read()
}

// the section line without blanks in its name where that is needed, ended by LF
fn head_text(alloc: Global, group: &Group) -> Result<Vec<u8>, AllocError>
    ensures { IfOk result (λ made. made.items ≡ head_text (group_view group.now)) }
{
    if is_renamed(group) {
        let name = attempt!(without_blanks(alloc, group.name));
        let mut made = attempt!(joined(alloc, b"[", name.as_slice(), b"]"));
        attempt!(made.extend_from_slice(b"\n"));
        return Ok(made);
    }
    joined(alloc, group.head.bytes, b"\n", b"")
}

// whether sub-index 0 of an object is written
fn is_written_first(index: u16) -> bool
    ensures { result ≡ is_written_first index }
{
    index == 0x1003 || is_mapping(index)
}

// the lines of a type and an access that a section lacks
fn lines_lacked(no_type: bool, no_access: bool, is_written: bool) -> &'static [u8]
    ensures { result.now ≡ (if no_type then codes "DataType=0x0005\n" else [])
        ++ (if no_access then (if is_written then codes "AccessType=rw\n"
        else codes "AccessType=ro\n") else []) }
{
    match (no_type, no_access, is_written) {
        (false, false, _) => b"",
        (true, false, _) => b"DataType=0x0005\n",
        (false, true, false) => b"AccessType=ro\n",
        (false, true, true) => b"AccessType=rw\n",
        (true, true, false) => b"DataType=0x0005\nAccessType=ro\n",
        (true, true, true) => b"DataType=0x0005\nAccessType=rw\n",
    }
}

// what the section of a sub-index 0 lacks
fn missing_lines(group: &Group) -> &'static [u8]
    ensures { result.now ≡ missing_lines (group_view group.now) }
{
    match group.kind {
        SectionKind::SubIndex(key) if key.sub == 0 && group.number(b"ObjectType") != Some(2) => {
            let no_type = group.value(b"DataType").is_none();
            let no_access = group.value(b"AccessType").is_none();
            lines_lacked(no_type, no_access, is_written_first(key.index))
        }
        _ => b"",
    }
}

fn head_change(alloc: Global, group: &Group) -> Result<Option<Mended>, AllocError>
    ensures { IfOk result (λ made.
        option_map mended_view made ≡ head_change (group_view group.now)) }
{
    let missing = missing_lines(group);
    if missing.is_empty() && !is_renamed(group) {
        return Ok(None);
    }
    let kind = if missing.is_empty() {
        ChangeKind::SectionName
    } else {
        ChangeKind::SubIndex0
    };
    let mut new = attempt!(head_text(alloc, group));
    attempt!(new.extend_from_slice(missing));
    Ok(Some(Mended { kind, new }))
}

fn is_zero(value: &[u8]) -> bool
    ensures { result ≡ is_zero value.now }
{
    matches!(unsigned_number(value).ok(), Some(0))
}

// a line of an object in compact form
fn compact_change(
    alloc: Global,
    index: u16,
    count: u8,
    name: &[u8],
    value: &[u8],
) -> Result<Option<Mended>, AllocError>
    ensures { IfOk result (λ made.
        option_map mended_view made ≡ compact_change index count name.now value.now) }
{
    let kind = ChangeKind::CompactSubObj { index, count };
    if same_name(name, b"CompactSubObj") {
        let new = attempt!(assigned(alloc, name, b"0"));
        return Ok(Some(Mended { kind, new }));
    }
    if same_name(name, b"SubNumber") && is_zero(value) {
        let number = decimal_digits(u64::from(count) + 1);
        let new = attempt!(assigned(alloc, name, number.as_str().as_bytes()));
        return Ok(Some(Mended { kind, new }));
    }
    Ok(None)
}

// the same, of an object that is in compact form
fn form_change(
    alloc: Global,
    kind: SectionKind,
    compact: Option<u8>,
    name: &[u8],
    value: &[u8],
) -> Result<Option<Mended>, AllocError>
    ensures { IfOk result (λ made.
        option_map mended_view made ≡ form_change kind compact name.now value.now) }
{
    match (kind, compact) {
        (SectionKind::Object(index), Some(count)) => {
            compact_change(alloc, index, count, name, value)
        }
        _ => Ok(None),
    }
}

// what a name and its value become in a list or an entry
fn other_change(
    alloc: Global,
    kind: SectionKind,
    facts: &Facts,
    name: &[u8],
    value: &[u8],
) -> Result<Option<Mended>, AllocError>
    ensures { IfOk result (λ made.
        option_map mended_view made ≡ other_change kind facts.now name.now value.now) }
{
    if kind.is_list() {
        list_change(alloc, name, value)
    } else if facts.is_entry {
        entry_change(alloc, facts, name, value)
    } else {
        Ok(None)
    }
}

// what a name and its value become in a section
fn given_change(
    alloc: Global,
    kind: SectionKind,
    facts: &Facts,
    name: &[u8],
    value: &[u8],
) -> Result<Option<Mended>, AllocError>
    ensures { IfOk result (λ made.
        option_map mended_view made ≡ given_change kind facts.now name.now value.now) }
{
    match attempt!(form_change(alloc, kind, facts.compact, name, value)) {
        Some(mended) => Ok(Some(mended)),
        None => other_change(alloc, kind, facts, name, value),
    }
}

// what a name and its value become, in the sections of PDOs in compact form too
fn line_change(
    alloc: Global,
    pdos: Option<&PdoForm>,
    kind: SectionKind,
    facts: &Facts,
    name: &[u8],
    value: &[u8],
) -> Result<Option<Mended>, AllocError>
    ensures { IfOk result (λ made. option_map mended_view made
        ≡ line_change (option_map (λ f. form_view f.now) pdos.entry) kind facts.now name.now value.now) }
{
    match attempt!(pdo_change(alloc, pdos, kind, name, value)) {
        Some(mended) => Ok(Some(mended)),
        None => given_change(alloc, kind, facts, name, value),
    }
}

/// Adds a piece; a function of its own, so that what happens to it without memory is proved once.
pub(crate) fn push_piece<'a>(
    pieces: &mut Vec<Piece<'a>>,
    piece: Piece<'a>,
) -> Result<(), AllocError>
    ensures { OnOk result (pieces.new.items ≡ pieces.old.items ++ piece.entry ∷ []) }
{
    match pieces.push(piece) {
        Ok(()) => Ok(()),
        Err(_) => Err(AllocError),
    }
}

// what a line becomes by the name and the value that it gives a section
fn property_change(
    alloc: Global,
    pdos: Option<&PdoForm>,
    kind: SectionKind,
    facts: &Facts,
    line: &Line<'_>,
) -> Result<Option<Mended>, AllocError>
    ensures { IfOk result (λ made. option_map mended_view made
        ≡ property_change (option_map (λ f. form_view f.now) pdos.entry) kind facts.now
        (line_view line.now)) }
{
    match line.property() {
        Some((name, value)) => line_change(alloc, pdos, kind, facts, name, value),
        None => Ok(None),
    }
}

// adds the piece of a line of a section
fn push_line<'a>(
    alloc: Global,
    pieces: &mut Vec<Piece<'a>>,
    pdos: Option<&PdoForm>,
    kind: SectionKind,
    facts: &Facts,
    line: &Line<'a>,
) -> Result<(), AllocError>
    ensures { OnOk result (map piece_view pieces.new.items ≡ map piece_view pieces.old.items
        ++ line_piece (option_map (λ f. form_view f.now) pdos.entry) kind facts.now
        (line_view line.now) ∷ []) }
{
    if line.is_end_mark() {
        let new = Vec::new(alloc);
        let kind = ChangeKind::EndMark;
        return push_piece(pieces, piece_of(line, Some(Mended { kind, new })));
    }
    let mended = attempt!(property_change(alloc, pdos, kind, facts, line));
    push_piece(pieces, piece_of(line, mended))
}

/// The names and the values that the sections of a text give sub-indices, the sub-indices that have
/// a section of their own, and what the sections say of PDOs in compact form.
#[derive(Drop)]
pub(crate) struct Tables<'a> {
    pub(crate) own: Texts<'a>,
    pub(crate) names: Texts<'a>,
    pub(crate) values: Texts<'a>,
    pub(crate) pdos: Option<PdoForm>,
}

impl<'a> Tables<'a> {
    /// What sections give; a sub-index with a section among `own` gets none.
    pub(crate) fn of<'s>(
        alloc: Global,
        groups: &[Group<'s, 'a>],
        own: &[Group<'s, 'a>],
    ) -> Result<Tables<'a>, AllocError>
        ensures { IfOk result (IsTablesOf (map group_view groups.now) (map group_view own.now)) }
    {
        Ok(Tables {
            pdos: PdoForm::of(alloc, groups)?,
            names: Texts::of(alloc, groups, b"Name")?,
            values: Texts::of(alloc, groups, b"Value")?,
            own: Texts::sections(alloc, own)?,
        })
    }

    // adds the sections of an object in compact form
    fn push_added<'s>(
        &self,
        alloc: Global,
        pieces: &mut Vec<Piece<'a>>,
        facts: &Facts,
        group: &Group<'s, 'a>,
    ) -> Result<(), AllocError>
        ensures { OnOk result (map piece_view pieces.new.items
            ≡ map piece_view pieces.old.items ++ added (texts_at self.now.own)
            (texts_at self.now.names) (texts_at self.now.values) facts.now (group_view group.now)) }
    {
        let (SectionKind::Object(index), Some(count)) = (group.kind, facts.compact) else {
            return Ok(());
        };
        let compact = Compact {
            own: &self.own,
            names: &self.names,
            values: &self.values,
            facts,
            group,
            index,
        };
        let text = attempt!(compact.text(alloc, count));
        let line = group.head.number;
        push_piece(pieces, Piece::Added { line, text })
    }

    // adds the pieces of sections
    fn push_groups<'s>(
        &self,
        alloc: Global,
        pieces: &mut Vec<Piece<'a>>,
        groups: &[Group<'s, 'a>],
    ) -> Result<(), AdaptFault>
        ensures { OnOk result (map piece_view pieces.new.items
            ≡ map piece_view pieces.old.items ++ flat_map (group_pieces (texts_at self.now.own)
            (texts_at self.now.names) (texts_at self.now.values) (option_map form_view self.now.pdos))
            (map group_view groups.now)) }
    {
        let mut size: usize = 0;
        for group in groups {
            attempt_in_memory!(self.push_group(alloc, pieces, group));
            size = size.saturating_add(added_bytes(pieces.as_slice()));
            if size > GREATEST_SIZE {
                return Err(AdaptFault::TooLarge);
            }
        }
        Ok(())
    }

    // adds the pieces of a section
    fn push_group<'s>(
        &self,
        alloc: Global,
        pieces: &mut Vec<Piece<'a>>,
        group: &Group<'s, 'a>,
    ) -> Result<(), AllocError>
        ensures { OnOk result (map piece_view pieces.new.items
            ≡ map piece_view pieces.old.items ++ group_pieces (texts_at self.now.own)
            (texts_at self.now.names) (texts_at self.now.values) (option_map form_view self.now.pdos) (group_view group.now)) }
    {
        let pdos = self.pdos.as_ref();
        let facts = Facts::of(group);
        attempt!(push_own(alloc, pieces, pdos, &facts, group));
        attempt!(self.push_added(alloc, pieces, &facts, group));
        push_pdos(alloc, pieces, pdos, group)
    }
}

// adds the pieces of a section's own lines
fn push_own<'a>(
    alloc: Global,
    pieces: &mut Vec<Piece<'a>>,
    pdos: Option<&PdoForm>,
    facts: &Facts,
    group: &Group<'_, 'a>,
) -> Result<(), AllocError>
    ensures { OnOk result (map piece_view pieces.new.items ≡ map piece_view pieces.old.items
        ++ own_pieces (option_map (λ f. form_view f.now) pdos.entry) facts.now (group_view group.now)) }
{
    let head = attempt!(head_change(alloc, group));
    attempt!(push_piece(pieces, piece_of(&group.head, head)));
    push_lines(alloc, pieces, pdos, group.kind, facts, group.body)
}

// adds the pieces of lines of a section
fn push_lines<'a>(
    alloc: Global,
    pieces: &mut Vec<Piece<'a>>,
    pdos: Option<&PdoForm>,
    kind: SectionKind,
    facts: &Facts,
    lines: &[Line<'a>],
) -> Result<(), AllocError>
    ensures { OnOk result (map piece_view pieces.new.items ≡ map piece_view pieces.old.items
        ++ map (line_piece (option_map (λ f. form_view f.now) pdos.entry) kind facts.now)
        (map line_view lines.now)) }
{
    for line in lines {
        attempt!(push_line(alloc, pieces, pdos, kind, facts, line));
    }
    Ok(())
}

// how many bytes the last piece adds
fn added_bytes(pieces: &[Piece]) -> usize {
    match pieces.last() {
        Some(Piece::Added { text, .. }) => text.len(),
        _ => 0,
    }
}

// the sections of lines, as their names mean them
fn groups_meant<'s, 'a>(
    alloc: Global,
    lines: &'s [Line<'a>],
) -> Result<Vec<Group<'s, 'a>>, AllocError>
    ensures { IfOk result (λ groups.
        map group_view groups.items ≡ all_meant (groups_of (map line_view lines.entry.now))) }
{
    let groups = attempt!(groups_in(alloc, lines));
    all_meant(alloc, groups.as_slice())
}

// adds the pieces of all sections
fn push_sections<'a>(
    alloc: Global,
    pieces: &mut Vec<Piece<'a>>,
    lines: &[Line<'a>],
) -> Result<(), AdaptFault>
    ensures { OnOk result (map piece_view pieces.new.items
        ≡ map piece_view pieces.old.items
        ++ sections_pieces (all_meant (groups_of (map line_view lines.now)))) }
{
    let groups = attempt_in_memory!(groups_meant(alloc, lines));
    let sections = groups.as_slice();
    let tables = attempt_in_memory!(Tables::of(alloc, sections, sections));
    tables.push_groups(alloc, pieces, sections)
}

/// The pieces of a text of lines. `Err`: out of memory, or more is added than a data sheet may
/// have.
pub(crate) fn pieces_of<'a>(alloc: Global, lines: &[Line<'a>]) -> Result<Vec<Piece<'a>>, AdaptFault>
    ensures { IfOk result (λ pieces.
        map piece_view pieces.items ≡ all_pieces (map line_view lines.now)) }
{
    let mut pieces = Vec::new(alloc);
    attempt_in_memory!(push_kept(&mut pieces, before_sections(lines)));
    attempt!(push_sections(alloc, &mut pieces, lines));
    Ok(pieces)
}
