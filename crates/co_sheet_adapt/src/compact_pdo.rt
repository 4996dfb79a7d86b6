//! PDOs in compact form (CiA 306, compact storage): the objects that no section describes.

ghost use Rattle.std.specs.Prelude.{◌≡◌, ◌≤◌, ◌+◌, ◌++◌, map, option_map, IfOk, IfSome, OnOk};
ghost use Rattle.std.specs.List.{list_any};
ghost use Rattle.std.specs.Option.{option_copied};
ghost use Rattle.co_sheet_changes.specs.Pieces.{mended_view};
ghost use Rattle.co_sheet_changes.specs.Views.{group_view, line_view};
ghost use Rattle.co_sheet_adapt.specs.CompactPdo.{
  absent_objects,
  absent_of,
  count_change,
  count_in,
  ends_reserved,
  form_change,
  form_in,
  form_with,
  group_at,
  has_needed,
  is_counted,
  is_in_list,
  is_past,
  key_moved,
  key_number,
  list_change,
  lists_line,
  is_kind,
  is_object_of,
  number_within,
  pdo_change,
  pdo_form,
  subs_of,
  unlisted_of,
};
ghost use Rattle.co_sheet_adapt.specs.private.Pdos.{form_view};

use co_sheet_changes::{ChangeKind, Group, Line, Mended, assigned};
use co_sheet_text::{SectionKind, number_in, same_name, unsigned_number};
use co_text::decimal_digits;
use std::alloc::{AllocError, Global};

/// What sections say of PDOs in compact form.
#[derive(Drop)]
pub(crate) struct PdoForm {
    /// The sub-indices of communication objects: bit 0 for sub-index 1, to bit 5 for sub-index 6.
    pub(crate) subs: u64,
    /// How many objects the list of optional objects has.
    pub(crate) listed: u16,
    /// The indices of the objects that get sections.
    pub(crate) absent: Vec<u16>,
    /// Those of them that no object list names.
    pub(crate) unlisted: Vec<u16>,
}

fn is_kind(kind: SectionKind, group: &Group) -> bool
    ensures { result ≡ is_kind kind (group_view group.now) }
{
    group.kind == kind
}

fn has_object(groups: &[Group], index: u16) -> bool
    ensures { result ≡ list_any (is_object_of index) (map group_view groups.now) }
{
    for group in groups {
        if is_kind(SectionKind::Object(index), group) {
            return true;
        }
    }
    false
}

// of this many objects from an index on, those that have no section
fn absent_of(
    alloc: Global,
    groups: &[Group],
    first: u16,
    count: u16,
) -> Result<Vec<u16>, AllocError>
    requires first { first ≤ 0x1A00 }
    requires few { count ≤ 512 }
    ensures { IfOk result (λ made. made.items ≡ absent_of (map group_view groups.now) first count) }
{
    (first..first + count)
        .filter(|index| !has_object(groups, *index))
        .collect(alloc)
}

// adds them
fn push_absent(
    alloc: Global,
    indices: &mut Vec<u16>,
    groups: &[Group],
    first: u16,
    count: u16,
) -> Result<(), AllocError>
    requires first { first ≤ 0x1A00 }
    requires few { count ≤ 512 }
    ensures { OnOk result (indices.new.items
        ≡ indices.old.items ++ absent_of (map group_view groups.now) first count) }
{
    let absent = attempt!(absent_of(alloc, groups, first, count));
    indices.extend_from_slice(absent.as_slice())
}

// the number of a key in decimal digits
fn key_number(name: &[u8]) -> Option<u64>
    ensures { result ≡ key_number name.now }
{
    number_in(10, name)
}

fn is_counted(count: u64, name: &[u8]) -> bool
    ensures { result ≡ is_counted count name.now }
{
    match key_number(name) {
        Some(number) => 1 <= number && number <= count,
        None => false,
    }
}

// whether a line of a list of so many objects names an index
fn lists_line(count: u64, index: u16, line: &Line) -> bool
    ensures { result ≡ lists_line count index (line_view line.now) }
{
    match line.property() {
        Some((name, value)) if is_counted(count, name) => {
            unsigned_number(value).ok() == Some(u64::from(index))
        }
        _ => false,
    }
}

fn count_in(group: &Group) -> u64
    ensures { result ≡ count_in (group_view group.now) }
{
    group.number(b"SupportedObjects").unwrap_or(0)
}

fn has_line(count: u64, index: u16, lines: &[Line]) -> bool
    ensures { result ≡ list_any (lists_line count index) (map line_view lines.now) }
{
    for line in lines {
        if lists_line(count, index, line) {
            return true;
        }
    }
    false
}

// whether a section is an object list that names an index
fn is_in_list(index: u16, group: &Group) -> bool
    ensures { result ≡ is_in_list index (group_view group.now) }
{
    group.kind.is_list() && has_line(count_in(group), index, group.body)
}

fn is_listed(groups: &[Group], index: u16) -> bool
    ensures { result ≡ list_any (is_in_list index) (map group_view groups.now) }
{
    for group in groups {
        if is_in_list(index, group) {
            return true;
        }
    }
    false
}

// of indices those that no object list names
fn unlisted_of(alloc: Global, groups: &[Group], indices: &[u16]) -> Result<Vec<u16>, AllocError>
    ensures { IfOk result (λ made.
        made.items ≡ unlisted_of (map group_view groups.now) indices.now) }
{
    indices
        .iter()
        .copied()
        .filter(|index| !is_listed(groups, *index))
        .collect(alloc)
}

fn group_at<'g, 's, 'a>(kind: SectionKind, groups: &'g [Group<'s, 'a>]) -> Option<&'g Group<'s, 'a>>
    ensures { option_map group_view (option_copied result)
        ≡ group_at kind (map group_view groups.entry.now) }
{
    for group in groups {
        if is_kind(kind, group) {
            return Some(group);
        }
    }
    None
}

fn number_within(low: u64, high: u64, name: &[u8], group: &Group) -> Option<u64>
    ensures number { result ≡ number_within low high name.now (group_view group.now) }
    ensures high { IfSome result (λ number. number ≤ high) }
{
    match group.number(name) {
        Some(number) if low <= number && number <= high => Some(number),
        _ => None,
    }
}

// whether COB-ID and transmission type are there, and at most sub-index 6
fn has_needed(subs: u64) -> bool
    ensures { result ≡ has_needed subs }
{
    subs % 4 == 3 && subs < 64
}

// whether the reserved sub-index 4 is there, and no sub-index 5
fn ends_reserved(subs: u64) -> bool
    ensures { result ≡ ends_reserved subs }
{
    subs / 8 % 2 == 1 && subs / 16 % 2 == 0
}

// the sub-indices by the bits of CompactPDO, which are counted from sub-index 1 or from sub-index 0
fn subs_of(bits: u64) -> Option<u64>
    ensures { result ≡ subs_of bits }
{
    if has_needed(bits) && !ends_reserved(bits) {
        Some(bits)
    } else if has_needed(bits / 2) {
        Some(bits / 2)
    } else {
        None
    }
}

// adds the objects of this many PDOs that have no section
fn push_absent_objects(
    alloc: Global,
    indices: &mut Vec<u16>,
    groups: &[Group],
    receive: u16,
    transmit: u16,
) -> Result<(), AllocError>
    requires receive { receive ≤ 512 }
    requires transmit { transmit ≤ 512 }
    ensures { OnOk result (indices.new.items
        ≡ indices.old.items ++ absent_objects (map group_view groups.now) receive transmit) }
{
    attempt!(push_absent(alloc, indices, groups, 0x1400, receive));
    attempt!(push_absent(alloc, indices, groups, 0x1600, receive));
    attempt!(push_absent(alloc, indices, groups, 0x1800, transmit));
    push_absent(alloc, indices, groups, 0x1A00, transmit)
}

impl PdoForm {
    // of this many PDOs each way
    fn with(
        alloc: Global,
        groups: &[Group],
        subs: u64,
        listed: u16,
        receive: u16,
        transmit: u16,
    ) -> Result<PdoForm, AllocError>
        requires receive { receive ≤ 512 }
        requires transmit { transmit ≤ 512 }
        ensures { IfOk result (λ form. form_view form
            ≡ form_with (map group_view groups.now) subs listed
            (absent_objects (map group_view groups.now) receive transmit)) }
    {
        let mut absent = Vec::new(alloc);
        attempt!(push_absent_objects(alloc, &mut absent, groups, receive, transmit));
        let unlisted = attempt!(unlisted_of(alloc, groups, absent.as_slice()));
        Ok(PdoForm {
            subs,
            listed,
            absent,
            unlisted,
        })
    }

    // by the section DeviceInfo and the list of optional objects
    fn within(
        alloc: Global,
        groups: &[Group],
        info: &Group,
        list: &Group,
    ) -> Result<Option<PdoForm>, AllocError>
        ensures { IfOk result (λ form. option_map form_view form
            ≡ form_in (map group_view groups.now) (group_view info.now) (group_view list.now)) }
    {
        let (Some(bits), Some(receive), Some(transmit), Some(listed)) = (
            number_within(1, 127, b"CompactPDO", info),
            number_within(0, 512, b"NrOfRXPDO", info),
            number_within(0, 512, b"NrOfTXPDO", info),
            number_within(0, 60_000, b"SupportedObjects", list),
        ) else {
            return Ok(None);
        };
        let Some(subs) = subs_of(bits) else {
            return Ok(None);
        };
        let form = PdoForm::with(
            alloc,
            groups,
            subs,
            listed as u16,
            receive as u16,
            transmit as u16,
        );
        Ok(Some(attempt!(form)))
    }

    /// What sections say; `None` where there is no compact form, or what it needs isn't there.
    pub(crate) fn of(alloc: Global, groups: &[Group]) -> Result<Option<PdoForm>, AllocError>
        ensures { IfOk result (λ form.
            option_map form_view form ≡ pdo_form (map group_view groups.now)) }
    {
        match (
            group_at(SectionKind::DeviceInfo, groups),
            group_at(SectionKind::OptionalObjects, groups),
        ) {
            (Some(info), Some(list)) => PdoForm::within(alloc, groups, info, list),
            _ => Ok(None),
        }
    }

    fn form_change(&self, alloc: Global, name: &[u8]) -> Result<Option<Mended>, AllocError>
        ensures { IfOk result (λ made.
            option_map mended_view made ≡ form_change (form_view self.now) name.now) }
    {
        if !same_name(name, b"CompactPDO") {
            return Ok(None);
        }
        let new = attempt!(assigned(alloc, name, b"0"));
        let count = self.absent.len() as u64;
        let subs = self.subs;
        let kind = ChangeKind::CompactPdo { count, subs };
        Ok(Some(Mended { kind, new }))
    }

    fn count_change(&self, alloc: Global, name: &[u8]) -> Result<Option<Mended>, AllocError>
        ensures { IfOk result (λ made.
            option_map mended_view made ≡ count_change (form_view self.now) name.now) }
    {
        if !same_name(name, b"SupportedObjects") || self.unlisted.is_empty() {
            return Ok(None);
        }
        let count = u64::from(self.listed) + self.unlisted.len() as u64;
        let new = attempt!(assigned(alloc, name, decimal_digits(count).as_str().as_bytes()));
        let kind = ChangeKind::ListCount;
        Ok(Some(Mended { kind, new }))
    }

    // a key that the list doesn't count, past those that it counts now
    fn key_moved(
        &self,
        alloc: Global,
        value: &[u8],
        number: u64,
    ) -> Result<Option<Mended>, AllocError>
        ensures { IfOk result (λ made.
            option_map mended_view made ≡ key_moved (form_view self.now) value.now number) }
    {
        if !is_past(u64::from(self.listed), number) || self.unlisted.is_empty() {
            return Ok(None);
        }
        let moved = decimal_digits(number + self.unlisted.len() as u64);
        let new = attempt!(assigned(alloc, moved.as_str().as_bytes(), value));
        let kind = ChangeKind::ListCount;
        Ok(Some(Mended { kind, new }))
    }

    fn list_change(
        &self,
        alloc: Global,
        name: &[u8],
        value: &[u8],
    ) -> Result<Option<Mended>, AllocError>
        ensures { IfOk result (λ made. option_map mended_view made
            ≡ list_change (form_view self.now) name.now value.now) }
    {
        match attempt!(self.count_change(alloc, name)) {
            Some(mended) => Ok(Some(mended)),
            None => match key_number(name) {
                Some(number) => self.key_moved(alloc, value, number),
                None => Ok(None),
            },
        }
    }
}

// whether a list of so many objects doesn't count a key
fn is_past(listed: u64, number: u64) -> bool
    ensures { result ≡ is_past listed number }
{
    listed < number && number < 0x1_0000_0000
}

/// What a line of DeviceInfo or of the list of optional objects becomes.
pub(crate) fn pdo_change(
    alloc: Global,
    form: Option<&PdoForm>,
    kind: SectionKind,
    name: &[u8],
    value: &[u8],
) -> Result<Option<Mended>, AllocError>
    ensures { IfOk result (λ made. option_map mended_view made
        ≡ pdo_change (option_map (λ f. form_view f.now) form.entry) kind name.now value.now) }
{
    match (form, kind) {
        (Some(form), SectionKind::DeviceInfo) => form.form_change(alloc, name),
        (Some(form), SectionKind::OptionalObjects) => form.list_change(alloc, name, value),
        _ => Ok(None),
    }
}
