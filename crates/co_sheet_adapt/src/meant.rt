//! The sections that names with blanks mean (CiA 306, structure of an EDS).

ghost use Rattle.std.specs.Prelude.{◌≡◌, filter, map, IfOk};
ghost use Rattle.co_sheet_adapt.specs.Meant.{all_meant, as_meant, is_taken, is_well_named};
ghost use Rattle.co_sheet_adapt.specs.private.Named.{texts_at};
ghost use Rattle.co_sheet_changes.specs.Views.{group_view};

use crate::named::Texts;
use co_sheet_changes::Group;
use co_sheet_text::SectionKind;
use std::alloc::{AllocError, Global};

// whether a section is read with the blanks in its name
fn is_well_named(group: &Group) -> bool
    ensures { result ≡ is_well_named (group_view group.now) }
{
    SectionKind::of_name(group.name).is_read()
}

fn well_named<'s, 'a>(
    alloc: Global,
    groups: &[Group<'s, 'a>],
) -> Result<Vec<Group<'s, 'a>>, AllocError>
    ensures { IfOk result (λ made.
        map group_view made.items ≡ filter is_well_named (map group_view groups.now)) }
{
    let mut made = Vec::new(alloc);
    for group in groups {
        if is_well_named(group) {
            made.push(*group)?;
        }
    }
    Ok(made)
}

fn is_taken(named: &Texts, kind: SectionKind) -> bool
    ensures { result ≡ is_taken (texts_at named.now) kind }
{
    match kind {
        SectionKind::SubIndex(key) => named.has(key),
        _ => false,
    }
}

// a section of a sub-index with blanks in its name stays passed over beside one without them
fn as_meant<'s, 'a>(named: &Texts, group: &Group<'s, 'a>) -> Group<'s, 'a>
    ensures { group_view result ≡ as_meant (texts_at named.now) (group_view group.now) }
{
    if is_well_named(group) || !is_taken(named, group.kind) {
        return *group;
    }
    Group {
        kind: SectionKind::PassedOver,
        name: group.name,
        head: group.head,
        body: group.body,
    }
}

fn meant_by<'s, 'a>(
    alloc: Global,
    named: &Texts,
    groups: &[Group<'s, 'a>],
) -> Result<Vec<Group<'s, 'a>>, AllocError>
    ensures { IfOk result (λ made. map group_view made.items
        ≡ map (as_meant (texts_at named.now)) (map group_view groups.now)) }
{
    let mut made = Vec::new(alloc);
    for group in groups {
        made.push(as_meant(named, group))?;
    }
    Ok(made)
}

/// Sections as their names mean them.
pub(crate) fn all_meant<'s, 'a>(
    alloc: Global,
    groups: &[Group<'s, 'a>],
) -> Result<Vec<Group<'s, 'a>>, AllocError>
    ensures { IfOk result (λ made.
        map group_view made.items ≡ all_meant (map group_view groups.now)) }
{
    let others = attempt!(well_named(alloc, groups));
    let named = attempt!(Texts::sections(alloc, others.as_slice()));
    meant_by(alloc, &named, groups)
}
