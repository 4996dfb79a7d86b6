//! The warnings of each kind in a text.

ghost use Rattle.std.specs.Prelude.{◌≡◌, ◌++◌, OnOk};
ghost use Rattle.co_sheet_text_warnings.specs.Places.{warnings_at};
ghost use Rattle.co_sheet_warnings.specs.Warnings.{few_places, other_places, warnings_with};

use crate::identity::identity_number;
use crate::in_sections::place_in;
use crate::repeats::{Once, add_repeats_of};
use co_sheet_text_warnings::{
    ListCheck, ReadText, Warning, WarningKind, add_each, add_long_lines, add_one,
    add_places_of_lists, date_formats, pdo_counts, place_in_text,
};
use std::alloc::{AllocError, Global};

// adds the warnings of a kind that applies at one line at most or in sections
fn add_others(
    warnings: &mut Vec<Warning>,
    text: &ReadText,
    kind: WarningKind,
) -> Result<(), AllocError>
    ensures { OnOk result (warnings.new.items
        ≡ warnings.old.items ++ warnings_at kind (other_places text.now kind)) }
{
    attempt!(add_one(warnings, kind, place_in_text(text, kind)));
    for section in text.sections() {
        attempt!(add_one(warnings, kind, place_in(text, kind, section)));
    }
    Ok(())
}

// the same, and of the kinds that are about the keys of DeviceInfo and FileInfo
#[tactic(auto, unfolding(crate::specs::Warnings::few_places))]
fn add_few(
    warnings: &mut Vec<Warning>,
    text: &ReadText,
    kind: WarningKind,
) -> Result<(), AllocError>
    ensures { OnOk result (warnings.new.items
        ≡ warnings.old.items ++ warnings_at kind (few_places text.now kind)) }
{
    match kind {
        WarningKind::PdoCount => add_each(warnings, kind, &pdo_counts(text)),
        WarningKind::IdentityNumber(sub) => add_one(
            warnings,
            kind,
            identity_number(text.keys, text.parts(0x1018), sub),
        ),
        WarningKind::DateFormat => add_each(warnings, kind, &date_formats(text.keys)),
        _ => add_others(warnings, text, kind),
    }
}

/// Adds the warnings of a kind.
#[tactic(auto, unfolding(crate::specs::Warnings::places_of))]
pub(crate) fn add_warnings_with(
    alloc: Global,
    warnings: &mut Vec<Warning>,
    text: &ReadText,
    kind: WarningKind,
) -> Result<(), AllocError>
    ensures { OnOk result (warnings.new.items ≡ warnings.old.items ++ warnings_with text.now kind) }
{
    let sections = text.sections();
    match kind {
        WarningKind::WrongList => {
            add_places_of_lists(alloc, warnings, kind, ListCheck::Objects, sections)
        }
        WarningKind::ListOrder => {
            add_places_of_lists(alloc, warnings, kind, ListCheck::Order, sections)
        }
        WarningKind::UncountedKey => {
            add_places_of_lists(alloc, warnings, kind, ListCheck::Count, sections)
        }
        WarningKind::SharedCobId(_) => match text.node {
            Some(node) => add_repeats_of(alloc, warnings, kind, Once::Identifiers(node), sections),
            None => Ok(()),
        },
        WarningKind::EqualNames => add_repeats_of(alloc, warnings, kind, Once::Names, sections),
        WarningKind::LongLine => add_long_lines(warnings, kind, text.lines),
        _ => add_few(warnings, text, kind),
    }
}
