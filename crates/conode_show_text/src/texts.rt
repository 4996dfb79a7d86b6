//! Texts of a sheet. Each function with a text appends to it. `Err`: out of memory; a part of the
//! text may be there.

ghost use Rattle.std.specs.Prelude.{◌≡◌, ◌++◌, OnOk, string_bytes};
ghost use Rattle.co_sheet_text.specs.Views.{section_view};
ghost use Rattle.conode_show_text.specs.Phrases.{piece_text};
ghost use Rattle.conode_show_text.specs.Texts.{plain_text, property_text};

use crate::phrase::Piece;
use co_sheet_text::TextSection;
use conode_json::characters_of;
use conode_lint_text::push_all_shown;
use std::alloc::AllocError;

/// Appends a text of the sheet: read as UTF-8 if it is valid, else as Windows-1252, with control
/// characters, and others that can't be seen or turn the text around, escaped.
#[tactic(auto, unfolding(crate::specs::Texts::plain_text))]
pub(crate) fn push_plain(text: &mut String, bytes: &[u8]) -> Result<(), AllocError>
    ensures { OnOk result (string_bytes text.new ≡ string_bytes text.old ++ plain_text bytes.now) }
{
    let characters = attempt!(characters_of(*text.allocator(), bytes));
    push_all_shown(text, characters.as_slice())
}

/// The text of a property, nothing if the section has none.
#[tactic(auto, unfolding(crate::specs::Texts::property_text))]
pub(crate) fn property_text<'a>(section: &TextSection<'_, 'a>, name: &[u8]) -> Piece<'a>
    ensures { piece_text result ≡ property_text name.now (section_view section.now) }
{
    match section.property(name) {
        Some(property) => Piece::Plain(property.value),
        None => Piece::Nothing,
    }
}
