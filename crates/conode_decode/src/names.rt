//! The name of an entry behind a text with its key.

ghost use Rattle.std.specs.Prelude.{◌≡◌, ◌++◌, OnOk, string_bytes};
ghost use Rattle.co_sheet_changes.specs.Names.{names_view};
ghost use Rattle.conode_decode.specs.Names.{name_text};

use crate::numbers::push_words;
use co_sheet_changes::Names;
use co_value::Key;
use std::alloc::AllocError;

/// Appends what follows a text with a key: a space and the name in double quotes, if there is
/// one. `Err`: out of memory; a part of it may be there.
#[tactic(auto, unfolding(crate::specs::Names::name_text))]
pub(crate) fn push_name(
    text: &mut String,
    names: Names<'_, '_>,
    node: u8,
    key: Option<Key>,
) -> Result<(), AllocError>
    ensures { OnOk result (string_bytes text.new
        ≡ string_bytes text.old ++ name_text (names_view names.entry) node key) }
{
    let Some(key) = key else {
        return Ok(());
    };
    let Some(name) = names.name(node, key) else {
        return Ok(());
    };
    attempt!(push_words(text, " \""));
    attempt!(push_words(text, name));
    push_words(text, "\"")
}
