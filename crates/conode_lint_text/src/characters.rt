//! How the characters of a line are shown. Each function appends a text. `Err`: out of memory; a
//! part of it may be there.

ghost use Rattle.std.specs.Prelude.{◌≡◌, ◌++◌, OnOk, string_bytes};
ghost use Rattle.conode_lint_text.specs.Characters.{shown, shown_all};

use conode_text::{is_unseen, push_code};
use std::alloc::AllocError;

#[tactic(auto, unfolding(crate::specs::Characters::shown))]
fn push_shown(text: &mut String, character: char) -> Result<(), AllocError>
    ensures { OnOk result (string_bytes text.new ≡ string_bytes text.old ++ shown character) }
{
    let code = character as u32;
    if character == '\t' {
        text.push_str("\\t")
    } else if character.is_control() || code == 0xA0 || is_unseen(code) {
        push_code(text, code)
    } else {
        text.push(character)
    }
}

/// Appends characters as they are shown: control characters as `\t` and `\x1B`, a no-break space as
/// `\xA0`, others that can't be seen or turn the text around as `\u200B` and `\U000E0001`. `Err`: out of
/// memory; a part of the text may be there.
pub fn push_all_shown(text: &mut String, characters: &[char]) -> Result<(), AllocError>
    ensures { OnOk result
        (string_bytes text.new ≡ string_bytes text.old ++ shown_all characters.now) }
{
    for character in characters {
        attempt!(push_shown(text, *character));
    }
    Ok(())
}
