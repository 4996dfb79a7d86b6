//! Characters that can't be seen.

ghost use Rattle.std.specs.Prelude.{◌≡◌, ◌++◌, OnOk, string_bytes};
ghost use Rattle.conode_text.specs.Unseen.{
  code_text,
  is_high_unseen,
  is_low_unseen,
  is_middle_unseen,
  is_unseen,
};

use crate::filled::push_filled;
use crate::value::Value;
use std::alloc::AllocError;

fn is_low_unseen(code: u32) -> bool
    ensures { result ≡ is_low_unseen code }
{
    matches!(
        code,
        0xAD | 0x34F | 0x61C | 0x115F..=0x1160 | 0x1680 | 0x17B4..=0x17B5 | 0x180B..=0x180F
    )
}

fn is_middle_unseen(code: u32) -> bool
    ensures { result ≡ is_middle_unseen code }
{
    matches!(
        code,
        0x2000..=0x200F
            | 0x2028..=0x202F
            | 0x205F..=0x206F
            | 0x3000
            | 0x3164
            | 0xFE00..=0xFE0F
            | 0xFEFF
            | 0xFFA0
            | 0xFFF0..=0xFFFB
    )
}

fn is_high_unseen(code: u32) -> bool
    ensures { result ≡ is_high_unseen code }
{
    matches!(
        code,
        0x1_BCA0..=0x1_BCA3 | 0x1_D173..=0x1_D17A | 0xE_0000..=0xE_0FFF
    )
}

/// Whether a character above U+00A0 can't be seen, or turns the text around: blanks (Unicode's
/// White_Space), what is shown as nothing (Default_Ignorable_Code_Point), and U+FFF9 to U+FFFB.
pub fn is_unseen(code: u32) -> bool
    ensures { result ≡ is_unseen code }
{
    is_low_unseen(code) || is_middle_unseen(code) || is_high_unseen(code)
}

/// Appends a character by its number: `\x9B`, `\u202E`, `\U000E0001`. `Err`: out of memory; a part of
/// it may be there.
#[tactic(auto, unfolding(crate::specs::Filled::filled, crate::specs::Unseen::code_text))]
pub fn push_code(text: &mut String, code: u32) -> Result<(), AllocError>
    ensures { OnOk result (string_bytes text.new ≡ string_bytes text.old ++ code_text code) }
{
    if code < 0x100 {
        push_filled(text, "\\x%", &[Value::Byte(code as u8)])
    } else if code < 0x1_0000 {
        push_filled(text, "\\u%", &[Value::Short(code as u16)])
    } else {
        push_filled(text, "\\U%", &[Value::Long(code)])
    }
}
