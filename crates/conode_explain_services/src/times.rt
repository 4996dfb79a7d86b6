//! TIME (CiA 301, 7.2.6).

ghost use Rattle.std.specs.Prelude.{◌≡◌, ◌++◌, OnOk, length, string_bytes};
ghost use Rattle.conode_explain_services.specs.Times.{time_words};

use conode_explain_values::{ValueType, push_value};
use std::alloc::AllocError;

/// Appends a TIME as its date and time; and that it is past the end of the day, where it is. On an
/// `Err` memory ran out, and a part of it may be there.
#[tactic(auto, unfolding(crate::specs::Times::time_words))]
pub(crate) fn push_time(text: &mut String, bytes: &[u8]) -> Result<(), AllocError>
    requires { length bytes.now ≡ 6 }
    ensures { OnOk result
        (string_bytes text.new ≡ string_bytes text.old ++ time_words bytes.now) }
{
    attempt!(text.push_str("TIME "));
    push_value(text, ValueType::TimeOfDay, 48, bytes)
}
