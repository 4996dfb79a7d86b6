//! The text of an entry. Each function appends a text; on an `Err` memory ran out, and a part of it
//! may be there.

ghost use Rattle.std.specs.Prelude.{◌≡◌, ◌++◌, OnOk, string_bytes};
ghost use Rattle.std.specs.Option.{option_copied};
ghost use Rattle.conode_explain_values.specs.Values.{entry_text, HasBits, named_key};

use crate::value::push_value;
use crate::value_type::ValueType;
use co_value::Key;
use std::alloc::AllocError;

/// Appends the name of an entry, if it has one, and its key, as `Temperature 2001:01`.
pub fn push_named_key(text: &mut String, name: Option<&str>, key: Key) -> Result<(), AllocError>
    ensures { OnOk result (string_bytes text.new
        ≡ string_bytes text.old ++ named_key (option_copied name.entry) key) }
{
    if let Some(letters) = name {
        attempt!(text.push_str(letters));
        attempt!(text.push_str(" "));
    }
    text.push_str(key.text().as_str())
}

/// Appends an entry with its value, as `push_value` has it: `Temperature 2001:01 = 1000`.
#[tactic(auto, unfolding(crate::specs::Values::entry_text))]
pub fn push_entry(
    text: &mut String,
    name: Option<&str>,
    key: Key,
    value_type: ValueType,
    bits: usize,
    bytes: &[u8],
) -> Result<(), AllocError>
    requires { HasBits bits bytes.now }
    ensures { OnOk result (string_bytes text.new
        ≡ string_bytes text.old
        ++ entry_text (option_copied name.entry) key value_type bits bytes.now) }
{
    attempt!(push_named_key(text, name, key));
    attempt!(text.push_str(" = "));
    push_value(text, value_type, bits, bytes)
}
