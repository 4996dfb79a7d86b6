//! What an entry has, and where that is from.

ghost use Rattle.std.specs.Prelude.{◌≡◌};
ghost use Rattle.conode_explain_cob_ids.specs.Origins.{is_from, number_by, value_at};

use conode_explain_entries::Value;

/// The number of 32 bits that an entry has: the one that the recording shows, else that of the data
/// sheet; `None` where it isn't known.
pub fn number_by(sheet: Option<u32>, value: Value) -> Option<u32>
    ensures { result ≡ number_by sheet value }
{
    match value {
        Value::Assumed => sheet,
        Value::Seen { number } => Some(number),
        Value::Saved { number } => Some(number),
        Value::Unknown => None,
    }
}

/// Where the value of an entry is from.
#[derive(Clone, Copy)]
pub enum Origin {
    /// The data sheet: nothing was shown of it.
    Sheet,
    /// A transfer showed it.
    Transfer,
    /// It came back with a boot-up.
    Store,
}

/// Whether the value of an entry is from there; one that was shown, and whose number isn't known,
/// is from none of them.
pub fn is_from(origin: Origin, value: Value) -> bool
    ensures { result ≡ is_from origin value }
{
    match (origin, value) {
        (Origin::Sheet, Value::Assumed)
        | (Origin::Transfer, Value::Seen { number: _ })
        | (Origin::Store, Value::Saved { number: _ }) => true,
        _ => false,
    }
}

/// What a sub-index has, of the values of the sub-indices from 0 on; past the last nothing was
/// shown.
pub fn value_at(values: &[Value], place: usize) -> Value
    ensures { result ≡ value_at values.now place }
{
    if place < values.len() {
        values[place]
    } else {
        Value::Assumed
    }
}
