//! What an entry states.

ghost use Rattle.std.specs.Prelude.{◌≡◌};
ghost use Rattle.co_sheet_text.specs.Numerals.{result_map};
ghost use Rattle.co_sheet.specs.Entries.{access_with};
ghost use Rattle.co_sheet.specs.Limits.{numeric_default, node_id_sum, is_node_id, is_pairs};
ghost use Rattle.co_sheet.specs.Views.{default_view};

use co_profile::Access;
use co_sheet_rows::Preset;
use co_sheet_text::{NumeralFault, all_digits, same_name, signed_numeral, trim, unsigned_number};
use co_text::split_at_first;
use co_value::DataType;

/// The access that a word means (CiA 306, object description); `None` for every other word.
pub fn access_with(word: &[u8]) -> Option<Access>
    ensures { result ≡ access_with word.now }
{
    if same_name(word, b"ro") {
        Some(Access::Ro)
    } else if same_name(word, b"wo") {
        Some(Access::Wo)
    } else if same_name(word, b"rw") {
        Some(Access::Rw)
    } else if same_name(word, b"rwr") {
        Some(Access::Rwr)
    } else if same_name(word, b"rww") {
        Some(Access::Rww)
    } else if same_name(word, b"const") {
        Some(Access::Constant)
    } else {
        None
    }
}

/// Reads the default of a numeric type: a number, `$NODEID`, or a sum of both with blanks allowed
/// round `+` (CiA 306, object description). The fault is that of the number; another form is
/// `Malformed`.
pub fn numeric_default(data_type: DataType, text: &[u8]) -> Result<Preset<'static>, NumeralFault>
    ensures { result_map default_view result ≡ numeric_default data_type text.now }
{
    if is_node_id(text) {
        return Ok(Preset::NodeId(0));
    }
    match split_at_first(text, b'+') {
        Some((left, right)) => node_id_sum(trim(left), trim(right)),
        None => Ok(Preset::Number(signed_numeral(text)?.value_at(data_type))),
    }
}

fn is_node_id(text: &[u8]) -> bool
    ensures { result ≡ is_node_id text.now }
{
    same_name(text, b"$NODEID")
}

fn node_id_sum(left: &[u8], right: &[u8]) -> Result<Preset<'static>, NumeralFault>
    ensures { result_map default_view result ≡ node_id_sum left.now right.now }
{
    if is_node_id(left) {
        Ok(Preset::NodeId(unsigned_number(right)?))
    } else if is_node_id(right) {
        Ok(Preset::NodeId(unsigned_number(left)?))
    } else {
        Err(NumeralFault::Malformed)
    }
}

/// Whether a text is pairs of hexadecimal digits, and nothing between them.
pub fn is_pairs(text: &[u8]) -> bool
    ensures { result ≡ is_pairs text.now }
{
    text.len() % 2 == 0 && all_digits(text, 16)
}
