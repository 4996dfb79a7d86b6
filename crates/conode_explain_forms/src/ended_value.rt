//! The value of an SDO transfer that ended.

ghost use Rattle.std.specs.Prelude.{◌≡◌, ◌++◌, OnOk, string_bytes};
ghost use Rattle.co_sheet.specs.SheetViews.{row_view};
ghost use Rattle.co_sheet_changes.specs.Names.{names_view};
ghost use Rattle.conode_explain_forms.specs.EndedValues.{
  end_value,
  is_in_parts,
  shows_value,
  value_words,
};

use crate::fields::is_done;
use co_sheet::EntryRow;
use co_sheet_changes::Names;
use conode_explain_pdo::type_in;
use conode_explain_transfers::{Ended, Protocol};
use conode_explain_values::push_value;
use std::alloc::AllocError;

fn is_in_parts(protocol: Protocol) -> bool
    ensures { result ≡ is_in_parts protocol }
{
    matches!(protocol, Protocol::Segmented | Protocol::Block)
}

fn shows_value(ended: &Ended) -> bool
    ensures { result ≡ shows_value ended.now }
{
    is_done(ended.ending)
        && (is_in_parts(ended.protocol) && ended.bytes == ended.first.len() as u64)
}

fn push_value_words(
    text: &mut String,
    names: Names<'_, '_>,
    ended: &Ended,
    row: &EntryRow<'_>,
) -> Result<(), AllocError>
    ensures { OnOk result (string_bytes text.new ≡ string_bytes text.old
        ++ value_words (names_view names.entry) ended.now (row_view row.now)) }
{
    let bytes = ended.first.as_slice();
    attempt!(text.push_str(" = "));
    attempt!(push_value(text, type_in(names, row), 8 * bytes.len(), bytes));
    text.push_str(",")
}

/// Appends the value of a node's SDO transfer that ended, as ` = "Motor",`, where the lines of its
/// frames don't have it: one in segments or blocks that is done, of up to 64 bytes, of an entry of
/// the node's sheet. On an `Err` memory ran out, and a part of it may be there.
#[tactic(auto, unfolding(crate::specs::EndedValues::end_value))]
pub fn push_end_value(
    text: &mut String,
    names: Names<'_, '_>,
    node: u8,
    ended: &Ended,
) -> Result<(), AllocError>
    ensures { OnOk result (string_bytes text.new
        ≡ string_bytes text.old ++ end_value (names_view names.entry) node ended.now) }
{
    if !shows_value(ended) {
        return Ok(());
    }
    match names.entry(node, ended.key) {
        Some(row) => push_value_words(text, names, ended, row),
        None => Ok(()),
    }
}
