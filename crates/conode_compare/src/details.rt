//! What the line of a difference says that the difference doesn't have.

ghost use Rattle.std.specs.Prelude.{◌≡◌, true, map};
ghost use Rattle.std.specs.List.{AllPairs};
ghost use Rattle.co_sheet.specs.SheetViews.{row_view};
ghost use Rattle.co_value.specs.Keys.{is_key_before};
ghost use Rattle.conode_compare.specs.Compared.{details_at, details_of};
ghost use Rattle.conode_compare.specs.Detailed.{
  asks_to_write,
  first_bytes,
  number_in,
  passed_at,
  passed_by,
};
ghost use Rattle.conode_compare.specs.Views.{comparison_view};

use crate::writes::{Settings, shown_type};
use co_sheet::EntryRow;
use co_sheet_changes::row_at;
use co_value::{DataType, from_bytes};
use conode_compare_nmt::Finding;
use conode_compare_rules::FrameKind;
use conode_compare_text::{Came, Details, Passed};
use conode_compare_transfers::Exchange;
use conode_compare_values::Mismatch;

// whether the initiate request right before a frame asks to write
fn asks_to_write(exchange: &Option<Exchange>) -> bool
    ensures { result ≡ asks_to_write exchange.now }
{
    let Some(exchange) = exchange else {
        return false;
    };
    match exchange.asked {
        Some(asked) => asked.writes,
        None => false,
    }
}

// the first bytes of the transfer that ended with a frame
fn first_bytes(exchange: &Option<Exchange>) -> &[u8]
    ensures { result.now ≡ first_bytes exchange.now }
{
    let Some(exchange) = exchange else {
        return &[];
    };
    match &exchange.heard.ended {
        Some(ended) => ended.first.as_slice(),
        None => &[],
    }
}

// the number that was written
fn number_in(data_type: DataType, bytes: &[u8]) -> i128
    ensures { result ≡ number_in data_type bytes.now }
{
    let width = data_type.width().unwrap_or(0);
    let counted = &bytes[..width.min(bytes.len())];
    match from_bytes(data_type, counted) {
        Ok(number) => number,
        Err(_) => 0,
    }
}

// by the row of its entry; `above`: it is above HighLimit, else below LowLimit
fn passed_by(row: &EntryRow<'_>, above: bool, bytes: &[u8]) -> Passed
    ensures { result ≡ passed_by (row_view row.now) above bytes.now }
{
    let limit = if above { row.high } else { row.low };
    Passed {
        number: number_in(row.data_type, bytes),
        limit: limit.unwrap_or(0),
    }
}

// a number that was written with these bytes, and the limit that it is beyond
fn passed_at(rows: &[EntryRow<'_>], bytes: &[u8], finding: Finding) -> Passed
    requires { AllPairs (λ e f. is_key_before e.key f.key ≡ true) rows.now }
    ensures { result ≡ passed_at (map row_view rows.now) bytes.now finding }
{
    let (key, above) = match finding {
        Finding::Value(Mismatch::AboveLimit(key)) => (key, true),
        Finding::Value(Mismatch::BelowLimit(key)) => (key, false),
        _ => return Passed::none(),
    };
    match row_at(rows, key) {
        Some(row) => passed_by(row, above, bytes),
        None => Passed::none(),
    }
}

// Of a difference of a frame of this kind, by what that is on its SDO channel. Apart from
// `details_of`, since few frames have one.
#[inline(never)]
fn details_at(
    settings: &Settings<'_, '_>,
    kind: &FrameKind,
    exchange: &Option<Exchange>,
    finding: Finding,
) -> Details
    requires { AllPairs (λ e f. is_key_before e.key f.key ≡ true) settings.now.rows.now }
    ensures { result ≡ details_at (comparison_view settings.now) kind.now exchange.now finding }
{
    Details {
        value_type: shown_type(settings, finding),
        came: Came::at(kind),
        writes: asks_to_write(exchange),
        passed: passed_at(settings.rows, first_bytes(exchange), finding),
    }
}

/// Of the difference of a frame of this kind, if it has one, by what that is on its SDO channel.
#[inline(always)]
pub(crate) fn details_of(
    settings: &Settings<'_, '_>,
    kind: &FrameKind,
    exchange: &Option<Exchange>,
    finding: Option<Finding>,
) -> Details
    requires { AllPairs (λ e f. is_key_before e.key f.key ≡ true) settings.now.rows.now }
    ensures { result ≡ details_of (comparison_view settings.now) kind.now exchange.now finding }
{
    match finding {
        Some(finding) => details_at(settings, kind, exchange, finding),
        None => Details::none(),
    }
}
