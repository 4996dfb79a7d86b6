//! The bytes that an entry begins with.

ghost use Rattle.std.specs.Prelude.{◌≡◌, ◌<◌, ℕ, List, length, true, Some, IfOk};
ghost use Rattle.std.specs.Char.{digit_value};
ghost use Rattle.std.specs.List.{list_all};
ghost use Rattle.co_sheet.specs.Names.{is_hexadecimal_digit};
ghost use Rattle.co_sheet.specs.Views.{default_view};
ghost use Rattle.co_sheet.specs.Limits.{pairs};
ghost use Rattle.co_sheet.specs.SheetViews.{row_view};
ghost use Rattle.co_dict_build.specs.Capacities.{decoded, default_bytes};
ghost use Rattle.co_value.specs.Types.{width_of};
ghost use Rattle.co_sheet.specs.SheetLaws.{limit_or};
ghost use Rattle.co_dict_build.specs.InitialBytes.{nearest_to_zero, initial_number, initial_of};
ghost use Rattle.co_dict_build.specs.SheetRows.{IsReady};

use crate::capacity::limit_or;
use co_profile::IndexRange;
use co_sheet::{EntryRow, Preset};
use co_value::{DataType, Key, to_bytes};
use std::alloc::{AllocError, Global};

// the number that a hexadecimal digit writes
fn digit_value(digit: u8) -> u8
    requires { is_hexadecimal_digit digit ≡ true }
    ensures value { result ≡ digit_value digit }
    ensures small { result < 16 }
{
    match char::from(digit).to_digit(16) {
        Some(value) => value as u8,
        None => 0,
    }
}

// the bytes that pairs of hexadecimal digits write
fn decoded(alloc: Global, digits: &[u8]) -> Result<Vec<u8>, AllocError>
    requires { list_all is_hexadecimal_digit digits.now ≡ true }
    ensures { IfOk result (λ bytes. bytes.items ≡ decoded digits.now) }
{
    let mut bytes = Vec::new(alloc);
    let mut rest = digits;
    while let [high, low, others @ ..] = rest {
        bytes.push(16 * digit_value(*high) + digit_value(*low))?;
        rest = others;
    }
    Ok(bytes)
}

// the bytes of a string's default
fn default_bytes(alloc: Global, default: &Preset<'_>) -> Result<Vec<u8>, AllocError>
    requires { (digits : List ℕ) → default_view default.now ≡ pairs digits
        → list_all is_hexadecimal_digit digits ≡ true }
    ensures { IfOk result (λ bytes. bytes.items ≡ default_bytes (default_view default.now)) }
{
    match *default {
        Preset::Text(bytes) => Vec::from_slice(alloc, bytes),
        Preset::Pairs(digits) => decoded(alloc, digits),
        Preset::Absent | Preset::Number(_) | Preset::NodeId(_) => Ok(Vec::new(alloc)),
    }
}

fn nearest_to_zero(low: i128, high: i128) -> i128
    ensures { result ≡ nearest_to_zero low high }
{
    if 0 < low {
        low
    } else if high < 0 {
        high
    } else {
        0
    }
}

// the number that a numeric entry begins with
fn initial_number(node_id: u8, row: &EntryRow<'_>) -> i128
    ensures { result ≡ initial_number node_id (row_view row.now) }
{
    const REQUEST: Key = Key {
        index: IndexRange::SDO_SERVER.0,
        sub: 1,
    };
    const ANSWER: Key = Key {
        index: IndexRange::SDO_SERVER.0,
        sub: 2,
    };
    if row.key == REQUEST {
        return 0x600 + i128::from(node_id);
    }
    if row.key == ANSWER {
        return 0x580 + i128::from(node_id);
    }
    match row.default {
        Preset::Number(value) => value,
        Preset::NodeId(number) => i128::from(node_id) + i128::from(number),
        Preset::Absent | Preset::Text(_) | Preset::Pairs(_) => nearest_to_zero(
            limit_or(row.low, row.data_type.least()),
            limit_or(row.high, row.data_type.greatest()),
        ),
    }
}

/// The bytes that the entry of a row begins with.
pub(crate) fn initial_bytes(
    alloc: Global,
    node_id: u8,
    row: &EntryRow<'_>,
) -> Result<Vec<u8>, AllocError>
    requires { IsReady node_id (row_view row.now) }
    ensures value { IfOk result (λ bytes. bytes.items ≡ initial_of node_id (row_view row.now)) }
    ensures width { (width : ℕ) → width_of (row_view row.now).data_type ≡ Some width
        → IfOk result (λ bytes. length bytes.items ≡ width) }
{
    match row.data_type {
        DataType::VisibleString | DataType::OctetString => default_bytes(alloc, &row.default),
        DataType::Domain => Ok(Vec::new(alloc)),
        numeric => match to_bytes(numeric, initial_number(node_id, row)) {
            Ok(bytes) => Vec::from_slice(alloc, &bytes),
            Err(_) => unreachable!(),
        },
    }
}
