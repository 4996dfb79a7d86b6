//! Numbers in columns. Each function appends a text. `Err`: out of memory; a part of the text may
//! be there.

ghost use Rattle.std.specs.Prelude.{◌≡◌, ◌++◌, OnOk, string_bytes, replicate};
ghost use Rattle.conode_stats_text.specs.Cells.{
  figure,
  left,
  or_none,
  right,
  seconds,
  tenths,
  thousandths,
};
ghost use Rattle.std.specs.List.{flat_map};
ghost use Rattle.conode_stats_text.specs.Pieces.{cell_text, shown_text};
ghost use Rattle.conode_stats_text.specs.StatsLines.{id_text};

use co_text::{push_decimal, push_digit, push_u32};
use conode_explain_text::{push_micros, push_name};
use std::alloc::AllocError;

/// A cell of a table, or what is between two. Identifiers and figures are at the right of a column
/// of a width; a figure has a blank before it, also where it is wider than the column.
#[derive(Clone, Copy)]
pub(crate) enum Cell<'a> {
    /// Words between columns.
    Gap(&'a str),
    /// The name of an interface, at the left of a column.
    Column(&'a [u8]),
    Id(usize, u32),
    Count(usize, u64),
    /// A number of tenths, or a hyphen.
    Tenths(usize, Option<u64>),
    /// Microseconds in milliseconds, or milliseconds in seconds; or a hyphen.
    Millis(usize, Option<u64>),
}

fn push_blanks(text: &mut String, count: usize) -> Result<(), AllocError>
    ensures { OnOk result (string_bytes text.new ≡ string_bytes text.old ++ replicate count 32) }
{
    for _blank in 0..count {
        attempt!(text.push(' '));
    }
    Ok(())
}

fn push_right(text: &mut String, width: usize, cell: &str) -> Result<(), AllocError>
    ensures { OnOk result
        (string_bytes text.new ≡ string_bytes text.old ++ right width cell.now) }
{
    attempt!(push_blanks(text, width.saturating_sub(cell.len())));
    text.push_str(cell)
}

fn push_figure(text: &mut String, width: usize, cell: &str) -> Result<(), AllocError>
    ensures { OnOk result
        (string_bytes text.new ≡ string_bytes text.old ++ figure width cell.now) }
{
    attempt!(text.push(' '));
    push_right(text, width.saturating_sub(1), cell)
}

fn push_left(text: &mut String, width: usize, cell: &str) -> Result<(), AllocError>
    ensures { OnOk result (string_bytes text.new ≡ string_bytes text.old ++ left width cell.now) }
{
    attempt!(text.push_str(cell));
    push_blanks(text, width.saturating_sub(cell.len()))
}

/// Appends a number of thousandths, as `1.234`.
#[tactic(auto, unfolding(crate::specs::Cells::thousandths, co_text::specs::Printed::digits_text))]
pub(crate) fn push_thousandths(text: &mut String, number: u64) -> Result<(), AllocError>
    ensures { OnOk result
        (string_bytes text.new ≡ string_bytes text.old ++ thousandths number) }
{
    let places = number % 1000;
    attempt!(push_decimal(text, number / 1000));
    attempt!(text.push('.'));
    attempt!(push_digit(text, (places / 10 / 10 % 10) as u8));
    attempt!(push_digit(text, (places / 10 % 10) as u8));
    push_digit(text, (places % 10) as u8)
}

// a number of tenths, as `1.2`
#[tactic(auto, unfolding(crate::specs::Cells::tenths, co_text::specs::Printed::digits_text))]
fn push_tenths(text: &mut String, number: u64) -> Result<(), AllocError>
    ensures { OnOk result (string_bytes text.new ≡ string_bytes text.old ++ tenths number) }
{
    attempt!(push_decimal(text, number / 10));
    attempt!(text.push('.'));
    push_digit(text, (number % 10 % 10) as u8)
}

/// Appends a time in microseconds as seconds, as `1.000250`.
#[tactic(auto, unfolding(crate::specs::Cells::seconds))]
pub(crate) fn push_seconds(text: &mut String, micros: u64) -> Result<(), AllocError>
    ensures { OnOk result (string_bytes text.new ≡ string_bytes text.old ++ seconds micros) }
{
    attempt!(push_decimal(text, micros / 1_000_000));
    attempt!(text.push('.'));
    push_micros(text, (micros % 1_000_000) as u32)
}

/// Appends a number of tenths, or a hyphen for `None`.
pub(crate) fn push_tenths_in(text: &mut String, number: Option<u64>) -> Result<(), AllocError>
    ensures { OnOk result
        (string_bytes text.new ≡ string_bytes text.old ++ or_none tenths number) }
{
    match number {
        Some(number) => push_tenths(text, number),
        None => text.push('-'),
    }
}

fn push_thousandths_in(text: &mut String, number: Option<u64>) -> Result<(), AllocError>
    ensures { OnOk result
        (string_bytes text.new ≡ string_bytes text.old ++ or_none thousandths number) }
{
    match number {
        Some(number) => push_thousandths(text, number),
        None => text.push('-'),
    }
}

/// Appends an identifier.
#[tactic(auto, unfolding(crate::specs::StatsLines::id_text, co_text::specs::Printed::digits_text))]
pub fn push_id(text: &mut String, id: u32) -> Result<(), AllocError>
    ensures { OnOk result (string_bytes text.new ≡ string_bytes text.old ++ id_text id) }
{
    if id < 0x800 {
        attempt!(push_digit(text, (id / 16 / 16 % 16) as u8));
        attempt!(push_digit(text, (id / 16 % 16) as u8));
        push_digit(text, (id % 16) as u8)
    } else {
        push_u32(text, id % 0x8000_0000)
    }
}

// what a cell shows, without the blanks before or after it
fn push_shown(text: &mut String, cell: &Cell<'_>) -> Result<(), AllocError>
    ensures { OnOk result
        (string_bytes text.new ≡ string_bytes text.old ++ shown_text cell.now) }
{
    match *cell {
        Cell::Gap(words) => text.push_str(words),
        Cell::Column(name) => push_name(text, name),
        Cell::Id(_, id) => push_id(text, id),
        Cell::Count(_, count) => push_decimal(text, count),
        Cell::Tenths(_, number) => push_tenths_in(text, number),
        Cell::Millis(_, number) => push_thousandths_in(text, number),
    }
}

// `shown` is scratch space
fn push_cell(text: &mut String, shown: &mut String, cell: &Cell<'_>) -> Result<(), AllocError>
    ensures { OnOk result
        (string_bytes text.new ≡ string_bytes text.old ++ cell_text cell.now) }
{
    shown.clear();
    attempt!(push_shown(shown, cell));
    match *cell {
        Cell::Gap(_) => text.push_str(shown.as_str()),
        Cell::Column(_) => push_left(text, 15, shown.as_str()),
        Cell::Id(width, _) => push_right(text, width, shown.as_str()),
        Cell::Count(width, _) | Cell::Tenths(width, _) | Cell::Millis(width, _) => {
            push_figure(text, width, shown.as_str())
        }
    }
}

/// Appends the cells of a line. `shown` is scratch space.
pub(crate) fn push_cells(
    text: &mut String,
    shown: &mut String,
    cells: &[Cell<'_>],
) -> Result<(), AllocError>
    ensures { OnOk result
        (string_bytes text.new ≡ string_bytes text.old ++ flat_map cell_text cells.now) }
{
    for cell in cells {
        attempt!(push_cell(text, shown, cell));
    }
    Ok(())
}
