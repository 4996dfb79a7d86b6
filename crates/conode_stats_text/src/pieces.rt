//! Lines in pieces. Each function appends a text. `Err`: out of memory; a part of the text may be
//! there.

ghost use Rattle.std.specs.Prelude.{◌≡◌, ◌++◌, OnOk, string_bytes};
ghost use Rattle.std.specs.List.{flat_map};
ghost use Rattle.conode_stats_text.specs.Pieces.{piece_text};
ghost use Rattle.conode_stats_text.specs.StatsLines.{node_front};

use crate::cells::{push_seconds, push_tenths_in, push_thousandths};
use crate::figures::ratio;
use co_text::{push_decimal, push_u16, push_u32};
use co_value::Key;
use conode_explain_text::push_name;
use std::alloc::AllocError;

/// A piece of a line.
#[derive(Clone, Copy)]
pub(crate) enum Piece<'a> {
    Words(&'a str),
    /// The name of an interface.
    Name(&'a [u8]),
    /// The front of a line about a node: its interface and its number.
    Node(&'a [u8], u32),
    /// A number in decimal digits.
    Number(u64),
    /// Microseconds, in seconds.
    Seconds(u64),
    /// Microseconds, in milliseconds.
    Millis(u64),
    /// The share of the bits that fit, in percent with tenths, or a hyphen.
    Load(u64, u64),
    /// A number in eight hexadecimal digits.
    Long(u32),
    /// A number in four hexadecimal digits.
    Short(u16),
    /// The key of an entry.
    Entry(Key),
}

#[tactic(auto, unfolding(crate::specs::StatsLines::node_front))]
fn push_node(text: &mut String, interface: &[u8], node: u32) -> Result<(), AllocError>
    ensures { OnOk result (string_bytes text.new
        ≡ string_bytes text.old ++ node_front interface.now node) }
{
    attempt!(text.push_str("  "));
    attempt!(push_name(text, interface));
    attempt!(text.push_str(": node "));
    push_decimal(text, node as u64)
}

fn push_piece(text: &mut String, piece: &Piece<'_>) -> Result<(), AllocError>
    ensures { OnOk result
        (string_bytes text.new ≡ string_bytes text.old ++ piece_text piece.now) }
{
    match *piece {
        Piece::Words(words) => text.push_str(words),
        Piece::Name(name) => push_name(text, name),
        Piece::Node(interface, node) => push_node(text, interface, node),
        Piece::Number(number) => push_decimal(text, number),
        Piece::Seconds(micros) => push_seconds(text, micros),
        Piece::Millis(micros) => push_thousandths(text, micros),
        Piece::Load(bits, room) => push_tenths_in(text, ratio(bits, 1000, room)),
        Piece::Long(number) => push_u32(text, number),
        Piece::Short(number) => push_u16(text, number),
        Piece::Entry(key) => text.push_str(key.text().as_str()),
    }
}

/// Appends pieces.
pub(crate) fn push_pieces(text: &mut String, pieces: &[Piece<'_>]) -> Result<(), AllocError>
    ensures { OnOk result
        (string_bytes text.new ≡ string_bytes text.old ++ flat_map piece_text pieces.now) }
{
    for piece in pieces {
        attempt!(push_piece(text, piece));
    }
    Ok(())
}
