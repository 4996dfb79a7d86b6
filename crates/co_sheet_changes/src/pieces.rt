//! The pieces of a text that is rewritten.

ghost use Rattle.std.specs.Prelude.{◌≡◌, ◌++◌, ◌∷◌, [], map, option_map, IfOk, OnOk};
ghost use Rattle.std.specs.List.{flat_map};
ghost use Rattle.co_sheet_changes.specs.Pieces.{assigned, kept_piece, mended, mended_view, piece_of, piece_view, written};
ghost use Rattle.co_sheet_changes.specs.Views.{line_view};

use crate::change::{Change, ChangeKind, Mended, Piece};
use crate::line::Line;
use std::alloc::{AllocError, Global};

fn push_three(
    text: &mut Vec<u8>,
    first: &[u8],
    second: &[u8],
    third: &[u8],
) -> Result<(), AllocError>
    ensures { OnOk result
        (text.new.items ≡ text.old.items ++ first.now ++ second.now ++ third.now) }
{
    attempt!(text.extend_from_slice(first));
    attempt!(text.extend_from_slice(second));
    text.extend_from_slice(third)
}

/// Three texts, one after another. `Err`: out of memory.
pub fn joined(
    alloc: Global,
    first: &[u8],
    second: &[u8],
    third: &[u8],
) -> Result<Vec<u8>, AllocError>
    ensures { IfOk result (λ made. made.items ≡ first.now ++ second.now ++ third.now) }
{
    let mut made = Vec::new(alloc);
    attempt!(push_three(&mut made, first, second, third));
    Ok(made)
}

/// A line `NAME=VALUE`, ended by LF. `Err`: out of memory.
#[tactic(auto, unfolding(crate::specs::Pieces::assigned))]
pub fn assigned(alloc: Global, name: &[u8], value: &[u8]) -> Result<Vec<u8>, AllocError>
    ensures { IfOk result (λ made. made.items ≡ assigned name.now value.now) }
{
    let mut made = attempt!(joined(alloc, name, b"=", value));
    attempt_in_memory!(made.push(b'\n'));
    Ok(made)
}

/// A line with a value in place of the old one, if there is a value. `Err`: out of memory.
pub fn with_value(
    alloc: Global,
    kind: ChangeKind,
    name: &[u8],
    value: Option<Vec<u8>>,
) -> Result<Option<Mended>, AllocError>
    ensures { IfOk result (λ made. option_map mended_view made
        ≡ option_map (λ v. mended kind (assigned name.now v.items)) value) }
{
    let Some(value) = value else {
        return Ok(None);
    };
    let new = attempt!(assigned(alloc, name, value.as_slice()));
    Ok(Some(Mended { kind, new }))
}

/// What a line becomes.
pub fn piece_of<'a>(line: &Line<'a>, mended: Option<Mended>) -> Piece<'a>
    ensures { piece_view result ≡ piece_of (line_view line.now) (option_map mended_view mended) }
{
    match mended {
        Some(Mended { kind, new }) => Piece::Changed(Change {
            line: line.number,
            kind,
            old: line.bytes,
            new,
        }),
        None => Piece::Kept(line.bytes),
    }
}

/// Adds lines that stay. `Err`: out of memory.
pub fn push_kept<'a>(pieces: &mut Vec<Piece<'a>>, lines: &[Line<'a>]) -> Result<(), AllocError>
    ensures { OnOk result (map piece_view pieces.new.items
        ≡ map piece_view pieces.old.items ++ map kept_piece (map line_view lines.now)) }
{
    for line in lines {
        attempt_in_memory!(pieces.push(Piece::Kept(line.bytes)));
    }
    Ok(())
}

fn push_piece(text: &mut Vec<u8>, piece: &Piece) -> Result<(), AllocError>
    ensures { OnOk result (text.new.items ≡ text.old.items ++ written (piece_view piece.now)) }
{
    match piece {
        Piece::Kept(line) => {
            attempt!(text.extend_from_slice(line));
            text.extend_from_slice(b"\n")
        }
        Piece::Changed(change) => text.extend_from_slice(change.new.as_slice()),
        Piece::Added { text: added, .. } => text.extend_from_slice(added.as_slice()),
    }
}

/// Appends pieces as they are written. `Err`: out of memory.
pub fn push_pieces(text: &mut Vec<u8>, pieces: &[Piece]) -> Result<(), AllocError>
    ensures { OnOk result
        (text.new.items ≡ text.old.items ++ flat_map written (map piece_view pieces.now)) }
{
    for piece in pieces {
        attempt!(push_piece(text, piece));
    }
    Ok(())
}
