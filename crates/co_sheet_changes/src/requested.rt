//! A text, rewritten on request.

ghost use Rattle.std.specs.Prelude.{◌≡◌, ◌++◌, ◌≤◌, ◌∷◌, [], length, map, option_map, IfOk, OnOk};
ghost use Rattle.std.specs.List.{flat_map};
ghost use Rattle.co_sheet_text.specs.Text.{lines_of};
ghost use Rattle.co_sheet_changes.specs.Pieces.{mended_view, piece_view};
ghost use Rattle.co_sheet_changes.specs.Views.{group_view, line_view};
ghost use Rattle.co_sheet_changes.specs.Requested.{
  change_in,
  facts_of,
  group_pieces,
  has_changes,
  is_changed,
  line_piece,
  numbers_of,
  pieces_on,
  request_view,
  requested_pieces,
  requested_text,
  text_with,
};

use crate::change::{Mended, Piece};
use crate::extended::has_extended_low;
use crate::fault::AdaptFault;
use crate::forced::{forced_change, limited_type};
use crate::group::{Group, before_sections, groups_in};
use crate::line::{Line, lines_in};
use crate::pieces::{piece_of, push_kept, push_pieces};
use crate::request::Request;
use crate::zeros::{has_numbers, zero_change};
use co_sheet::GREATEST_SIZE;
use co_sheet_text::SectionKind;
use co_value::DataType;
use std::alloc::{AllocError, Global};

/// A text, rewritten on request.
#[derive(Drop)]
pub struct Requested<'a> {
    /// The rewritten text. Each of its lines is in the place of the old line with the same number.
    pub text: Vec<u8>,
    /// Its lines, kept or changed; none where nothing is requested.
    pub pieces: Vec<Piece<'a>>,
    /// Whether a line is changed. Else the text stays as it is.
    pub has_changes: bool,
}

/// What the changes of a section's lines depend on.
#[derive(Clone, Copy)]
pub(crate) struct Facts {
    pub(crate) kind: SectionKind,
    /// Whether the values of its entry are numbers.
    pub(crate) numbers: bool,
    /// The data type to which its limits must belong.
    pub(crate) data_type: Option<DataType>,
    /// Whether its LowLimit is a negative number.
    pub(crate) has_extended_low: bool,
}

fn numbers_of(alloc: Global, request: Request<'_>, group: &Group) -> Result<bool, AllocError>
    ensures { IfOk result (λ has. has ≡ numbers_of (request_view request.entry) (group_view group.now)) }
{
    match request {
        Request::LeadingZeros(zeros) => has_numbers(alloc, zeros, group),
        Request::Force(_) => Ok(false),
    }
}

fn facts_of(alloc: Global, request: Request<'_>, group: &Group) -> Result<Facts, AllocError>
    ensures { IfOk result (λ facts. facts ≡ facts_of (request_view request.entry) (group_view group.now)) }
{
    let numbers = attempt!(numbers_of(alloc, request, group));
    Ok(Facts {
        kind: group.kind,
        numbers,
        data_type: limited_type(group),
        has_extended_low: has_extended_low(group),
    })
}

fn change_in(
    alloc: Global,
    request: Request<'_>,
    facts: &Facts,
    name: &[u8],
    value: &[u8],
) -> Result<Option<Mended>, AllocError>
    ensures { IfOk result (λ made. option_map mended_view made
        ≡ change_in (request_view request.entry) facts.now name.now value.now) }
{
    match request {
        Request::LeadingZeros(zeros) => {
            zero_change(alloc, zeros, facts.kind, facts.numbers, name, value)
        }
        Request::Force(mappings) => { forced_change(alloc, mappings, facts, name, value) }
    }
}

// adds a line of a section
fn push_line<'a>(
    alloc: Global,
    pieces: &mut Vec<Piece<'a>>,
    request: Request<'_>,
    facts: &Facts,
    line: &Line<'a>,
) -> Result<(), AllocError>
    ensures { OnOk result (map piece_view pieces.new.items ≡ map piece_view pieces.old.items
        ++ line_piece (request_view request.entry) facts.now (line_view line.now) ∷ []) }
{
    let mended = match line.property() {
        Some((name, value)) => attempt!(change_in(alloc, request, facts, name, value)),
        None => None,
    };
    attempt_in_memory!(pieces.push(piece_of(line, mended)));
    Ok(())
}

// adds the lines of a section
fn push_lines<'a>(
    alloc: Global,
    pieces: &mut Vec<Piece<'a>>,
    request: Request<'_>,
    facts: &Facts,
    lines: &[Line<'a>],
) -> Result<(), AllocError>
    ensures { OnOk result (map piece_view pieces.new.items ≡ map piece_view pieces.old.items
        ++ map (line_piece (request_view request.entry) facts.now) (map line_view lines.now)) }
{
    for line in lines {
        attempt!(push_line(alloc, pieces, request, facts, line));
    }
    Ok(())
}

fn push_group<'a>(
    alloc: Global,
    pieces: &mut Vec<Piece<'a>>,
    request: Request<'_>,
    group: &Group<'_, 'a>,
) -> Result<(), AllocError>
    ensures { OnOk result (map piece_view pieces.new.items ≡ map piece_view pieces.old.items
        ++ group_pieces (request_view request.entry) (group_view group.now)) }
{
    let facts = attempt!(facts_of(alloc, request, group));
    attempt_in_memory!(pieces.push(Piece::Kept(group.head.bytes)));
    push_lines(alloc, pieces, request, &facts, group.body)
}

fn push_groups<'a>(
    alloc: Global,
    pieces: &mut Vec<Piece<'a>>,
    request: Request<'_>,
    groups: &[Group<'_, 'a>],
) -> Result<(), AllocError>
    ensures { OnOk result (map piece_view pieces.new.items ≡ map piece_view pieces.old.items
        ++ flat_map (group_pieces (request_view request.entry)) (map group_view groups.now)) }
{
    for group in groups {
        attempt!(push_group(alloc, pieces, request, group));
    }
    Ok(())
}

// adds lines, those before the first section and the others by their sections
fn push_all<'a>(
    alloc: Global,
    pieces: &mut Vec<Piece<'a>>,
    request: Request<'_>,
    lines: &[Line<'a>],
) -> Result<(), AllocError>
    ensures { OnOk result (map piece_view pieces.new.items ≡ map piece_view pieces.old.items
        ++ pieces_on (request_view request.entry) (map line_view lines.now)) }
{
    attempt!(push_kept(pieces, before_sections(lines)));
    let groups = attempt!(groups_in(alloc, lines));
    push_groups(alloc, pieces, request, groups.as_slice())
}

// the lines of a text, none where nothing is requested
fn requested_pieces<'a>(
    alloc: Global,
    text: &'a [u8],
    request: Option<Request<'_>>,
) -> Result<Vec<Piece<'a>>, AllocError>
    requires { length text.now ≤ 1048576 }
    ensures { IfOk result (λ pieces. map piece_view pieces.items
        ≡ requested_pieces (option_map request_view request.entry) text.entry.now) }
{
    let Some(request) = request else {
        return Ok(Vec::new(alloc));
    };
    let lines = attempt!(lines_in(alloc, text));
    let mut pieces = Vec::new(alloc);
    attempt!(push_all(alloc, &mut pieces, request, lines.as_slice()));
    Ok(pieces)
}

fn is_changed(piece: &Piece<'_>) -> bool
    ensures { result ≡ is_changed (piece_view piece.now) }
{
    matches!(piece, Piece::Changed(_))
}

fn has_changes(pieces: &[Piece<'_>]) -> bool
    ensures { result ≡ has_changes (map piece_view pieces.now) }
{
    for piece in pieces {
        if is_changed(piece) {
            return true;
        }
    }
    false
}

// appends a text by its lines
fn push_with(made: &mut Vec<u8>, pieces: &[Piece<'_>], text: &[u8]) -> Result<(), AllocError>
    ensures { OnOk result (made.new.items
        ≡ made.old.items ++ text_with (map piece_view pieces.now) text.now) }
{
    if has_changes(pieces) {
        push_pieces(made, pieces)
    } else {
        made.extend_from_slice(text)
    }
}

fn text_with(alloc: Global, pieces: &[Piece<'_>], text: &[u8]) -> Result<Vec<u8>, AllocError>
    ensures { IfOk result (λ made.
        made.items ≡ text_with (map piece_view pieces.now) text.now) }
{
    let mut made = Vec::new(alloc);
    attempt!(push_with(&mut made, pieces, text));
    Ok(made)
}

/// Rewrites a data sheet (CiA 306) on request: each line stays, or is replaced by one line.
///
/// `TooLarge`: the text has more than 1,048,576 bytes. `Memory`: out of memory.
pub fn on_request<'a>(
    alloc: Global,
    text: &'a [u8],
    request: Option<Request<'_>>,
) -> Result<Requested<'a>, AdaptFault>
    ensures pieces { IfOk result (λ made. map piece_view made.pieces.items
        ≡ requested_pieces (option_map request_view request.entry) text.entry.now) }
    ensures text { IfOk result (λ made. made.text.items
        ≡ requested_text (option_map request_view request.entry) text.entry.now) }
    ensures changes { IfOk result (λ made. made.has_changes
        ≡ has_changes (requested_pieces (option_map request_view request.entry) text.entry.now)) }
{
    if text.len() > GREATEST_SIZE {
        return Err(AdaptFault::TooLarge);
    }
    let Ok(pieces) = requested_pieces(alloc, text, request) else {
        return Err(AdaptFault::Memory);
    };
    let Ok(made) = text_with(alloc, pieces.as_slice(), text) else {
        return Err(AdaptFault::Memory);
    };
    let has_changes = has_changes(pieces.as_slice());
    Ok(Requested {
        text: made,
        pieces,
        has_changes,
    })
}
