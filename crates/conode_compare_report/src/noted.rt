//! Differences that are listed, and the lines of the recording around them.

ghost use Rattle.std.specs.Prelude.{◌≡◌, ◌<◌, IfSome, length, nat_lt, position};
ghost use Rattle.conode_compare_report.specs.Contexts.{around, greatest_around};

use conode_compare_nmt::Finding;
use conode_compare_text::Details;
use std::marker::Model;

/// A difference that is listed.
#[derive(Clone, Copy)]
pub struct Noted {
    /// The number of its line in the recording, from 1 on.
    pub line: u64,
    /// Its stamp, in microseconds.
    pub micros: u64,
    /// What differs.
    pub finding: Finding,
    /// What its text has beside that.
    pub details: Details,
    /// Where the lines around it begin in `Report::context`.
    pub first: usize,
}

/// A line of the recording that is kept: a listed difference is at most three lines away.
#[derive(Drop)]
pub struct ContextLine {
    /// Its number, from 1 on.
    pub number: u64,
    /// Its bytes as recorded, without the line feed; none of a line of more than 512 bytes.
    pub bytes: Vec<u8>,
}

impl Model for ContextLine {
    ghost use Rattle.conode_compare_report.specs.Contexts.{KeptLine};

    ghost Value = { KeptLine };

    ghost view = { λ line. record { number = line.number; bytes = line.bytes.items } };
}

// where the first line after this number is
fn place_past(context: &[ContextLine], greatest: u64) -> Option<usize>
    ensures place { result ≡ position (λ line. nat_lt greatest line.number) context.now }
    ensures within { IfSome result (λ place. place < length context.now) }
{
    context.iter().position(|line| line.number > greatest)
}

/// The lines around a difference, among those that are kept: up to three before it, its own, and up
/// to three after it.
#[tactic(auto, using(crate::proofs::SpanLemmas::dropped_within))]
pub(crate) fn around<'r>(context: &'r [ContextLine], noted: &Noted) -> &'r [ContextLine]
    ensures { result.now ≡ around context.now noted.now }
{
    let first = noted.first.min(context.len());
    let (_, rest) = context.split_at(first);
    let greatest = noted.line.saturating_add(3);
    match place_past(rest, greatest) {
        Some(count) => &rest[..count],
        None => rest,
    }
}
