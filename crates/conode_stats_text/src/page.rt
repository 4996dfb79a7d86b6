//! The page.

ghost use Rattle.std.specs.Prelude.{◌≡◌, ◌≤◌, IfOk, IfSome, string_bytes};
ghost use Rattle.conode_stats_text.specs.Pages.{
  end_lines,
  most_at_top,
  nothing_line,
  nothing_words,
  page_lines,
  top_lines,
};
ghost use Rattle.conode_stats_text.specs.Papers.{IsAppended};

use crate::found::{count_found, push_found};
use crate::lines::push_count;
use crate::paper::Paper;
use crate::pieces::Piece;
use crate::sheet_facts::SheetFacts;
use crate::tables::{Table, push_node_table, push_table};
use conode_stats_counts::Counts;
use std::alloc::{AllocError, Global};

/// The contents of the page.
#[derive(Drop)]
pub struct Page<'a> {
    /// The counts of the recording.
    pub counts: &'a Counts,
    /// What data sheets have. For a node one for it comes before one for each node, of those one for
    /// an interface, and of these the first.
    pub sheets: &'a [SheetFacts<'a>],
    /// How many lines of the recording are bad.
    pub bad: u64,
    /// The bit rate in bit/s, at most 1,000,000, if one is given for all buses.
    pub bit_rate: Option<u32>,
}

/// The words about frames without a bus.
const MORE_INTERFACES: &str = "frames of more than 16 interfaces, not counted";

/// So many findings are all at the top of the page.
const MOST_FINDINGS: u64 = 20;

/// Of more than these so many of each kind.
const MOST_OF_KIND: u64 = 2;

// of so many that look wrong, so many of a kind are at the top
fn most_at_top(count: u64) -> u64
    ensures { result ≡ most_at_top count }
{
    if MOST_FINDINGS < count {
        MOST_OF_KIND
    } else {
        u64::MAX
    }
}

fn nothing_words(page: &Page<'_>) -> &'static str
    ensures { result.now ≡ nothing_words page.now }
{
    if page.counts.buses().is_empty() {
        "  no frames\n"
    } else {
        "  nothing\n"
    }
}

// where nothing looks wrong
#[tactic(auto, using(crate::proofs::Appended::none))]
fn push_nothing(paper: &mut Paper, page: &Page<'_>, count: u64)
    ensures { IsAppended paper.old (nothing_line count page.now) paper.new }
{
    if count == 0 && page.bad == 0 && page.counts.left_out() == 0 {
        paper.put(&[Piece::Words(nothing_words(page))]);
    }
}

// the top of the page
fn push_top(paper: &mut Paper, page: &Page<'_>, count: u64)
    ensures { IsAppended paper.old (top_lines count page.now) paper.new }
{
    paper.put(&[Piece::Words("What looks wrong\n")]);
    push_found(paper, page, 0, most_at_top(count));
    push_count(paper, "bad lines", page.bad);
    push_count(paper, MORE_INTERFACES, page.counts.left_out());
    push_nothing(paper, page, count);
}

// its end, where the top doesn't have all
#[tactic(auto, using(crate::proofs::Appended::none))]
fn push_end(paper: &mut Paper, page: &Page<'_>, count: u64)
    ensures { IsAppended paper.old (end_lines count page.now) paper.new }
{
    if MOST_FINDINGS < count {
        paper.put(&[Piece::Words("More of what looks wrong\n")]);
        push_found(paper, page, most_at_top(count), u64::MAX);
    }
}

/// The page: what looks wrong, the buses, their nodes, and their identifiers. So that 24 lines show
/// each kind of what looks wrong, only two findings of a kind are at the top where there are more
/// than 20 in all; the others are then at the end. `Err`: out of memory.
pub fn page_text(alloc: Global, page: &Page<'_>) -> Result<String, AllocError>
    requires { IfSome page.now.bit_rate (λ rate. rate ≤ 1000000) }
    ensures { IfOk result (λ text. string_bytes text ≡ page_lines page.now) }
{
    let count = count_found(alloc, page);
    let mut paper = Paper::new(alloc);
    push_top(&mut paper, page, count);
    push_table(alloc, &mut paper, page, Table::Buses);
    push_node_table(alloc, &mut paper, page);
    push_table(alloc, &mut paper, page, Table::Identifiers);
    push_end(&mut paper, page, count);
    paper.into_text()
}
