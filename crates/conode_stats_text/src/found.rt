//! What looks wrong in a recording, and the lines about it.

ghost use Rattle.std.specs.Prelude.{◌≡◌, length};
ghost use Rattle.conode_stats_counts.specs.Gaps.{counted};
ghost use Rattle.conode_stats_text.specs.Findings.{IsListed};
ghost use Rattle.conode_stats_text.specs.Found.{
  count_of,
  found,
  found_lines,
  found_on,
  kind_lines_of,
  node_found,
  nodes_found,
  open_found,
  open_found_on,
  row_found,
  rows_found,
  rows_found_of,
};
ghost use Rattle.conode_stats_text.specs.Papers.{IsAppended};

use crate::excerpt::Excerpt;
use crate::finding::{Kind, open_finding};
use crate::lines::push_count;
use crate::page::Page;
use crate::paper::Paper;
use crate::sheet_facts::{SheetFacts, sheet_time};
use crate::wrong::push_listed;
use conode_explain_transfers::Track;
use conode_stats_counts::{Bus, FailureRow};
use std::alloc::Global;

/// What looks wrong, in the order of the page.
const KINDS: [Kind; 13] = [
    Kind::Silence,
    Kind::Lateness,
    Kind::Loss,
    Kind::Restarts,
    Kind::Failures,
    Kind::Waits,
    Kind::Emergencies,
    Kind::Pause,
    Kind::StepsBack,
    Kind::ErrorFrames,
    Kind::MoreFailures,
    Kind::MoreEmergencies,
    Kind::MoreIdentifiers,
];

// what looks wrong in one way with a node
fn push_node_wrong(
    paper: &mut Paper,
    excerpt: &mut Excerpt,
    sheets: &[SheetFacts<'_>],
    bus: &Bus,
    kind: Kind,
    number: u8,
)
    ensures { IsListed paper.old excerpt.old
        (node_found kind sheets.now bus.now number)
        paper.new excerpt.new }
{
    if let Some(node) = bus.nodes().get(number as usize) {
        let time = sheet_time(sheets, bus.interface(), number);
        let finding = kind.of_node(bus, time, number, node);
        push_listed(paper, excerpt, bus.interface(), number as u32, &finding);
    }
}

// what looks wrong in one way with the nodes of a bus, by node
fn push_nodes_wrong(
    paper: &mut Paper,
    excerpt: &mut Excerpt,
    sheets: &[SheetFacts<'_>],
    bus: &Bus,
    kind: Kind,
)
    ensures { IsListed paper.old excerpt.old (nodes_found kind sheets.now bus.now)
        paper.new excerpt.new }
{
    for number in 1..128u8 {
        push_node_wrong(paper, excerpt, sheets, bus, kind, number);
    }
}

// a row, if it is of a node
fn push_row_wrong(
    paper: &mut Paper,
    excerpt: &mut Excerpt,
    interface: &[u8],
    row: &FailureRow,
    kind: Kind,
    node: u8,
)
    ensures { IsListed paper.old excerpt.old (row_found kind interface.now node row.now)
        paper.new excerpt.new }
{
    if row.cause.node == node {
        push_listed(paper, excerpt, interface, node as u32, &kind.of_row(row));
    }
}

// the rows of a node
fn push_rows_of(
    paper: &mut Paper,
    excerpt: &mut Excerpt,
    interface: &[u8],
    rows: &[FailureRow],
    kind: Kind,
    node: u8,
)
    ensures { IsListed paper.old excerpt.old (rows_found_of kind interface.now rows.now node)
        paper.new excerpt.new }
{
    for row in rows {
        push_row_wrong(paper, excerpt, interface, row, kind, node);
    }
}

// the SDO transfers that failed on a bus, or its EMCY messages, by node
fn push_rows_wrong(
    paper: &mut Paper,
    excerpt: &mut Excerpt,
    interface: &[u8],
    rows: &[FailureRow],
    kind: Kind,
)
    ensures { IsListed paper.old excerpt.old (rows_found kind interface.now rows.now)
        paper.new excerpt.new }
{
    for node in 1..128u8 {
        push_rows_of(paper, excerpt, interface, rows, kind, node);
    }
}

// the SDO transfer that is open on a channel of a bus
fn push_open_in(paper: &mut Paper, excerpt: &mut Excerpt, bus: &Bus, track: &Track)
    ensures { IsListed paper.old excerpt.old (open_found_on bus.now track.now)
        paper.new excerpt.new }
{
    let all = bus.all();
    let finding = open_finding(&all, &track.channel.unfinished(all.last));
    push_listed(paper, excerpt, bus.interface(), track.node as u32, &finding);
}

// the SDO transfers that are open on a bus
fn push_open_on(paper: &mut Paper, excerpt: &mut Excerpt, bus: &Bus)
    ensures { IsListed paper.old excerpt.old (open_found bus.now) paper.new excerpt.new }
{
    for track in bus.transfers().channels() {
        push_open_in(paper, excerpt, bus, track);
    }
}

// what looks wrong in one way on a bus
fn push_kind_on(
    paper: &mut Paper,
    excerpt: &mut Excerpt,
    sheets: &[SheetFacts<'_>],
    bus: &Bus,
    kind: Kind,
)
    ensures { IsListed paper.old excerpt.old (found_on kind sheets.now bus.now)
        paper.new excerpt.new }
{
    let interface = bus.interface();
    match kind {
        Kind::Silence | Kind::Lateness | Kind::Loss | Kind::Restarts => {
            push_nodes_wrong(paper, excerpt, sheets, bus, kind)
        }
        Kind::Failures => push_rows_wrong(paper, excerpt, interface, bus.transfers().rows(), kind),
        Kind::Waits => push_open_on(paper, excerpt, bus),
        Kind::Emergencies => {
            push_rows_wrong(paper, excerpt, interface, bus.emergencies().rows(), kind)
        }
        _ => push_listed(paper, excerpt, interface, 0, &kind.of_bus(bus)),
    }
}

// what looks wrong in one way, by bus
fn push_kind(paper: &mut Paper, excerpt: &mut Excerpt, page: &Page<'_>, kind: Kind)
    ensures { IsListed paper.old excerpt.old (found page.now kind) paper.new excerpt.new }
{
    for bus in page.counts.buses() {
        push_kind_on(paper, excerpt, page.sheets, bus, kind);
    }
}

// how much looks wrong in one way
fn count_kind(alloc: Global, page: &Page<'_>, kind: Kind) -> u64
    ensures { result ≡ counted (length (found page.now kind)) }
{
    // Nothing is listed.
    let mut excerpt = Excerpt::new(0, 0);
    push_kind(&mut Paper::new(alloc), &mut excerpt, page, kind);
    excerpt.seen
}

/// How many things look wrong, of all kinds. It saturates at 2^64 - 1.
pub(crate) fn count_found(alloc: Global, page: &Page<'_>) -> u64
    ensures { result ≡ count_of page.now }
{
    let mut count: u64 = 0;
    for kind in &KINDS {
        count = count.saturating_add(count_kind(alloc, page, *kind));
    }
    count
}

// what looks wrong in one way, from a place until another, and how many more there are
fn push_kind_lines(paper: &mut Paper, page: &Page<'_>, from: u64, until: u64, kind: Kind)
    ensures { IsAppended paper.old (kind_lines_of from until page.now kind) paper.new }
{
    let mut excerpt = Excerpt::new(from, until);
    push_kind(paper, &mut excerpt, page, kind);
    push_count(paper, kind.further(), excerpt.left());
}

/// Appends what looks wrong, of each kind from a place until another, and how many more there are.
#[tactic(auto, using(crate::proofs::Appended::none))]
pub(crate) fn push_found(paper: &mut Paper, page: &Page<'_>, from: u64, until: u64)
    ensures { IsAppended paper.old (found_lines from until page.now) paper.new }
{
    for kind in &KINDS {
        push_kind_lines(paper, page, from, until, *kind);
    }
}
