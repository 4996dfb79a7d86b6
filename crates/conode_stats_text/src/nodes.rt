//! The lines of the page about nodes. Each function appends a text.

ghost use Rattle.std.specs.Prelude.{◌≡◌, ◌/◌};
ghost use Rattle.conode_stats_text.specs.Papers.{IsAppended};
ghost use Rattle.conode_stats_text.specs.NodeLines.{
  answer_of,
  is_shown,
  millis_of,
  node_in,
  shown_word,
  state_word,
};

use crate::cells::Cell;
use crate::paper::Paper;
use conode_stats_counts::{NmtState, Node, Shown};

/// The words of a state.
pub fn state_word(state: NmtState) -> &'static str
    ensures { result.now ≡ state_word state }
{
    match state {
        NmtState::BootUp => "boot-up",
        NmtState::PreOperational => "pre-operational",
        NmtState::Operational => "operational",
        NmtState::Stopped => "stopped",
        NmtState::Unknown => "unknown",
    }
}

fn millis_of(end: u64, micros: u64) -> Option<u64>
    ensures { result ≡ millis_of end micros }
{
    if end == 0 { None } else { Some(micros / 1000) }
}

fn answer_of(end: u64, answer: Option<u64>) -> Option<u64>
    ensures { result ≡ answer_of end answer }
{
    if end == 0 { None } else { answer }
}

fn shown_word(last: Option<Shown>) -> &'static str
    ensures { result.now ≡ shown_word last }
{
    match last {
        Some(last) => state_word(last.state),
        None => "-",
    }
}

/// Whether a node has a line: it sent a frame of error control, or an answer.
pub fn is_shown(node: &Node) -> bool
    ensures { result ≡ is_shown node.now }
{
    node.last.is_some() || node.longest_answer.is_some()
}

/// Appends the line of a node on an interface, if it has one. `end` is the stamp of the bus's last
/// frame, in microseconds;
#[tactic(auto, using(crate::proofs::Appended::none), unfolding(crate::specs::NodeLines::node_line))]
pub(crate) fn push_node_in(paper: &mut Paper, interface: &[u8], end: u64, number: u32, node: &Node)
    ensures { IsAppended paper.old (node_in interface.now end number node.now) paper.new }
{
    if !is_shown(node) {
        return;
    }
    let times = &node.times;
    paper.put_cells(&[
        Cell::Column(interface),
        Cell::Gap("  "),
        Cell::Count(8, number as u64),
        Cell::Count(13, node.boot_ups),
        Cell::Count(12, node.restarts),
        Cell::Millis(13, millis_of(end, times.boot_up)),
        Cell::Millis(19, millis_of(end, times.pre_operational)),
        Cell::Millis(15, millis_of(end, times.operational)),
        Cell::Millis(13, millis_of(end, times.stopped)),
        Cell::Millis(13, millis_of(end, times.unknown)),
        Cell::Millis(19, answer_of(end, node.longest_answer)),
        Cell::Gap("  "),
        Cell::Gap(shown_word(node.last)),
        Cell::Gap("\n"),
    ])
}
