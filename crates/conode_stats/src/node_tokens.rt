//! The nodes of a bus in JSON. Each function writes tokens.

ghost use Rattle.std.specs.Prelude.{◌≡◌};
ghost use Rattle.conode_stats_text.specs.Papers.{IsAppended};
ghost use Rattle.conode_stats.specs.NodeTokens.{
  gap_in,
  last_in,
  late_gap_in,
  node_end,
  node_front,
  restart_in,
  since_in,
  state_member,
  tokens_in,
  wait_members,
};
ghost use Rattle.conode_stats.specs.Parts.{part_tokens};

use crate::document::Document;
use crate::parts::Part;
use conode_stats_counts::{Bus, Heartbeats, Node, Shown};
use conode_stats_text::{
    Pace, SheetFacts, Silence, is_shown, lost_gap, median, sheet_time, silence_of, state_word,
};

fn restart_in(node: &Node) -> Option<u64>
    ensures { result ≡ restart_in node.now }
{
    if node.restarts == 0 {
        None
    } else {
        Some(node.last_restart)
    }
}

// the state at the end, if it shows one
fn state_part(last: Option<Shown>) -> Part<'static>
    ensures { part_tokens result ≡ state_member last }
{
    match last {
        Some(last) => Part::Text("state", state_word(last.state)),
        None => Part::Nothing,
    }
}

fn last_in(last: Option<Shown>) -> Option<u64>
    ensures { result ≡ last_in last }
{
    match last {
        Some(last) => Some(last.micros),
        None => None,
    }
}

fn time_in(time: Option<u16>) -> Option<u64>
    ensures { result ≡ time }
{
    match time {
        Some(time) => Some(time as u64),
        None => None,
    }
}

fn gap_in(heartbeats: &Heartbeats) -> Option<u64>
    ensures { result ≡ gap_in heartbeats.now }
{
    if heartbeats.first.as_slice().len() == 0 {
        None
    } else {
        Some(heartbeats.longest)
    }
}

fn late_gap_in(heartbeats: &Heartbeats) -> Option<u64>
    ensures { result ≡ late_gap_in heartbeats.now }
{
    if heartbeats.late == 0 {
        None
    } else {
        Some(heartbeats.longest_late)
    }
}

// the counts of a node, its state at the end, and its times
#[tactic(auto, unfolding(crate::specs::NodeTokens::node_front))]
fn put_front(document: &mut Document, number: u32, node: &Node)
    ensures { IsAppended document.old
        (node_front number node.now) document.new }
{
    let times = &node.times;
    document.put(&[
        Part::BeginObject,
        Part::Number("node", number as u64),
        Part::Number("bootUps", node.boot_ups),
        Part::Number("restartsWithoutCommand", node.restarts),
        Part::NumberIf("lastRestart", restart_in(node)),
        state_part(node.last),
        Part::NumberIf("last", last_in(node.last)),
        Part::Object("times"),
        Part::Number("bootUp", times.boot_up),
        Part::Number("preOperational", times.pre_operational),
        Part::Number("operational", times.operational),
        Part::Number("stopped", times.stopped),
        Part::Number("unknown", times.unknown),
        Part::EndObject,
    ])
}

// its heartbeats
#[tactic(auto, unfolding(crate::specs::NodeTokens::wait_members))]
fn put_waits(document: &mut Document, heartbeats: &Heartbeats)
    ensures { IsAppended document.old
        (wait_members heartbeats.now) document.new }
{
    document.put(&[
        Part::NumberIf("heartbeatTime", time_in(heartbeats.written)),
        Part::Number("lateHeartbeats", heartbeats.late),
        Part::NumberIf("longestLateGap", late_gap_in(heartbeats)),
        Part::NumberIf("longestGap", gap_in(heartbeats)),
        Part::NumberIf("medianGap", median(heartbeats.first.as_slice())),
    ])
}

fn since_in(silence: Option<Silence>) -> Option<u64>
    ensures { result ≡ since_in silence }
{
    match silence {
        Some(silence) => Some(silence.since),
        None => None,
    }
}

// what looks wrong with them, since when the node is silent, its longest answer, and the end
#[tactic(auto, unfolding(crate::specs::NodeTokens::node_end))]
fn put_end(
    document: &mut Document,
    sheet: Option<u16>,
    heartbeats: &Heartbeats,
    silence: Option<Silence>,
    answer: Option<u64>,
)
    ensures { IsAppended document.old
        (node_end sheet heartbeats.now silence answer) document.new }
{
    let lost = lost_gap(Pace::usual(sheet, heartbeats), heartbeats.longest);
    document.put(&[
        Part::NumberIf("lostGap", lost),
        Part::NumberIf("silentSince", since_in(silence)),
        Part::NumberIf("longestAnswer", answer),
        Part::EndObject,
    ])
}

#[tactic(auto, using(conode_stats_text::proofs::Appended::both, conode_stats_text::proofs::Appended::none), unfolding(crate::specs::NodeTokens::node_tokens))]
fn put_node_in(document: &mut Document, bus: &Bus, sheet: Option<u16>, number: u8, node: &Node)
    ensures { IsAppended document.old
        (tokens_in bus.now sheet number node.now) document.new }
{
    let silence = silence_of(bus, sheet, number, node);
    if !is_shown(node) && silence.is_none() {
        return;
    }
    put_front(document, number as u32, node);
    put_waits(document, &node.heartbeats);
    put_end(
        document,
        sheet,
        &node.heartbeats,
        silence,
        node.longest_answer,
    )
}

/// Writes the nodes of a bus that have a line on the page, or are silent, by node-ID.
pub(crate) fn put_nodes(document: &mut Document, sheets: &[SheetFacts<'_>], bus: &Bus) {
    document.put(&[Part::Array("nodes")]);
    for number in 1..128u8 {
        if let Some(node) = bus.nodes().get(number as usize) {
            let sheet = sheet_time(sheets, bus.interface(), number);
            put_node_in(document, bus, sheet, number, node);
        }
    }
    document.put(&[Part::EndArray]);
}
