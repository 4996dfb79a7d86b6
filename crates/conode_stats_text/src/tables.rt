//! The tables of the page, by bus.

ghost use Rattle.std.specs.Prelude.{◌≡◌, ◌≤◌, IfOk, IfSome};
ghost use Rattle.std.specs.List.{flat_map, list_any};
ghost use Rattle.conode_stats_text.specs.Papers.{IsAppended};
ghost use Rattle.conode_stats_text.specs.StatsLines.{row_line};
ghost use Rattle.conode_stats_text.specs.Tables.{
  by_id,
  front_lines,
  has_nodes,
  id_lines,
  line_of,
  lines_on,
  load_lines,
  loads,
  node_lines,
  node_table,
  table_head,
  table_lines,
  unknown_line,
};

use crate::lines::{push_bus, push_load, push_row};
use crate::nodes::{is_shown, push_node_in};
use crate::page::Page;
use crate::paper::Paper;
use crate::pieces::Piece;
use crate::sheet_facts::sheet_rate;
use conode_stats_counts::{Bus, Row};
use std::alloc::{AllocError, Global};

/// The columns of identifiers.
const HEAD: &str =
    "interface              id       frames    frames/s    smallest ms     mean ms   greatest ms\n";

/// The columns of nodes.
const NODE_HEAD: &str =
    "interface            node     boot-ups    restarts    boot-up s  pre-operational s  operational s    stopped s    unknown s  longest answer ms  at the end\n";

/// The identifiers of a bus, the smallest first. `Err`: out of memory.
pub fn sorted_rows(alloc: Global, bus: &Bus) -> Result<Vec<Row>, AllocError>
    ensures { IfOk result (λ rows. rows.items ≡ by_id bus.now.rows) }
{
    let mut rows = attempt!(bus.rows().to_vec(alloc));
    attempt!(rows.sort_by_key(|row| row.can_id));
    Ok(rows)
}

// frames whose bits aren't known
#[tactic(auto, using(crate::proofs::Appended::none))]
fn push_unknown(paper: &mut Paper, count: u64)
    ensures { IsAppended paper.old (unknown_line count) paper.new }
{
    if count != 0 {
        paper.put(&[
            Piece::Words("    CAN FD and error frames, whose bits aren't known: "),
            Piece::Number(count),
            Piece::Words("\n"),
        ]);
    }
}

// how busy a bus is, where its bit rate is known
#[tactic(auto, using(crate::proofs::Appended::none))]
fn push_loads(paper: &mut Paper, bit_rate: Option<u32>, bus: &Bus)
    requires { IfSome bit_rate (λ rate. rate ≤ 1000000) }
    ensures { IsAppended paper.old (loads bit_rate bus.now) paper.new }
{
    if let Some(rate) = bit_rate {
        let load = bus.load();
        push_load(paper, rate, &bus.all(), &load);
        push_unknown(paper, load.unknown);
    }
}

// the gaps and the load of a bus, where its log has stamps
fn push_stamped(paper: &mut Paper, bus: &Bus, bit_rate: Option<u32>)
    requires { IfSome bit_rate (λ rate. rate ≤ 1000000) }
    ensures { IsAppended paper.old (load_lines bit_rate bus.now) paper.new }
{
    if bus.all().last == 0 {
        paper.put(&[Piece::Words("    no stamps, so no gaps, rates and load\n")]);
    } else {
        push_loads(paper, bit_rate, bus);
    }
}

// the frames of a bus, and how busy it is
#[tactic(auto, using(crate::proofs::Appended::both), unfolding(crate::specs::Tables::front_lines))]
fn push_front(paper: &mut Paper, bus: &Bus, bit_rate: Option<u32>)
    requires { IfSome bit_rate (λ rate. rate ≤ 1000000) }
    ensures { IsAppended paper.old (front_lines bit_rate bus.now) paper.new }
{
    push_bus(paper, bus.interface(), &bus.all());
    push_stamped(paper, bus, bit_rate);
}

// a node of a bus
#[tactic(auto, using(crate::proofs::Appended::none))]
fn push_node_at(paper: &mut Paper, bus: &Bus, number: u32)
    ensures { IsAppended paper.old (line_of bus.now number) paper.new }
{
    if let Some(node) = bus.nodes().get(number as usize) {
        push_node_in(paper, bus.interface(), bus.all().last, number, node);
    }
}

// the nodes of a bus, by node-ID
#[tactic(auto, using(crate::proofs::Appended::none), unfolding(crate::specs::NodeIds::up_to))]
fn push_nodes(paper: &mut Paper, bus: &Bus)
    ensures { IsAppended paper.old (node_lines bus.now) paper.new }
{
    for number in 1..128u32 {
        push_node_at(paper, bus, number);
    }
}

// rows in their order
#[tactic(auto, using(crate::proofs::Appended::none))]
fn push_all_rows(paper: &mut Paper, interface: &[u8], rows: &[Row])
    ensures { IsAppended paper.old (flat_map (row_line interface.now) rows.now) paper.new }
{
    for row in rows {
        push_row(paper, interface, row);
    }
}

// the identifiers of a bus, the smallest first
fn push_rows(alloc: Global, paper: &mut Paper, bus: &Bus)
    ensures { IsAppended paper.old (id_lines bus.now) paper.new }
{
    match sorted_rows(alloc, bus) {
        Ok(rows) => push_all_rows(paper, bus.interface(), rows.as_slice()),
        Err(fault) => paper.end(fault),
    }
}

/// A table of the page, whose lines are by bus.
#[derive(Clone, Copy)]
pub(crate) enum Table {
    Buses,
    Nodes,
    Identifiers,
}

impl Table {
    fn head(self) -> &'static str
        ensures { result.now ≡ table_head self }
    {
        match self {
            Table::Buses => "Buses\n",
            Table::Nodes => NODE_HEAD,
            Table::Identifiers => HEAD,
        }
    }
}

// the lines of a table that a bus has
fn push_table_on(alloc: Global, paper: &mut Paper, table: Table, bus: &Bus, page: &Page<'_>)
    requires { IfSome page.now.bit_rate (λ rate. rate ≤ 1000000) }
    ensures { IsAppended paper.old (lines_on table page.now bus.now) paper.new }
{
    match table {
        Table::Buses => {
            let rate = sheet_rate(page.bit_rate, page.sheets, bus.interface());
            push_front(paper, bus, rate)
        }
        Table::Nodes => push_nodes(paper, bus),
        Table::Identifiers => push_rows(alloc, paper, bus),
    }
}

// the lines of a table
#[tactic(auto, using(crate::proofs::Appended::none))]
fn push_lines(alloc: Global, paper: &mut Paper, page: &Page<'_>, table: Table)
    requires { IfSome page.now.bit_rate (λ rate. rate ≤ 1000000) }
    ensures { IsAppended paper.old
        (flat_map (lines_on table page.now) page.now.counts.now.buses) paper.new }
{
    for bus in page.counts.buses() {
        push_table_on(alloc, paper, table, bus, page);
    }
}

/// Appends a table.
pub(crate) fn push_table(alloc: Global, paper: &mut Paper, page: &Page<'_>, table: Table)
    requires { IfSome page.now.bit_rate (λ rate. rate ≤ 1000000) }
    ensures { IsAppended paper.old (table_lines table page.now) paper.new }
{
    paper.put(&[Piece::Words(table.head())]);
    push_lines(alloc, paper, page, table);
}

// whether a node of a bus has a line
fn has_nodes(bus: &Bus) -> bool
    ensures { result ≡ has_nodes bus.now }
{
    bus.nodes().iter().any(|node| is_shown(node))
}

// whether a node has a line
fn any_has_nodes(buses: &[Bus]) -> bool
    ensures { result ≡ list_any has_nodes buses.now }
{
    buses.iter().any(|bus| has_nodes(bus))
}

/// Appends the table of nodes, if one has a line.
#[tactic(auto, using(crate::proofs::Appended::none))]
pub(crate) fn push_node_table(alloc: Global, paper: &mut Paper, page: &Page<'_>)
    requires { IfSome page.now.bit_rate (λ rate. rate ≤ 1000000) }
    ensures { IsAppended paper.old (node_table page.now) paper.new }
{
    if any_has_nodes(page.counts.buses()) {
        push_table(alloc, paper, page, Table::Nodes);
    }
}
