//! The lines of the page about buses and identifiers. Each function appends a text.

ghost use Rattle.std.specs.Prelude.{◌≡◌, ◌≤◌};
ghost use Rattle.conode_stats_text.specs.Papers.{IsAppended};
ghost use Rattle.conode_stats_text.specs.StatsLines.{
  bus_line,
  busiest_part,
  frames_in,
  if_any,
  load_front,
  load_line,
  load_word,
  row_line,
};

use crate::cells::Cell;
use crate::figures::{gap_of, mean, ratio, room_in};
use crate::paper::Paper;
use crate::pieces::Piece;
use conode_stats_counts::{Load, Row, Tally};

/// Appends the line of an identifier on an interface.
#[tactic(auto, unfolding(crate::specs::StatsLines::row_line))]
pub(crate) fn push_row(paper: &mut Paper, interface: &[u8], row: &Row)
    ensures { IsAppended paper.old (row_line interface.now row.now) paper.new }
{
    let tally = &row.tally;
    paper.put_cells(&[
        Cell::Column(interface),
        Cell::Gap("  "),
        Cell::Id(8, row.can_id),
        Cell::Count(13, tally.frames),
        Cell::Tenths(12, ratio(tally.gaps, 10_000_000, tally.total)),
        Cell::Millis(15, gap_of(tally, tally.smallest)),
        Cell::Millis(12, mean(tally)),
        Cell::Millis(14, gap_of(tally, tally.greatest)),
        Cell::Gap("\n"),
    ])
}

fn load_word(load: &Load) -> &'static str
    ensures { result.now ≡ load_word load.entry.now }
{
    if load.unknown == 0 {
        "    load "
    } else {
        "    load at least "
    }
}

#[tactic(auto, unfolding(crate::specs::StatsLines::load_front))]
fn push_load_front(paper: &mut Paper, word: &str, room: u64, load: &Load)
    ensures { IsAppended paper.old (load_front word.now room load.entry.now) paper.new }
{
    paper.put(&[
        Piece::Words(word),
        Piece::Load(load.bits, room),
        Piece::Words(" % (worst case "),
        Piece::Load(load.most, room),
        Piece::Words(" %), busiest second "),
    ])
}

#[tactic(auto, unfolding(crate::specs::StatsLines::busiest_part))]
fn push_busiest(paper: &mut Paper, room: u64, load: &Load)
    ensures { IsAppended paper.old (busiest_part room load.entry.now) paper.new }
{
    paper.put(&[
        Piece::Number(load.busiest.second),
        Piece::Words(": "),
        Piece::Load(load.busiest.bits, room),
        Piece::Words(" % (worst case "),
        Piece::Load(load.busiest.most, room),
        Piece::Words(" %)\n"),
    ])
}

/// Appends the load of a bus with this bit rate, in bit/s, at most 1,000,000.
#[tactic(auto, using(crate::proofs::Appended::both), unfolding(crate::specs::StatsLines::load_line))]
pub(crate) fn push_load(paper: &mut Paper, bit_rate: u32, all: &Tally, load: &Load)
    requires { bit_rate ≤ 1000000 }
    ensures { IsAppended paper.old (load_line bit_rate all.now load.entry.now) paper.new }
{
    let room = room_in(bit_rate, all.total);
    push_load_front(paper, load_word(load), room, load);
    push_busiest(paper, bit_rate as u64, load)
}

fn frames_in(count: u64) -> &'static str
    ensures { result.now ≡ frames_in count }
{
    if count == 1 {
        " frame in "
    } else {
        " frames in "
    }
}

/// Appends the line of the frames of a bus.
#[tactic(auto, unfolding(crate::specs::StatsLines::bus_line))]
pub(crate) fn push_bus(paper: &mut Paper, interface: &[u8], all: &Tally)
    ensures { IsAppended paper.old (bus_line interface.now all.now) paper.new }
{
    paper.put(&[
        Piece::Words("  "),
        Piece::Name(interface),
        Piece::Words(": "),
        Piece::Number(all.frames),
        Piece::Words(frames_in(all.frames)),
        Piece::Seconds(all.total),
        Piece::Words(" s, the first at "),
        Piece::Seconds(all.first),
        Piece::Words("\n"),
    ])
}

/// Appends how many there are of something, if there are any.
#[tactic(auto, using(crate::proofs::Appended::none), unfolding(crate::specs::StatsLines::count_line))]
pub(crate) fn push_count(paper: &mut Paper, what: &str, count: u64)
    ensures { IsAppended paper.old (if_any what.now count) paper.new }
{
    if count == 0 {
        return;
    }
    paper.put(&[
        Piece::Words("  "),
        Piece::Words(what),
        Piece::Words(": "),
        Piece::Number(count),
        Piece::Words("\n"),
    ])
}
