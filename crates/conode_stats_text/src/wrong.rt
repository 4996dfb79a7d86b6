//! The lines of what looks wrong. Each function appends a text.

ghost use Rattle.std.specs.Prelude.{◌≡◌, ◌%◌};
ghost use Rattle.conode_stats_text.specs.FailureLines.{counted_line, emergency_line, failure_line};
ghost use Rattle.conode_stats_text.specs.Findings.{IsListed, finding_line, wrong_with};
ghost use Rattle.conode_stats_text.specs.Paces.{lost_line};
ghost use Rattle.conode_stats_text.specs.Papers.{IsAppended};
ghost use Rattle.conode_stats_text.specs.Pieces.{piece_text};

use crate::excerpt::Excerpt;
use crate::finding::Finding;
use crate::pace::Pace;
use crate::paper::Paper;
use crate::pieces::Piece;
use conode_stats_counts::{FailureRow, Reason};

// a node whose longest wait is too long
#[tactic(auto, unfolding(crate::specs::Paces::lost_line))]
fn push_lost(paper: &mut Paper, interface: &[u8], node: u32, gap: u64, pace: Pace)
    ensures { IsAppended paper.old (lost_line interface.now node gap pace) paper.new }
{
    paper.put(&[
        Piece::Node(interface, node),
        Piece::Words(" heartbeats up to "),
        Piece::Millis(gap),
        Piece::Words(" ms apart"),
        Piece::Words(pace.front()),
        pace.figure(),
        Piece::Words(" ms\n"),
    ])
}

// how often something of a node came, and when
#[tactic(auto, unfolding(crate::specs::FailureLines::counted_line))]
fn push_counted<'p>(
    paper: &mut Paper,
    interface: &'p [u8],
    row: &FailureRow,
    front: &'p str,
    code: Piece<'p>,
    after: &'p str,
)
    ensures { IsAppended paper.old (counted_line interface.entry.now row.now front.entry.now
        (piece_text code.entry) after.entry.now) paper.new }
{
    let node = row.cause.node as u32;
    if row.first == row.last {
        return paper.put(&[
            Piece::Node(interface, node),
            Piece::Words(front),
            code,
            Piece::Words(after),
            Piece::Number(row.count),
            Piece::Words(", at "),
            Piece::Seconds(row.last),
            Piece::Words("\n"),
        ]);
    }
    paper.put(&[
        Piece::Node(interface, node),
        Piece::Words(front),
        code,
        Piece::Words(after),
        Piece::Number(row.count),
        Piece::Words(", the first at "),
        Piece::Seconds(row.first),
        Piece::Words(", the last at "),
        Piece::Seconds(row.last),
        Piece::Words("\n"),
    ])
}

// the transfers of a node that failed in one way
fn push_failure(paper: &mut Paper, interface: &[u8], row: &FailureRow)
    ensures { IsAppended paper.old (failure_line interface.now row.now) paper.new }
{
    match row.cause.reason {
        Reason::Code(code) => {
            let front = " SDO transfers aborted with ";
            push_counted(paper, interface, row, front, Piece::Long(code), "h: ")
        }
        Reason::NoCode => {
            let front = " SDO transfers without an answer";
            push_counted(paper, interface, row, front, Piece::Words(""), ": ")
        }
        Reason::OtherSize => {
            let front = " SDO transfers confirmed, but with another size than indicated";
            push_counted(paper, interface, row, front, Piece::Words(""), ": ")
        }
        Reason::WrongCrc => {
            let front = " SDO transfers confirmed, but with a wrong CRC";
            push_counted(paper, interface, row, front, Piece::Words(""), ": ")
        }
    }
}

// the EMCY messages of a node with one error code
fn push_emergency(paper: &mut Paper, interface: &[u8], row: &FailureRow)
    ensures { IsAppended paper.old (emergency_line interface.now row.now) paper.new }
{
    match row.cause.reason {
        Reason::Code(code) => {
            let code = Piece::Short((code % 65536) as u16);
            push_counted(paper, interface, row, " EMCY ", code, "h: ")
        }
        _ => {
            let front = " EMCY messages without a code";
            push_counted(paper, interface, row, front, Piece::Words(""), ": ")
        }
    }
}

#[tactic(auto, unfolding(crate::specs::Paces::silent_line, crate::specs::Paces::late_line, crate::specs::NodeLines::restart_line, crate::specs::FailureLines::open_line, crate::specs::StatsLines::counts_line))]
fn push_finding(paper: &mut Paper, interface: &[u8], node: u32, finding: &Finding)
    ensures { IsAppended paper.old (finding_line interface.now node finding.now) paper.new }
{
    match finding {
        Finding::Silent(silence) => paper.put(&[
            Piece::Node(interface, node),
            Piece::Words(" silent since "),
            Piece::Seconds(silence.since),
            Piece::Words(silence.pace.front()),
            silence.pace.figure(),
            Piece::Words(" ms\n"),
        ]),
        Finding::Late(count, gap) => paper.put(&[
            Piece::Node(interface, node),
            Piece::Words(" heartbeats later than 1.5 times 1017h as recorded: "),
            Piece::Number(*count),
            Piece::Words(", up to "),
            Piece::Millis(*gap),
            Piece::Words(" ms\n"),
        ]),
        Finding::Lost(gap, pace) => push_lost(paper, interface, node, *gap, *pace),
        Finding::Restarted(count, last) => paper.put(&[
            Piece::Node(interface, node),
            Piece::Words(" restarts without a reset command: "),
            Piece::Number(*count),
            Piece::Words(", the last at "),
            Piece::Seconds(*last),
            Piece::Words("\n"),
        ]),
        Finding::Failed(row) => push_failure(paper, interface, row),
        Finding::Open(key, since) => paper.put(&[
            Piece::Node(interface, node),
            Piece::Words(" SDO transfer of "),
            Piece::Entry(*key),
            Piece::Words(" without a frame since "),
            Piece::Seconds(*since),
            Piece::Words("\n"),
        ]),
        Finding::Emergency(row) => push_emergency(paper, interface, row),
        Finding::Counted(kind, count) => paper.put(&[
            Piece::Words("  "),
            Piece::Name(interface),
            Piece::Words(": "),
            Piece::Words(kind.counted()),
            Piece::Words(": "),
            Piece::Number(*count),
            Piece::Words("\n"),
        ]),
    }
}

/// Appends the line of what looks wrong with a node on an interface, or with the interface, if there
/// is something and it is among those listed.
pub(crate) fn push_listed(
    paper: &mut Paper,
    excerpt: &mut Excerpt,
    interface: &[u8],
    node: u32,
    finding: &Option<Finding>,
)
    ensures { IsListed paper.old excerpt.old (wrong_with interface.now node finding.now)
        paper.new excerpt.new }
{
    if let Some(finding) = finding {
        if excerpt.pass() {
            push_finding(paper, interface, node, finding);
        }
    }
}
