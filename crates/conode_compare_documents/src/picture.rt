//! The bus over time, in lanes. Each function appends a text. `Err`: out of memory; a part of it
//! may be there.

ghost use Rattle.std.specs.Prelude.{◌≡◌, ◌-◌, ◌*◌, ◌≤◌, ◌^◌};
ghost use Rattle.std.specs.List.{flat_map};
ghost use Rattle.conode_json.specs.Appended.{Appended};
ghost use Rattle.conode_compare_documents.specs.Picture.{
  across,
  across_text,
  any_picture,
  axis_text,
  difference_mark,
  differences_lane,
  frames_lane,
  lanes_picture,
  mark_text,
  marks_text,
  picture,
  quarter_of,
  span_of,
};

use crate::lane::{begin_lane, push_frames};
use crate::states::push_states;
use conode_compare_report::{Bin, Kind, Lane, Lanes, Noted, Report};
use conode_json::{Markup, Value};

/// The end of the times, the colours of the states, and the end of the section.
const LEGEND: &str = " s</span></div>\n\
    <ul class=\"key\">\n\
    <li><i class=\"initialising\"></i>initialising</li>\n\
    <li><i class=\"pre-operational\"></i>pre-operational</li>\n\
    <li><i class=\"operational\"></i>operational</li>\n\
    <li><i class=\"stopped\"></i>stopped</li>\n\
    <li><i class=\"several\"></i>several</li>\n\
    </ul>\n\
    </section>\n";

/// The beginning of the lines across the lanes: each lane shows them by their name.
const ACROSS: &str = "<defs><path id=\"across\" class=\"across\" d=\"";

/// The lanes of frames, in the order of the picture.
const LANES: [Lane; 5] = [
    Lane::Heartbeats,
    Lane::Emergencies,
    Lane::Transfers,
    Lane::Tpdos,
    Lane::Rpdos,
];

// a line across the lanes, if a span has differences
fn push_across(page: &mut Markup, at: usize, bin: &Bin)
    ensures { Appended page.old (across at bin.now) page.new }
{
    if bin.differences == 0 {
        return;
    }
    page.put("M%.5 0v100", &[Value::Number(at as u64)]);
}

fn push_across_text(page: &mut Markup, bins: &[Bin])
    ensures { Appended page.old (across_text bins.now) page.new }
{
    for (at, bin) in bins.iter().enumerate() {
        push_across(page, at, bin);
    }
    page.put_words("\"/></defs>\n");
}

// the span of a stamp
fn span_of(lanes: &Lanes, micros: u64) -> u64
    ensures { result ≡ span_of lanes.now micros }
{
    if lanes.width == 0 {
        return 0;
    }
    let at = micros.saturating_sub(lanes.begin) / lanes.width;
    at.min(lanes.bins.len().saturating_sub(1) as u64)
}

fn push_mark_text(page: &mut Markup, at: usize, span: u64, since: u64, noted: &Noted)
    ensures { Appended page.old (mark_text at span since noted.now) page.new }
{
    page.put(
        "<a href=\"#d%\"><path class=\"hit\" d=\"M%.5 0v100\"><title>line %, % s: %</title>\
        </path></a>\n",
        &[
            Value::Number(at as u64),
            Value::Number(span),
            Value::Number(noted.line),
            Value::Seconds(since),
            Value::Words(Kind::of(noted.finding).name()),
        ],
    );
}

fn push_mark(page: &mut Markup, lanes: &Lanes, at: usize, noted: &Noted)
    ensures { Appended page.old (difference_mark lanes.now at noted.now) page.new }
{
    let span = span_of(lanes, noted.micros);
    let since = noted.micros.saturating_sub(lanes.begin);
    push_mark_text(page, at, span, since, noted);
}

fn push_marks(page: &mut Markup, lanes: &Lanes, noted: &[Noted])
    ensures { Appended page.old (marks_text lanes.now noted.now) page.new }
{
    for (at, difference) in noted.iter().enumerate() {
        push_mark(page, lanes, at, difference);
    }
    page.put_words("</svg></div>\n");
}

fn push_differences_lane(page: &mut Markup, bins: &[Bin], lanes: &Lanes, noted: &[Noted])
    ensures { Appended page.old (differences_lane bins.now lanes.now noted.now) page.new }
{
    begin_lane(page, "Differences", bins.len(), ACROSS);
    push_across_text(page, bins);
    push_marks(page, lanes, noted);
}

fn quarter_of(lanes: &Lanes) -> u64
    ensures value { result ≡ quarter_of lanes.now }
    ensures bound { result * 4 ≤ 2 ^ 64 - 1 }
{
    (lanes.bins.len() as u64).saturating_mul(lanes.width) / 4
}

// the times below the lanes, since the first frame, and the colours of the states
fn push_axis(page: &mut Markup, quarter: u64)
    requires { quarter * 4 ≤ 2 ^ 64 - 1 }
    ensures { Appended page.old (axis_text quarter) page.new }
{
    page.put(
        "<div class=\"axis\"><span>% s</span><span>% s</span><span>% s</span><span>% s</span>\
        <span>%%",
        &[
            Value::Seconds(0),
            Value::Seconds(quarter),
            Value::Seconds(quarter * 2),
            Value::Seconds(quarter * 3),
            Value::Seconds(quarter * 4),
            Value::Words(LEGEND),
        ],
    );
}

fn push_frame_lanes(page: &mut Markup, bins: &[Bin], lanes: &[Lane])
    ensures { Appended page.old (flat_map (frames_lane bins.now) lanes.now) page.new }
{
    for lane in lanes {
        push_frames(page, bins, *lane);
    }
}

fn push_lanes(page: &mut Markup, lanes: &Lanes, noted: &[Noted])
    ensures { Appended page.old (lanes_picture lanes.now noted.now) page.new }
{
    let bins = lanes.bins.as_slice();
    push_differences_lane(page, bins, lanes, noted);
    push_states(page, bins);
    push_frame_lanes(page, bins, &LANES);
    push_axis(page, quarter_of(lanes));
}

fn push_any(page: &mut Markup, lanes: &Lanes, report: &Report)
    ensures { Appended page.old (any_picture lanes.now report.now.noted) page.new }
{
    if lanes.bins.is_empty() {
        page.put_words("<p>No frame was compared.</p>\n</section>\n")
    } else {
        push_lanes(page, lanes, report.noted.as_slice())
    }
}

/// Appends the picture.
pub(crate) fn push_picture(page: &mut Markup, report: &Report)
    ensures { Appended page.old (picture report.now) page.new }
{
    page.put_words("<section>\n<h2>The bus over time</h2>\n");
    push_any(page, report.lanes(), report);
}
