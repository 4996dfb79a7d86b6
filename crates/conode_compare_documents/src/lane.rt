//! Lanes whose height is how many frames came. Each function appends a text. `Err`: out of memory;
//! a part of it may be there.

ghost use Rattle.std.specs.Prelude.{◌≡◌};
ghost use Rattle.conode_json.specs.Appended.{Appended};
ghost use Rattle.conode_compare_documents.specs.Picture.{
  count_in,
  frames_lane,
  lane_begin,
  lane_name,
  outline,
  step,
  top_of,
};

use conode_compare_report::{Bin, Lane};
use conode_json::{Markup, Value};

/// The beginning of an outline, and what ends it and its lane.
const OUTLINE: &str = "<path class=\"frames\" d=\"M0 100";

const OUTLINE_END: &str = "V100Z\"/><use href=\"#across\"/></svg></div>\n";

/// The names of the lanes, in the order of `Lane`.
static NAMES: [&str; 5] = ["Heartbeat", "EMCY", "SDO", "TPDOs", "RPDOs"];

fn lane_name(lane: Lane) -> &'static str
    ensures { result.now ≡ lane_name lane }
{
    NAMES[lane as usize]
}

fn count_in(lane: Lane, bin: &Bin) -> u32
    ensures { result ≡ count_in lane bin.now }
{
    match lane {
        Lane::Heartbeats => bin.heartbeats,
        Lane::Emergencies => bin.emergencies,
        Lane::Transfers => bin.transfers,
        Lane::Tpdos => bin.tpdos,
        Lane::Rpdos => bin.rpdos,
    }
}

// where the top of so many frames is: a second one shows, and many stay in the lane
fn top_of(count: u32) -> u8
    ensures { result ≡ top_of count }
{
    if count == 0 {
        100
    } else if count == 1 {
        50
    } else if count <= 3 {
        35
    } else if count <= 7 {
        20
    } else {
        5
    }
}

/// Appends a lane up to its picture, and what its picture begins with.
pub(crate) fn begin_lane<'t>(page: &mut Markup, name: &'t str, spans: usize, within: &'t str)
    ensures { Appended page.old (lane_begin name.now spans within.now) page.new }
{
    page.put(
        "<div class=\"lane\"><span>%</span><svg xmlns=\"http://www.w3.org/2000/svg\" \
        viewBox=\"0 0 % 100\" preserveAspectRatio=\"none\">%",
        &[
            Value::Words(name),
            Value::Number(spans as u64),
            Value::Words(within),
        ],
    );
}

fn push_step(page: &mut Markup, at: usize, before: u8, top: u8)
    ensures { Appended page.old (step at before top) page.new }
{
    if top == before {
        return;
    }
    page.put(
        "H%V%",
        &[Value::Number(at as u64), Value::Number(top as u64)],
    )
}

fn push_outline(page: &mut Markup, lane: Lane, bins: &[Bin])
    ensures { Appended page.old (outline lane 0 100 bins.now) page.new }
{
    let mut before = 100;
    for (at, bin) in bins.iter().enumerate() {
        let top = top_of(count_in(lane, bin));
        push_step(page, at, before, top);
        before = top;
    }
    page.put(
        "H%%",
        &[Value::Number(bins.len() as u64), Value::Words(OUTLINE_END)],
    )
}

/// Appends a lane of frames.
pub(crate) fn push_frames(page: &mut Markup, bins: &[Bin], lane: Lane)
    ensures { Appended page.old (frames_lane bins.now lane) page.new }
{
    begin_lane(page, lane_name(lane), bins.len(), OUTLINE);
    push_outline(page, lane, bins);
}
