//! The lane of the NMT states. Each function appends a text. `Err`: out of memory; a part of it may
//! be there.

ghost use Rattle.std.specs.Prelude.{◌≡◌};
ghost use Rattle.conode_json.specs.Appended.{Appended};
ghost use Rattle.conode_compare_documents.specs.Picture.{
  any_area,
  areas,
  is_quiet,
  next_shown,
  shown_of,
  state_area,
  state_class,
  state_top,
  states_lane,
};

use crate::lane::begin_lane;
use conode_compare_report::{Bin, States};
use conode_json::{Markup, Value};

/// What a span shows of the states.
#[derive(Clone, Copy)]
pub(crate) enum Shown {
    Nothing,
    Initialising,
    Stopped,
    PreOperational,
    Operational,
    Several,
}

/// Where the tops of the states are, in this order: the more a device does in one, the higher.
static TOPS: [u8; 6] = [100, 85, 65, 40, 0, 20];

/// Their classes, in this order.
static CLASSES: [&str; 6] = [
    "",
    "initialising",
    "stopped",
    "pre-operational",
    "operational",
    "several",
];

fn shown_of(states: States) -> Shown
    ensures { result ≡ shown_of states }
{
    if states.initialising {
        if states.pre_operational || states.operational || states.stopped {
            Shown::Several
        } else {
            Shown::Initialising
        }
    } else if states.pre_operational {
        if states.operational || states.stopped {
            Shown::Several
        } else {
            Shown::PreOperational
        }
    } else if states.operational {
        if states.stopped {
            Shown::Several
        } else {
            Shown::Operational
        }
    } else if states.stopped {
        Shown::Stopped
    } else {
        Shown::Nothing
    }
}

// whether no frame of the device came in a span
fn is_quiet(bin: &Bin) -> bool
    ensures { result ≡ is_quiet bin.now }
{
    bin.heartbeats == 0
        && bin.emergencies == 0
        && bin.transfers == 0
        && bin.tpdos == 0
        && bin.rpdos == 0
}

// what a span shows after one that showed this: without a frame of the device its state goes on
fn next_shown(shown: Shown, bin: &Bin) -> Shown
    ensures { result ≡ next_shown shown bin.now }
{
    match shown_of(bin.states) {
        Shown::Nothing => match shown {
            Shown::Several => Shown::Nothing,
            shown => { if is_quiet(bin) { shown } else { Shown::Nothing } }
        },
        own => own,
    }
}

fn state_top(shown: Shown) -> u8
    ensures { result ≡ state_top shown }
{
    TOPS[shown as usize]
}

fn state_class(shown: Shown) -> &'static str
    ensures { result.now ≡ state_class shown }
{
    CLASSES[shown as usize]
}

// an area of a class, with its top, from a span on, so many spans wide
fn push_area(page: &mut Markup, class: &'static str, top: u8, from: usize, width: usize)
    ensures { Appended page.old (state_area class.now top from width) page.new }
{
    page.put(
        "<rect class=\"%\" x=\"%\" y=\"%\" width=\"%\" height=\"100\"><title>%</title></rect>\n",
        &[
            Value::Words(class),
            Value::Number(from as u64),
            Value::Number(top as u64),
            Value::Number(width as u64),
            Value::Words(class),
        ],
    );
}

fn push_any_area(page: &mut Markup, shown: Shown, from: usize, to: usize)
    ensures { Appended page.old (any_area shown from to) page.new }
{
    let top = state_top(shown);
    if top == 100 {
        return;
    }
    push_area(page, state_class(shown), top, from, to.saturating_sub(from));
}

fn push_areas(page: &mut Markup, bins: &[Bin])
    ensures { Appended page.old (areas Shown.Nothing 0 0 bins.now) page.new }
{
    let mut shown = Shown::Nothing;
    let mut from = 0;
    for (at, bin) in bins.iter().enumerate() {
        let next = next_shown(shown, bin);
        if state_top(next) != state_top(shown) {
            push_any_area(page, shown, from, at);
            shown = next;
            from = at;
        }
    }
    push_any_area(page, shown, from, bins.len());
}

/// Appends the lane.
pub(crate) fn push_states(page: &mut Markup, bins: &[Bin])
    ensures { Appended page.old (states_lane bins.now) page.new }
{
    begin_lane(page, "NMT state", bins.len(), "");
    push_areas(page, bins);
    page.put_words("<use href=\"#across\"/></svg></div>\n");
}
