//! The bus over time, in a bounded number of spans.

ghost use Rattle.std.specs.Prelude.{◌≡◌, ◌<◌, OnOk, take};
ghost use Rattle.conode_compare_report.specs.Spans.{
  bin_with,
  begun_at,
  both_bins,
  doubled,
  empty_bin,
  filled,
  in_lane,
  joined,
  lanes_with,
  no_lanes,
  no_states,
  place_in,
  placed_at,
  states_of_both,
  states_with,
  widened,
};

use conode_compare_nmt::NmtState;
use std::alloc::{AllocError, Global};
use std::marker::Model;

/// In which NMT states the device is known to have been (CiA 301, 7.3.2.2).
#[derive(Clone, Copy)]
pub struct States {
    pub initialising: bool,
    pub pre_operational: bool,
    pub operational: bool,
    pub stopped: bool,
}

/// The lane of a frame in a picture of the bus.
#[derive(Clone, Copy)]
pub enum Lane {
    Heartbeats,
    Emergencies,
    Transfers,
    Tpdos,
    Rpdos,
}

/// The frames in one span of time; each number is at most 2^32 - 1.
#[derive(Clone, Copy)]
pub struct Bin {
    /// The states that are known after its frames.
    pub states: States,
    /// Boot-ups and heartbeats of the device.
    pub heartbeats: u32,
    /// EMCY messages of the device.
    pub emergencies: u32,
    /// Frames of its SDO channel.
    pub transfers: u32,
    /// Frames of its first four TPDOs.
    pub tpdos: u32,
    /// Frames of its first four RPDOs.
    pub rpdos: u32,
    /// Differences.
    pub differences: u32,
}

/// The bus over time.
#[derive(Drop)]
pub struct Lanes {
    /// The stamp of the first frame, in microseconds.
    pub begin: u64,
    /// How long each span is, in microseconds: 1,000 times a power of two.
    pub width: u64,
    /// The spans, up to that of the newest frame: at most 2,000. A stamp before the first frame's
    /// is in the first span.
    pub bins: Vec<Bin>,
}

impl Model for Lanes {
    ghost use Rattle.conode_compare_report.specs.Spans.{LanesView};

    ghost Value = { LanesView };

    ghost view = { λ lanes. record {
      begin = lanes.begin;
      width = lanes.width;
      bins = lanes.bins.items;
    } };
}

/// How many spans there are at most.
const MOST_BINS: u64 = 2_000;

/// The first width, in microseconds.
const FIRST_WIDTH: u64 = 1_000;

/// How often the width is doubled for one frame at most: enough for every stamp.
const MOST_STEPS: u8 = 64;

impl States {
    /// None is known.
    pub(crate) fn none() -> States
        ensures { result ≡ no_states }
    {
        States {
            initialising: false,
            pre_operational: false,
            operational: false,
            stopped: false,
        }
    }

    /// A state is known.
    pub(crate) fn note(&mut self, state: NmtState)
        ensures { self.new ≡ states_with state self.old }
    {
        match state {
            NmtState::Unknown => {}
            NmtState::Initialising => self.initialising = true,
            NmtState::PreOperational => self.pre_operational = true,
            NmtState::Operational => self.operational = true,
            NmtState::Stopped => self.stopped = true,
        }
    }

    fn with(self, other: States) -> States
        ensures { result ≡ states_of_both self other }
    {
        States {
            initialising: self.initialising || other.initialising,
            pre_operational: self.pre_operational || other.pre_operational,
            operational: self.operational || other.operational,
            stopped: self.stopped || other.stopped,
        }
    }
}

impl Bin {
    fn empty() -> Bin
        ensures { result ≡ empty_bin }
    {
        Bin {
            states: States::none(),
            heartbeats: 0,
            emergencies: 0,
            transfers: 0,
            tpdos: 0,
            rpdos: 0,
            differences: 0,
        }
    }

    // one frame more in a lane
    fn count(&mut self, lane: Option<Lane>)
        ensures { self.new ≡ in_lane lane self.old }
    {
        match lane {
            Some(Lane::Heartbeats) => self.heartbeats = self.heartbeats.saturating_add(1),
            Some(Lane::Emergencies) => self.emergencies = self.emergencies.saturating_add(1),
            Some(Lane::Transfers) => self.transfers = self.transfers.saturating_add(1),
            Some(Lane::Tpdos) => self.tpdos = self.tpdos.saturating_add(1),
            Some(Lane::Rpdos) => self.rpdos = self.rpdos.saturating_add(1),
            None => {}
        }
    }

    // one frame more, after which a state is known
    #[tactic(auto, unfolding(crate::specs::Spans::bin_with))]
    fn add(&mut self, state: NmtState, lane: Option<Lane>, differences: u32)
        ensures { self.new ≡ bin_with state lane differences self.old }
    {
        self.states.note(state);
        self.differences = self.differences.saturating_add(differences);
        self.count(lane);
    }

    // two spans as one
    #[tactic(auto, unfolding(crate::specs::Spans::both_bins))]
    fn with(self, other: Bin) -> Bin
        ensures { result ≡ both_bins self other }
    {
        Bin {
            states: self.states.with(other.states),
            heartbeats: self.heartbeats.saturating_add(other.heartbeats),
            emergencies: self.emergencies.saturating_add(other.emergencies),
            transfers: self.transfers.saturating_add(other.transfers),
            tpdos: self.tpdos.saturating_add(other.tpdos),
            rpdos: self.rpdos.saturating_add(other.rpdos),
            differences: self.differences.saturating_add(other.differences),
        }
    }
}

// the span of a stamp so many microseconds after the begin
fn place_in(width: u64, passed: u64) -> u64
    ensures { result ≡ place_in width passed }
{
    if width == 0 { 0 } else { passed / width }
}

// puts each two neighbours as one at the beginning: so many spans
fn join(bins: &mut [Bin]) -> usize
    ensures { take result bins.new ≡ joined bins.old }
{
    let mut count = 0;
    let mut next = 0;
    'pairs: while bins.len() - next > 1 {
        bins[count] = bins[next].with(bins[next + 1]);
        count += 1;
        next += 2;
    }
    if next == bins.len() {
        return count;
    }
    bins[count] = bins[next];
    count + 1
}

impl Lanes {
    /// Of no frame.
    pub(crate) fn new(alloc: Global) -> Lanes
        ensures { result ≡ no_lanes }
    {
        Lanes {
            begin: 0,
            width: FIRST_WIDTH,
            bins: Vec::new(alloc),
        }
    }

    // doubles the width
    fn double(&mut self)
        ensures { self.new ≡ doubled self.old }
    {
        let count = join(&mut self.bins);
        self.bins.truncate(count);
        self.width = self.width.saturating_mul(2);
    }

    // makes the spans wide enough for a stamp so many microseconds after the begin
    #[tactic(auto, using(crate::proofs::SpanLemmas::one_step, crate::proofs::SpanLemmas::no_step, crate::proofs::SpanLemmas::no_more))]
    fn widen(&mut self, passed: u64)
        ensures { self.new ≡ widened 64 passed self.old }
    {
        let mut steps = MOST_STEPS;
        while steps > 0 {
            if place_in(self.width, passed) < MOST_BINS {
                return;
            }
            steps -= 1;
            self.double();
        }
    }

    // they begin with the first frame
    fn begin_at(&mut self, micros: u64)
        ensures { self.new ≡ begun_at micros self.old }
    {
        if self.bins.is_empty() {
            self.begin = micros;
        }
    }

    // makes spans up to a place
    #[tactic(auto, using(crate::proofs::SpanLemmas::enough, crate::proofs::SpanLemmas::more))]
    fn fill(&mut self, place: usize) -> Result<(), AllocError>
        requires { place < 2000 }
        ensures { OnOk result (self.new ≡ record self.old { bins = filled place self.old.bins }) }
    {
        if self.bins.len() <= place {
            return self.bins.resize(place + 1, Bin::empty());
        }
        Ok(())
    }

    // counts a frame in its span
    fn place(
        &mut self,
        micros: u64,
        state: NmtState,
        lane: Option<Lane>,
        differences: u32,
    ) -> Result<(), AllocError>
        ensures { OnOk result (self.new
            ≡ placed_at micros (bin_with state lane differences) self.old) }
    {
        let place = place_in(self.width, micros.saturating_sub(self.begin)).min(MOST_BINS - 1);
        let place = place as usize;
        attempt!(self.fill(place));
        if place < self.bins.len() {
            self.bins[place].add(state, lane, differences);
        }
        Ok(())
    }

    /// Counts a frame with its stamp in microseconds, its lane, and the number of its differences.
    /// `Err`: out of memory.
    #[tactic(auto, unfolding(crate::specs::Spans::lanes_with))]
    pub(crate) fn add(
        &mut self,
        micros: u64,
        state: NmtState,
        lane: Option<Lane>,
        differences: u32,
    ) -> Result<(), AllocError>
        ensures { OnOk result (self.new
            ≡ lanes_with micros (bin_with state lane differences) self.old) }
    {
        self.begin_at(micros);
        self.widen(micros.saturating_sub(self.begin));
        self.place(micros, state, lane, differences)
    }
}
