//! What a node shows, counted.

ghost use Rattle.std.specs.Prelude.{◌≡◌, []};
ghost use Rattle.conode_stats_counts.specs.NodeCounts.{
  booted,
  node_asked,
  node_commanded,
  node_exchanged,
  node_of,
  node_timed,
  node_with,
};

use crate::guarding::{ErrorControl, Guarding};
use crate::heartbeats::Heartbeats;
use crate::sdo_frame::{SdoFrame, longer};
use crate::state::{NmtState, StateTimes};
use crate::tally::counted;
use conode_explain_transfers::Direction;

/// A frame of error control: a boot-up message, a heartbeat or a guarding answer (CiA 301,
/// 7.2.8.3.2, 7.2.8.3.3).
#[derive(Clone, Copy)]
pub struct Shown {
    /// The state that it shows.
    pub state: NmtState,
    /// Its stamp, in microseconds.
    pub micros: u64,
}

/// What a node shows by its frames of error control, the guarding requests for it, and the SDO
/// frames on its default channel. Counts and sums saturate at 2^64 - 1.
#[derive(Drop)]
pub struct Node {
    /// Its newest frame of error control; `None` if there is none.
    pub last: Option<Shown>,
    /// How many of its frames of error control are boot-ups.
    pub boot_ups: u64,
    /// How many boot-ups are restarts without a command: the node sent a frame of error control
    /// before, or answered an SDO request, and since its boot-up before no command came to reset it.
    pub restarts: u64,
    /// The stamp of the last restart without a command, in microseconds; 0 if there is none.
    pub last_restart: u64,
    /// Whether a command to reset the node, or all, came since its last boot-up.
    pub is_commanded: bool,
    /// The time in each state.
    pub times: StateTimes,
    /// Its heartbeats.
    pub heartbeats: Heartbeats,
    /// Its guarding.
    pub guarding: Guarding,
    /// The stamp of the SDO request to it that awaits a response, in microseconds, if there is one.
    pub pending: Option<u64>,
    /// The longest time from an SDO request to its response, in microseconds, if there is any.
    pub longest_answer: Option<u64>,
}

impl Node {
    /// A node that sent nothing.
    #[tactic(auto, unfolding(crate::specs::NodeCounts::node_of, crate::specs::Heartbeats::pending, crate::specs::Heartbeats::longest_answer, crate::specs::States::newest, crate::specs::States::boot_ups, crate::specs::Restarts::restarts, crate::specs::Restarts::last_restart, crate::specs::States::is_commanded, crate::specs::Guardings::unanswered, crate::specs::Guardings::control_of))]
    pub(crate) fn new() -> Node
        ensures { result ≡ node_of [] }
    {
        Node {
            last: None,
            boot_ups: 0,
            restarts: 0,
            last_restart: 0,
            is_commanded: false,
            times: StateTimes::new(),
            heartbeats: Heartbeats::new(),
            guarding: Guarding {
                control: ErrorControl::Nothing,
                asked: None,
            },
            pending: None,
            longest_answer: None,
        }
    }

    /// Notes a command to reset the node.
    #[tactic(auto, unfolding(crate::specs::NodeCounts::node_commanded))]
    pub(crate) fn command(&mut self)
        ensures { self.new ≡ node_commanded self.old }
    {
        self.is_commanded = true;
    }

    // counts a boot-up
    fn boot(&mut self, micros: u64)
        ensures { self.new ≡ booted micros self.old }
    {
        let is_known = self.last.is_some() || self.longest_answer.is_some();
        if is_known && !self.is_commanded {
            self.restarts = counted(self.restarts, 1);
            self.last_restart = micros;
        }
        self.boot_ups = counted(self.boot_ups, 1);
        self.is_commanded = false;
        self.pending = None;
    }

    /// Counts a frame of error control; `toggle`: whether its toggle bit is set.
    #[tactic(auto, unfolding(crate::specs::NodeCounts::node_with))]
    pub(crate) fn show(&mut self, state: NmtState, toggle: bool, micros: u64)
        ensures { self.new ≡ node_with state toggle micros self.old }
    {
        if let Some(last) = self.last {
            self.times
                .add(last.state, micros.saturating_sub(last.micros));
        }
        let boots = state.is_boot_up();
        if boots {
            self.boot(micros);
        }
        self.heartbeats.beat(boots, micros);
        self.guarding.hear(boots, toggle);
        self.last = Some(Shown { state, micros });
    }

    /// Counts an SDO frame on its default channel.
    #[tactic(auto, unfolding(crate::specs::NodeCounts::node_exchanged))]
    pub(crate) fn exchange(&mut self, frame: SdoFrame, micros: u64)
        ensures { self.new ≡ node_exchanged frame micros self.old }
    {
        let time = frame.answer_time(self.pending, micros);
        self.longest_answer = longer(self.longest_answer, time);
        self.pending = frame.pending(micros);
    }

    /// Notes the producer heartbeat time, in ms, that an SDO transfer shows.
    #[tactic(auto, unfolding(crate::specs::NodeCounts::node_timed))]
    pub(crate) fn show_time(&mut self, direction: Direction, time: u16, micros: u64)
        ensures { self.new ≡ node_timed direction time micros self.old }
    {
        self.heartbeats.show(direction, time, micros);
        self.guarding.show(time);
    }

    /// Notes a guarding request for it.
    #[tactic(auto, unfolding(crate::specs::NodeCounts::node_asked))]
    pub(crate) fn ask(&mut self, micros: u64)
        ensures { self.new ≡ node_asked micros self.old }
    {
        self.guarding.ask(micros);
    }
}
