//! What happened to a device since the application asked.

ghost use Rattle.std.specs.Prelude.{◌≡◌, ◌==◌, ◌∷◌, length, not, slice_index, slice_set, true};
ghost use Rattle.co_frame.specs.FrameContent.{FrameContent};
ghost use Rattle.co_node_model.specs.Inputs.{Framed, InputView, Inputs, Ticked};
ghost use Rattle.co_node_model.specs.Moments.{Constants};
ghost use Rattle.co_node_model.specs.Device.{contents_of, state_of};
ghost use Rattle.co_node_device.specs.declared.seen.Seen.TheVariants.{Nothing, Rpdo, Sync};
ghost use Rattle.co_node_device.specs.Lasts.{last_losses, last_seen};
ghost use Rattle.co_node.specs.Nodes.{Stands};
ghost use Rattle.bafokun.specs.Answers.{state_code};
ghost use Rattle.bafokun.specs.Happened.{
  and_input,
  forgotten,
  is_any,
  no_events,
  node_at,
  with_heartbeat,
  with_loss,
  with_losses,
  with_seen,
  with_state,
};

use co_node::{Node, NodeState, Seen, device_by_kind, state_by_kind};
use co_profile::CONSUMER_HEARTBEAT;
use co_value::Key;

/// What happened to a device since the application asked, 390 bytes without padding: `struct
/// bafokun_events`. 1 is yes, 0 is no.
#[repr(C)]
#[derive(Clone, Copy)]
pub struct Events {
    /// The service reset node (CiA 301, 7.2.8.2.1).
    pub reset_node: u8,
    /// The service reset communication.
    pub reset_communication: u8,
    /// The last NMT state that was entered, as the byte of a heartbeat; 0 if none was. A reset
    /// enters pre-operational.
    pub state: u8,
    /// A SYNC was received, and the device wasn't stopped.
    pub sync: u8,
    /// A frame of an active RPDO was received, and the device was operational.
    pub rpdo: u8,
    /// A heartbeat was lost or came back.
    pub heartbeat: u8,
    /// By node-ID: the heartbeat was lost (CiA 301, 7.2.8.3.2).
    pub lost: [u8; 128],
    /// By node-ID: a heartbeat was received after a loss.
    pub back: [u8; 128],
    /// By node-ID: the heartbeat is lost, and none was received since. This stays when the
    /// application asks.
    pub silent: [u8; 128],
}

/// A state as the byte of a heartbeat.
#[inline(always)]
pub(crate) fn state_code(state: NodeState) -> u8
    ensures { result ≡ state_code state }
{
    match state {
        NodeState::Stopped => 4,
        NodeState::Operational => 5,
        NodeState::PreOperational => 127,
    }
}

/// The byte at a place; 0 if there is none.
pub(crate) fn byte_in(bytes: &[u8], place: usize) -> u8
    ensures { result ≡ slice_index bytes.now place }
{
    bytes.get(place).copied().unwrap_or(0)
}

// The node-ID that an entry of 1016h has: its byte 2 (CiA 301, 7.5.2.19).
fn node_at(node: &Node, sub: u8) -> u8
    ensures { (k : Constants) (before : Inputs) → Stands k node.now before →
        result ≡ node_at (contents_of k before) sub }
{
    let key = Key {
        index: CONSUMER_HEARTBEAT,
        sub,
    };
    match node.value(key) {
        Some(bytes) => byte_in(bytes, 2),
        None => 0,
    }
}

// Sets the place of a node-ID; nothing happens if there is none.
#[tactic(auto, using(std::proofs::lemmas::List::set_past))]
fn set(places: &mut [u8], node: u8, value: u8)
    ensures { places.new ≡ slice_set places.old node value }
{
    let node = usize::from(node);
    if node < places.len() {
        places[node] = value;
    }
}

/// A SYNC was seen.
#[inline(always)]
pub(crate) fn is_sync(seen: Seen) -> bool
    ensures { result ≡ true → seen ≡ Sync }
{
    match seen {
        Seen::Sync => true,
        _ => false,
    }
}

/// A frame of an RPDO was seen.
#[inline(always)]
pub(crate) fn is_rpdo(seen: Seen) -> bool
    ensures { result ≡ true → seen ≡ Rpdo }
{
    match seen {
        Seen::Rpdo => true,
        _ => false,
    }
}

/// Nothing was seen.
#[inline(always)]
pub(crate) fn is_nothing(seen: Seen) -> bool
    ensures { result ≡ true → seen ≡ Nothing }
{
    match seen {
        Seen::Nothing => true,
        _ => false,
    }
}

impl Events {
    /// Nothing.
    pub(crate) fn none() -> Events
        ensures { result ≡ no_events }
    {
        Events {
            reset_node: 0,
            reset_communication: 0,
            state: 0,
            sync: 0,
            rpdo: 0,
            heartbeat: 0,
            lost: [0; 128],
            back: [0; 128],
            silent: [0; 128],
        }
    }

    /// Whether anything happened.
    pub(crate) fn is_any(&self) -> bool
        ensures { result ≡ is_any self.now }
    {
        self.reset_node != 0
            || self.reset_communication != 0
            || self.state != 0
            || self.sync != 0
            || self.rpdo != 0
            || self.heartbeat != 0
    }

    /// Forgets what happened, but for the nodes whose heartbeat is lost.
    pub(crate) fn forget(&mut self)
        ensures { self.new ≡ forgotten self.old }
    {
        self.reset_node = 0;
        self.reset_communication = 0;
        self.state = 0;
        self.sync = 0;
        self.rpdo = 0;
        self.heartbeat = 0;
        self.lost = [0; 128];
        self.back = [0; 128];
    }

    fn note_heartbeat(&mut self, node: u8)
        ensures { self.new ≡ with_heartbeat node self.old }
    {
        if byte_in(&self.silent, usize::from(node)) != 0 {
            self.heartbeat = 1;
            set(&mut self.back, node, 1);
            set(&mut self.silent, node, 0);
        }
    }

    fn note_loss(&mut self, node: u8)
        ensures { self.new ≡ with_loss node self.old }
    {
        self.heartbeat = 1;
        set(&mut self.lost, node, 1);
        set(&mut self.silent, node, 1);
    }

    // The heartbeats of entries of 1016h were lost.
    #[cold]
    #[inline(never)]
    fn note_losses(&mut self, node: &Node, lost: &[u8])
        ensures { (k : Constants) (before : Inputs) → Stands k node.now before →
            self.new ≡ with_losses (contents_of k before) lost.now self.old }
    {
        for i in 0..lost.len() {
            self.note_loss(node_at(node, lost[i]));
        }
    }

    // A reset or a heartbeat was seen, or nothing.
    #[inline(never)]
    fn note_rare(&mut self, seen: Seen)
        ensures { self.new ≡ with_seen seen self.old }
    {
        match seen {
            Seen::Nothing => {}
            Seen::ResetNode => {
                self.reset_node = 1;
                self.state = 127;
            }
            Seen::ResetCommunication => {
                self.reset_communication = 1;
                self.state = 127;
            }
            Seen::Sync => self.sync = 1,
            Seen::Rpdo => self.rpdo = 1,
            Seen::Heartbeat(node) => self.note_heartbeat(node),
        }
    }

    // What most frames are is noted without a call. Three tests take less time than a match on all
    // variants, which is a jump by a table.
    #[inline(always)]
    fn note_seen(&mut self, seen: Seen)
        ensures { self.new ≡ with_seen seen self.old }
    {
        if is_sync(seen) {
            self.sync = 1;
        } else if is_rpdo(seen) {
            self.rpdo = 1;
        } else if !is_nothing(seen) {
            self.note_rare(seen);
        }
    }

    #[inline(always)]
    fn note_state(&mut self, before: NodeState, after: NodeState)
        ensures { self.new ≡ with_state before after self.old }
    {
        if before != after {
            self.state = state_code(after);
        }
    }

    /// Notes what the last input of a device did, by the state before it.
    #[inline(never)]
    pub(crate) fn note(&mut self, node: &Node, before: NodeState)
        ensures { (k : Constants) (past : Inputs) (input : InputView) →
            Stands k node.now (input ∷ past) → before ≡ state_of k past →
            self.new ≡ and_input k past input self.old }
    {
        self.note_seen(node.last_seen());
        self.note_state(before, node.state());
        let lost = node.lost();
        if !lost.is_empty() {
            self.note_losses(node, lost);
        }
    }

    /// The same, where the input was a frame with another identifier than 0, by what was seen of
    /// it: only NMT commands change the NMT state, and no heartbeat is lost at a frame.
    #[inline(always)]
    pub(crate) fn note_frame(&mut self, seen: Seen)
        ensures { (k : Constants) (past : Inputs) (frame : FrameContent) → (frame.id ≡ 0 → ⊥) →
            seen ≡ last_seen k (Framed frame ∷ past) →
            self.new ≡ and_input k past (Framed frame) self.old }
    {
        self.note_seen(seen);
        // laws: calls of them change nothing
        device_by_kind();
        state_by_kind();
    }

    /// The same, where 1 ms elapsed: something happened only if a heartbeat was lost. Returns
    /// whether one was.
    #[inline(always)]
    pub(crate) fn note_tick(&mut self, node: &Node, before: NodeState) -> bool
        ensures events { (k : Constants) (past : Inputs) → Stands k node.now (Ticked ∷ past) →
            before ≡ state_of k past → self.new ≡ and_input k past Ticked self.old }
        ensures lost { (k : Constants) (past : Inputs) → Stands k node.now (Ticked ∷ past) →
            result ≡ not (length (last_losses k (Ticked ∷ past)) == 0) }
    {
        let lost = node.lost();
        if !lost.is_empty() {
            self.note_late(node, before);
            return true;
        }
        false
    }

    // `note`, where it is needed by few inputs.
    #[cold]
    #[inline(never)]
    fn note_late(&mut self, node: &Node, before: NodeState)
        ensures { (k : Constants) (past : Inputs) (input : InputView) →
            Stands k node.now (input ∷ past) → before ≡ state_of k past →
            self.new ≡ and_input k past input self.old }
    {
        self.note(node, before);
    }
}
