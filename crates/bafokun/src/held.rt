//! A device with the data that C reads of it.

ghost use Rattle.std.specs.Prelude.{◌≡◌, [], ◌∷◌, true, false};
ghost use Rattle.co_node_model.specs.Inputs.{
  Inputs,
  InputView,
  Framed,
  Ticked,
  Applied,
  Written,
  app_view,
};
ghost use Rattle.co_node_model.specs.Device.{state_of};
ghost use Rattle.co_node_device.specs.Lasts.{last_seen};
ghost use Rattle.co_node_model.specs.Moments.{Constants};
ghost use Rattle.co_node_model.specs.Heartbeats.{boot_up};
ghost use Rattle.co_node.specs.Nodes.{Stands};
ghost use Rattle.std.specs.Prelude.{length};
ghost use Rattle.std.specs.Box.{boxed_slice_items};
ghost use Rattle.bafokun.specs.Changes.{IsNext, and_set, left_after, with_reset};
ghost use Rattle.bafokun.specs.Bus.{GaveBus, bus_input, ending_after};
ghost use Rattle.bafokun.specs.Devices.{Gave};
ghost use Rattle.bafokun.specs.Ending.{by_input, by_seen, by_ticks};
ghost use Rattle.bafokun.specs.Entries.{key_named};
ghost use Rattle.bafokun.specs.Frames.{ArePut};
ghost use Rattle.bafokun.specs.Happened.{and_bus, and_input, and_ticks, left_of, told_of};
ghost use Rattle.bafokun.specs.Ticks.{GaveTicks};

use crate::bus::{bus_input, ending_after};
use crate::changes::{next_changed, note_reset};
use crate::ending::Ending;
use crate::entries::Named;
use crate::frames::{CanFrame, clear, put, put_all};
use crate::happened::{Events, is_nothing, is_rpdo, is_sync};
use co_dict_placed::forget_change;
use co_dict_table::EntryTable;
use co_frame::{Frame, Outbox};
use co_node::{AppEvent, Node, NodeState, Seen};
use std::boxed::BoxedSlice;

/// A device, the frames of its last input, the entry table of its data sheet, which of the entries
/// were set since the application asked, a bit each, what happened since it asked, and which bits of
/// the error register end with an error of the CAN interface.
#[derive(Drop)]
pub struct Held {
    pub(crate) node: Node,
    pub(crate) sent: Outbox,
    pub(crate) entries: EntryTable,
    pub(crate) changes: BoxedSlice<u8>,
    pub(crate) events: Events,
    pub(crate) ending: Ending,
}

impl Held {
    /// Takes a received frame.
    #[inline(always)]
    pub(crate) fn take_frame(&mut self, frame: &Frame)
        ensures gave { (k : Constants) (before : Inputs) → Stands k self.old.node before →
            Gave k before (Framed frame.now) self.new }
        ensures entries { self.new.entries ≡ self.old.entries }
        ensures changes { (k : Constants) (before : Inputs) → Stands k self.old.node before →
            boxed_slice_items self.new.changes ≡ and_set k before (Framed frame.now)
            self.old.entries (boxed_slice_items self.old.changes) }
        ensures events { (k : Constants) (before : Inputs) → Stands k self.old.node before →
            self.new.events ≡ and_input k before (Framed frame.now) self.old.events }
        ensures ending { (k : Constants) (before : Inputs) → Stands k self.old.node before →
            self.new.ending ≡ by_input k before (Framed frame.now) self.old.ending }
    {
        clear(&mut self.sent);
        let state = self.node.state();
        // called here alone: called twice, it isn't compiled into its callers
        let seen = self
            .node
            .take_frame_noting(frame, &mut self.sent, &mut self.changes);
        // which variant it is, and no more: so the compiler knows it of most frames
        if is_nothing(seen) {
            if frame.id() == 0 {
                self.note_command(state);
            } else {
                self.events.note_frame(Seen::Nothing);
            }
        } else if is_sync(seen) {
            self.events.note_frame(Seen::Sync);
        } else if frame.id() == 0 {
            self.note_command(state);
        } else if is_rpdo(seen) {
            self.events.note_frame(Seen::Rpdo);
        } else {
            self.events.note_frame(self.node.last_seen());
        }
    }

    // Notes what a frame with identifier 0 did, by the NMT state before it.
    #[inline(never)]
    fn note_command(&mut self, before: NodeState)
        ensures node { self.new.node ≡ self.old.node }
        ensures sent { self.new.sent ≡ self.old.sent }
        ensures entries { self.new.entries ≡ self.old.entries }
        ensures changes { (k : Constants) (past : Inputs) → Stands k self.old.node past →
            boxed_slice_items self.new.changes ≡ with_reset (last_seen k past) self.old.entries
            (boxed_slice_items self.old.changes) }
        ensures events { (k : Constants) (past : Inputs) (input : InputView) →
            Stands k self.old.node (input ∷ past) → before ≡ state_of k past →
            self.new.events ≡ and_input k past input self.old.events }
        ensures ending { (k : Constants) (past : Inputs) → Stands k self.old.node past →
            self.new.ending ≡ by_seen (last_seen k past) self.old.ending }
    {
        let seen = self.node.last_seen();
        note_reset(seen, &self.entries, &mut self.changes);
        self.events.note(&self.node, before);
        self.ending = self.ending.after_frame(seen);
    }

    /// Puts the frames of the last input into the array, as many as it has room for; returns how
    /// many there are.
    #[inline(always)]
    pub(crate) fn give(&self, frames: &mut [CanFrame]) -> usize
        ensures put { ArePut self.now.sent.items frames.old frames.new }
        ensures count { result ≡ length self.now.sent.items }
    {
        let count = self.sent.len();
        put(&self.sent, frames);
        count
    }

    /// The same after a tick: most send no frame.
    #[tactic(auto, using(crate::proofs::Put::none_put))]
    #[inline(always)]
    pub(crate) fn give_of_tick(&self, frames: &mut [CanFrame]) -> usize
        ensures put { ArePut self.now.sent.items frames.old frames.new }
        ensures count { result ≡ length self.now.sent.items }
    {
        if self.has_sent() {
            put_all(&self.sent, frames);
            return self.sent.len();
        }
        0
    }

    /// 1 ms elapsed.
    #[inline(always)]
    pub(crate) fn tick(&mut self)
        ensures gave { (k : Constants) (before : Inputs) → Stands k self.old.node before →
            Gave k before Ticked self.new }
        ensures entries { self.new.entries ≡ self.old.entries }
        ensures changes { self.new.changes ≡ self.old.changes }
        ensures events { (k : Constants) (before : Inputs) → Stands k self.old.node before →
            self.new.events ≡ and_input k before Ticked self.old.events }
        ensures ending { (k : Constants) (before : Inputs) → Stands k self.old.node before →
            self.new.ending ≡ by_input k before Ticked self.old.ending }
    {
        let state = self.node.state();
        self.node.tick(&mut self.sent);
        if self.events.note_tick(&self.node, state) {
            self.ending = self.ending.after_loss();
        }
    }

    /// At most `most` ms elapse: the ticks end with the first that sends frames. Returns how many
    /// elapsed.
    pub(crate) fn ticks(&mut self, most: u32) -> u32
        ensures gave { (k : Constants) (before : Inputs) → Stands k self.old.node before →
            GaveTicks k before most result self.new }
        ensures entries { self.new.entries ≡ self.old.entries }
        ensures changes { self.new.changes ≡ self.old.changes }
        ensures events { (k : Constants) (before : Inputs) → Stands k self.old.node before →
            self.new.events ≡ and_ticks k before result self.old.events }
        ensures ending { (k : Constants) (before : Inputs) → Stands k self.old.node before →
            self.new.ending ≡ by_ticks k before result self.old.ending }
    {
        self.sent.clear();
        for i in 0..most {
            self.tick();
            if self.has_sent() {
                return i + 1;
            }
        }
        most
    }

    // Whether the last input sent frames.
    #[inline(always)]
    fn has_sent(&self) -> bool
        ensures yes { result ≡ true → self.now.sent.items ≡ [] → ⊥ }
        ensures no { result ≡ false → self.now.sent.items ≡ [] }
    {
        !self.sent.is_empty()
    }

    /// Takes an application event.
    pub(crate) fn take_event(&mut self, event: AppEvent<&[u8]>)
        ensures gave { (k : Constants) (before : Inputs) → Stands k self.old.node before →
            Gave k before (Applied (app_view event.entry)) self.new }
        ensures entries { self.new.entries ≡ self.old.entries }
        ensures changes { self.new.changes ≡ self.old.changes }
        ensures events { (k : Constants) (before : Inputs) → Stands k self.old.node before →
            self.new.events ≡ and_input k before (Applied (app_view event.entry)) self.old.events }
        ensures ending { (k : Constants) (before : Inputs) → Stands k self.old.node before →
            self.new.ending ≡ by_input k before (Applied (app_view event.entry)) self.old.ending }
    {
        let state = self.node.state();
        self.node.take_event(event, &mut self.sent);
        self.events.note(&self.node, state);
        self.ending = self.ending.after_event(self.node.last_app(), event);
    }

    /// The application writes an entry.
    pub(crate) fn write(&mut self, name: Named, bytes: &[u8])
        ensures gave { (k : Constants) (before : Inputs) → Stands k self.old.node before → Gave k
            before (Applied (Written (key_named self.old.entries name) bytes.now)) self.new }
        ensures entries { self.new.entries ≡ self.old.entries }
        ensures changes { self.new.changes ≡ self.old.changes }
        ensures events { (k : Constants) (before : Inputs) → Stands k self.old.node before →
            self.new.events ≡ and_input k before
            (Applied (Written (key_named self.old.entries name) bytes.now)) self.old.events }
        ensures ending { (k : Constants) (before : Inputs) → Stands k self.old.node before →
            self.new.ending ≡ by_input k before
            (Applied (Written (key_named self.old.entries name) bytes.now)) self.old.ending }
    {
        let key = name.key(&self.entries);
        let state = self.node.state();
        self.node
            .write_at(name.number(), key, bytes, &mut self.sent);
        self.events.note(&self.node, state);
        let event = AppEvent::Write(key, bytes);
        self.ending = self.ending.after_event(self.node.last_app(), event);
    }

    /// The first entry from a number on that was set since the application asked; it is forgotten
    /// then.
    pub(crate) fn next_changed(&mut self, from: usize) -> Option<usize>
        ensures next { IsNext (length self.old.entries) (boxed_slice_items self.old.changes) from
            result }
        ensures changes { boxed_slice_items self.new.changes
            ≡ left_after (boxed_slice_items self.old.changes) result }
        ensures node { self.new.node ≡ self.old.node }
        ensures sent { self.new.sent ≡ self.old.sent }
        ensures entries { self.new.entries ≡ self.old.entries }
        ensures events { self.new.events ≡ self.old.events }
        ensures ending { self.new.ending ≡ self.old.ending }
    {
        match next_changed(&self.changes, from, self.entries.len()) {
            Some(number) => {
                forget_change(&mut self.changes, number);
                Some(number)
            }
            None => None,
        }
    }

    /// What happened since the application asked; `None` if nothing did. It is forgotten then, but
    /// for the nodes whose heartbeat is lost.
    pub(crate) fn happened(&mut self) -> Option<Events>
        ensures told { result ≡ told_of self.old.events }
        ensures events { self.new.events ≡ left_of self.old.events }
        ensures node { self.new.node ≡ self.old.node }
        ensures sent { self.new.sent ≡ self.old.sent }
        ensures entries { self.new.entries ≡ self.old.entries }
        ensures changes { self.new.changes ≡ self.old.changes }
        ensures ending { self.new.ending ≡ self.old.ending }
    {
        if !self.events.is_any() {
            return None;
        }
        let told = self.events;
        self.events.forget();
        Some(told)
    }

    /// Takes a change of the CAN controller.
    pub(crate) fn bus(&mut self, change: u8)
        ensures gave { (k : Constants) (before : Inputs) → Stands k self.old.node before →
            GaveBus k before (bus_input k before self.old.ending change) self.new }
        ensures entries { self.new.entries ≡ self.old.entries }
        ensures changes { self.new.changes ≡ self.old.changes }
        ensures events { (k : Constants) (before : Inputs) → Stands k self.old.node before →
            self.new.events ≡ and_bus k before (bus_input k before self.old.ending change)
            self.old.events }
        ensures ending { (k : Constants) (before : Inputs) → Stands k self.old.node before →
            self.new.ending ≡ ending_after k before change self.old.ending }
    {
        let ending = self.ending;
        self.ending = ending_after(&self.node, change, ending);
        match bus_input(&self.node, ending, change) {
            Some(input) => {
                let state = self.node.state();
                self.node.step(input, &mut self.sent);
                self.events.note(&self.node, state);
            }
            None => self.sent.clear(),
        }
    }

    /// Sends the boot-up.
    pub(crate) fn boot(&mut self)
        ensures node { self.new.node ≡ self.old.node }
        ensures sent { (k : Constants) (before : Inputs) → Stands k self.old.node before →
            self.new.sent.items ≡ boot_up k ∷ [] }
        ensures entries { self.new.entries ≡ self.old.entries }
        ensures changes { self.new.changes ≡ self.old.changes }
        ensures events { self.new.events ≡ self.old.events }
        ensures ending { self.new.ending ≡ self.old.ending }
    {
        self.node.boot(&mut self.sent);
    }
}
