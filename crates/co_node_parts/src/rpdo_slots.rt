//! The RPDO frames that wait for a SYNC.

ghost use Rattle.std.specs.Prelude.{◌≡◌, ℕ, ◌<◌, ◌≤◌, [], ◌∷◌, length, slice_set, take, Option, None, IfOk};
ghost use Rattle.std.specs.List.{filter_map, range_with_len, slice_index_or};
ghost use Rattle.co_frame.specs.FrameContent.{FrameContent};
ghost use Rattle.co_profile.specs.PdoNumbers.{count_to};
ghost use Rattle.co_node_parts.specs.RpdoSlots.{AreEmptyFrom, SlotLog, SlotsStand, taken_at, numbered};

use co_frame::Frame;
use co_profile::PdoNumber;
use std::alloc::{AllocError, Global};
use std::boxed::BoxedSlice;
use std::marker::Model;

/// A frame of an RPDO.
#[derive(Clone, Copy)]
pub struct KeptFrame {
    /// k of 1400h + k.
    pub number: PdoNumber,
    /// The frame, whose data the RPDO maps.
    pub frame: Frame,
}

/// An event of the frames that wait.
#[derive(Clone, Copy)]
pub enum SlotEvent {
    /// A frame of the RPDO with this number was received, which takes effect at the next SYNC. It
    /// replaces the one that waits.
    Keep(PdoNumber, Frame),
    /// The COB-ID or the transmission type of the RPDO with this number was written: its waiting
    /// frame is dropped.
    Empty(PdoNumber),
    /// The NMT state operational was left, or there was a reset: all frames are dropped.
    EmptyAll,
    /// A SYNC was received: all frames are taken.
    Sync,
    /// Any other event.
    Quiet,
}

#[tactic(auto, using(std::proofs::lemmas::List::set_past))]
/// Puts a frame or `None` into the slot of an RPDO; nothing happens if it has none.
fn put(slots: &mut [Option<Frame>], k: PdoNumber, kept: Option<Frame>)
    ensures { slots.new ≡ slice_set slots.old k kept }
{
    let k = usize::from(k.get());
    if k < slots.len() {
        slots[k] = kept;
    }
}

/// Drops all frames, of which none is in a slot from `used` on.
fn empty_all(slots: &mut [Option<Frame>], used: usize)
    requires used { AreEmptyFrom used slots.old }
    requires within { used ≤ length slots.old }
    ensures { (k : ℕ) (d : Option FrameContent) → k < length slots.old →
        slice_index_or slots.new k d ≡ None }
{
    for k in 0..used {
        slots[k] = None;
    }
}

/// Copies all frames to the front of `taken`, in increasing number, and returns their count. No
/// slot from `used` on has a frame.
fn collect(slots: &[Option<Frame>], used: usize, taken: &mut [KeptFrame]) -> usize
    requires numbers { length slots.now ≤ 512 }
    requires used { AreEmptyFrom used slots.now }
    requires within { used ≤ length slots.now }
    requires room { length slots.now ≤ length taken.old }
    ensures taken { take result taken.new ≡
        filter_map (λ k. numbered k (slice_index_or slots.now k None))
        (range_with_len 0 (length slots.now)) }
    ensures few { result ≤ length taken.old }
{
    let mut count = 0;
    for k in 0..used {
        match slots[k] {
            Some(frame) => {
                let number = PdoNumber::of(k as u16);
                taken[count] = KeptFrame { number, frame };
                count += 1;
            }
            None => {}
        }
    }
    count
}

/// A slot for each RPDO, with the last frame that waits for a SYNC (CiA 301, 7.2.2.2 and 7.5.2.35).
/// `new` allocates all memory: contracts see how many frames can be taken at once, and no call
/// changes that.
#[derive(Drop)]
pub struct RpdoSlots {
    slots: BoxedSlice<Option<Frame>>,
    // as long as `slots`; the first `count` are the frames that the last event took
    taken: BoxedSlice<KeptFrame>,
    count: usize,
    // no slot from here on has a frame, so that a SYNC reads few of them
    used: usize,
}

impl Model for RpdoSlots {
    ghost use Rattle.std.specs.Prelude.{◌≡◌, ◌≤◌, length, take};
    ghost use Rattle.std.specs.Box.{boxed_slice_items};
    ghost use Rattle.co_node_parts.specs.RpdoSlots.{AreEmptyFrom, SlotContent};

    ghost Value = { SlotContent };

    ghost view = { λ s. record {
      slots = boxed_slice_items s.slots;
      taken = take s.count (boxed_slice_items s.taken);
      room = length (boxed_slice_items s.taken);
    } };

    ghost invariant = { λ s. (length (boxed_slice_items s.slots) ≤ 512)
        × (length (boxed_slice_items s.taken) ≡ length (boxed_slice_items s.slots))
        × (s.count ≤ length (boxed_slice_items s.taken))
        × (s.used ≤ length (boxed_slice_items s.slots))
        × AreEmptyFrom s.used (boxed_slice_items s.slots) };
}

impl RpdoSlots {
    /// Empty slots for the RPDOs up to the last, none if there is no RPDO. `AllocError` if they
    /// can't be allocated.
    pub fn new(alloc: Global, last: Option<PdoNumber>) -> Result<RpdoSlots, AllocError>
        ensures stands { IfOk result (λ slots. SlotsStand (count_to last) slots []) }
        ensures few { IfOk result (λ slots. length slots.slots ≤ 512) }
    {
        let count = usize::from(PdoNumber::count_to(last));
        let slots = vec![in alloc; None; count]?;
        let nothing = KeptFrame {
            number: PdoNumber::default(),
            frame: Frame::default(),
        };
        let taken = vec![in alloc; nothing; count]?;
        Ok(RpdoSlots {
            slots: slots.into_boxed_slice(),
            taken: taken.into_boxed_slice(),
            count: 0,
            used: 0,
        })
    }

    /// The frames that the last event took: a SYNC takes those that waited, in increasing number;
    /// any other event none.
    pub fn taken(&self) -> &[KeptFrame]
        ensures { result.now ≡ self.now.taken }
    {
        &self.taken[..self.count]
    }

    /// Notes an event. The frames that it takes are in `taken` until the next event.
    #[inline(always)]
    pub fn note(&mut self, event: SlotEvent)
        ensures taken { (count : ℕ) (log : SlotLog) → SlotsStand count self.old log →
            self.new.taken ≡ taken_at count event log }
        ensures stands { (count : ℕ) (log : SlotLog) → SlotsStand count self.old log →
            SlotsStand count self.new (event ∷ log) }
        ensures room { self.new.room ≡ self.old.room }
    {
        self.count = 0;
        match event {
            SlotEvent::Keep(k, frame) => {
                put(&mut self.slots, k, Some(frame));
                let next = usize::from(k.get()) + 1;
                self.used = self.used.max(next).min(self.slots.len());
            }
            SlotEvent::Empty(k) => put(&mut self.slots, k, None),
            SlotEvent::EmptyAll => {
                empty_all(&mut self.slots, self.used);
                self.used = 0;
            }
            SlotEvent::Sync => {
                self.count = collect(&self.slots, self.used, &mut self.taken);
                empty_all(&mut self.slots, self.used);
                self.used = 0;
            }
            SlotEvent::Quiet => {}
        }
    }
}
