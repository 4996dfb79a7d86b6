//! The place of a device in a C program.

ghost use Rattle.std.specs.Prelude.{◌≡◌, Some, None, false, length, option_map, true};
ghost use Rattle.bafokun.specs.Seals.{alone};

use crate::entries::Named;
use crate::frames::{CanFrame, put};
use crate::held::Held;
use crate::parts::Parts;
use crate::seal::Seal;
use co_frame::Frame;
use co_node::AppEvent;
use std::alloc::Global;
use std::mem::replace;

/// The place of a device, 16 bytes without padding: `struct bafokun_node`. It is empty while
/// `built` is 0.
#[repr(C)]
#[derive(Drop)]
pub struct Handle {
    built: usize,
    seal: Seal,
    ghost empty: { built ≡ 0 → seal.value ≡ None } by { λ f g i h. alone seal.value (f h) (g h) i },
    ghost filled: { seal.value ≡ None → built ≡ 0 },
}

impl Handle {
    ghost use Rattle.co_node_model.specs.Inputs.{
      Inputs,
      Framed,
      Ticked,
      Applied,
      Written,
      app_view,
    };
    ghost use Rattle.co_node_model.specs.Moments.{Constants};
    ghost use Rattle.bafokun.specs.Changes.{and_set, changes_of};
    ghost use Rattle.bafokun.specs.Devices.{Gives, IsDevice, IsEmpty, IsQuiet, entries_of};
    ghost use Rattle.bafokun.specs.Ending.{by_input, ending_of};
    ghost use Rattle.bafokun.specs.Entries.{key_named};
    ghost use Rattle.bafokun.specs.Frames.{ArePut};
    ghost use Rattle.bafokun.specs.Happened.{and_input, events_of};

    /// The place of a device.
    pub(crate) fn of(held: Box<Held>) -> Handle
        ensures { result.seal.value ≡ Some held.value }
    {
        Handle {
            built: 1,
            seal: Seal::of_parts(Parts::of(held)),
        }
    }

    /// Takes the device out; the place is then empty.
    pub(crate) fn take(&mut self, alloc: Global) -> Option<Box<Held>>
        ensures taken { option_map (λ b. b.value) result ≡ self.old.seal.value }
        ensures left { IsEmpty self.new }
    {
        if self.is_empty() {
            return None;
        }
        Some(self.take_out(alloc))
    }

    /// Whether there is no device.
    #[inline(always)]
    fn is_empty(&self) -> bool
        ensures yes { result ≡ true → IsEmpty self.now }
        ensures no { result ≡ false → IsEmpty self.now → ⊥ }
    {
        self.built == 0
    }

    // Takes the device out of a place that has one; the place is then empty.
    #[inline(always)]
    fn take_out(&mut self, alloc: Global) -> Box<Held>
        requires { IsEmpty self.old → ⊥ }
        ensures taken { Some result.value ≡ self.old.seal.value }
        ensures left { IsEmpty self.new }
    {
        let empty = Handle {
            built: 0,
            seal: Seal::none(alloc),
        };
        let Handle { built: _, seal } = replace(self, empty);
        seal.into_parts(alloc).into_box()
    }

    /// Puts the device back after an input. Its frames are put into the array, as many as it has
    /// room for; returns how many there are.
    #[inline(always)]
    pub(crate) fn give(&mut self, held: Box<Held>, frames: &mut [CanFrame]) -> usize
        ensures back { self.new.seal.value ≡ Some held.value }
        ensures put { ArePut held.value.sent.items frames.old frames.new }
        ensures count { result ≡ length held.value.sent.items }
    {
        let count = held.sent.len();
        put(&held.sent, frames);
        *self = Handle::of(held);
        count
    }

    /// Takes a received frame. The frames that are sent are put into the array, as many as it has
    /// room for; returns how many there are.
    #[inline(always)]
    pub(crate) fn take_frame(&mut self, frame: &Frame, frames: &mut [CanFrame]) -> usize
        ensures gives { (k : Constants) (before : Inputs) → IsDevice k self.old before →
            Gives k before (Framed frame.now) self.new frames.old frames.new result }
        ensures empty { IsEmpty self.old → IsQuiet self.new frames.old frames.new result }
        ensures entries { entries_of self.new ≡ entries_of self.old }
        ensures changes { (k : Constants) (before : Inputs) → IsDevice k self.old before →
            changes_of self.new ≡ and_set k before (Framed frame.now) (entries_of self.old)
            (changes_of self.old) }
        ensures events { (k : Constants) (before : Inputs) → IsDevice k self.old before →
            events_of self.new ≡ and_input k before (Framed frame.now) (events_of self.old) }
        ensures ending { (k : Constants) (before : Inputs) → IsDevice k self.old before →
            ending_of self.new ≡ by_input k before (Framed frame.now) (ending_of self.old) }
    {
        if self.is_empty() {
            return 0;
        }
        let held = self.seal.held_mut();
        held.take_frame(frame);
        held.give(frames)
    }

    /// 1 ms elapsed. The frames that are sent are put and counted as by `take_frame`.
    #[inline(always)]
    pub(crate) fn tick(&mut self, frames: &mut [CanFrame]) -> usize
        ensures gives { (k : Constants) (before : Inputs) → IsDevice k self.old before →
            Gives k before Ticked self.new frames.old frames.new result }
        ensures empty { IsEmpty self.old → IsQuiet self.new frames.old frames.new result }
        ensures entries { entries_of self.new ≡ entries_of self.old }
        ensures changes { changes_of self.new ≡ changes_of self.old }
        ensures events { (k : Constants) (before : Inputs) → IsDevice k self.old before →
            events_of self.new ≡ and_input k before Ticked (events_of self.old) }
        ensures ending { (k : Constants) (before : Inputs) → IsDevice k self.old before →
            ending_of self.new ≡ by_input k before Ticked (ending_of self.old) }
    {
        if self.is_empty() {
            return 0;
        }
        let held = self.seal.held_mut();
        held.tick();
        held.give_of_tick(frames)
    }

    /// Takes an application event. The frames that are sent are put and counted as by `take_frame`.
    pub(crate) fn take_event(
        &mut self,
        alloc: Global,
        event: AppEvent<&[u8]>,
        frames: &mut [CanFrame],
    ) -> usize
        ensures gives { (k : Constants) (before : Inputs) → IsDevice k self.old before →
            Gives k before (Applied (app_view event.entry)) self.new frames.old frames.new result }
        ensures empty { IsEmpty self.old → IsQuiet self.new frames.old frames.new result }
        ensures entries { entries_of self.new ≡ entries_of self.old }
        ensures changes { changes_of self.new ≡ changes_of self.old }
        ensures events { (k : Constants) (before : Inputs) → IsDevice k self.old before →
            events_of self.new ≡ and_input k before (Applied (app_view event.entry))
            (events_of self.old) }
        ensures ending { (k : Constants) (before : Inputs) → IsDevice k self.old before →
            ending_of self.new ≡ by_input k before (Applied (app_view event.entry))
            (ending_of self.old) }
    {
        match self.take(alloc) {
            Some(mut held) => {
                held.take_event(event);
                self.give(held, frames)
            }
            None => 0,
        }
    }

    /// The application writes an entry. The frames that are sent are put and counted as by
    /// `take_frame`.
    pub(crate) fn write(
        &mut self,
        alloc: Global,
        name: Named,
        bytes: &[u8],
        frames: &mut [CanFrame],
    ) -> usize
        ensures gives { (k : Constants) (before : Inputs) → IsDevice k self.old before → Gives k
            before (Applied (Written (key_named (entries_of self.old) name) bytes.now))
            self.new frames.old frames.new result }
        ensures empty { IsEmpty self.old → IsQuiet self.new frames.old frames.new result }
        ensures entries { entries_of self.new ≡ entries_of self.old }
        ensures changes { changes_of self.new ≡ changes_of self.old }
        ensures events { (k : Constants) (before : Inputs) → IsDevice k self.old before →
            events_of self.new ≡ and_input k before
            (Applied (Written (key_named (entries_of self.old) name) bytes.now))
            (events_of self.old) }
        ensures ending { (k : Constants) (before : Inputs) → IsDevice k self.old before →
            ending_of self.new ≡ by_input k before
            (Applied (Written (key_named (entries_of self.old) name) bytes.now))
            (ending_of self.old) }
    {
        match self.take(alloc) {
            Some(mut held) => {
                held.write(name, bytes);
                self.give(held, frames)
            }
            None => 0,
        }
    }
}
