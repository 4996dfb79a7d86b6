//! A device made from a data sheet.

ghost use Rattle.std.specs.Prelude.{
  ◌≡◌,
  ℕ,
  Some,
  ◌≤◌,
  ◌<◌,
  ◌+◌,
  ◌*◌,
  ◌++◌,
  ◌&&◌,
  [],
  ◌∷◌,
  None,
  IfOk,
  IfErr,
  IfSome,
  is_some,
  length,
  map,
  nat_lt,
  take,
  option_map,
};
ghost use Rattle.co_value.specs.declared.key.Key.{Key};
ghost use Rattle.co_dict.specs.Places.{key_at};
ghost use Rattle.co_dict.specs.Stores.{IsGreatestCapacity, greatest_capacity};
ghost use Rattle.co_dict_build.specs.Built.{built_contents, built_description};
ghost use Rattle.co_dict_build.specs.BuildFaults.{IsBuildFault, build_fault};
ghost use Rattle.co_pdo.specs.Mappings.{has_pdo, mapping_of};
ghost use Rattle.co_pdo_compiled.specs.CompiledMappings.{IsCompiledForm};
ghost use Rattle.co_node_model.specs.AppEvents.{event_refusal};
ghost use Rattle.co_node_model.specs.Inputs.{Applied, Framed, Inputs, Ticked, Written, app_view, input_view};
ghost use Rattle.co_node_model.specs.Moments.{Constants};
ghost use Rattle.co_node_model.specs.Heartbeats.{boot_up};
ghost use Rattle.co_node_model.specs.Ticks.{IsQuietFor};
ghost use Rattle.co_node_model.specs.Device.{
  after_all,
  all_frames,
  app_after,
  contents_of,
  frame_bound,
  held_of,
  prescribed,
  room_of,
  state_of,
};
ghost use Rattle.co_dict_placed.specs.Changes.{with_keys};
ghost use Rattle.co_node_device.specs.Lasts.{last_losses, last_seen};
ghost use Rattle.co_node_device.specs.SetEntries.{last_set};
ghost use Rattle.co_node.specs.Built.{IsBuilt};
ghost use Rattle.co_node.specs.Held.{HoldsWithin};
ghost use Rattle.co_node.specs.Memory.{memory_of};
ghost use Rattle.co_node.specs.Nodes.{
  Stands,
  built_constants,
  description_of,
  node_constants,
  planned,
};
ghost use Rattle.co_node.specs.Records.{HasRoom};
ghost use Rattle.co_node.specs.Refused.{AsForNobody};
ghost use Rattle.co_node.specs.Runs.{all_ends, most_frames, recorded_after};

use crate::config::Config;
use crate::record::Record;
use co_dict::ObjectStore;
use co_dict_build::BuildFault;
use co_dict_image::ImageStore;
use co_frame::{AppEvent, Frame, Outbox};
use co_node_device::{Device, Seen};
use co_node_model::{AppAnswer, Input};
use co_node_parts::NodeState;
use co_pdo::Side;
use co_pdo_compiled::Compiled;
use co_sheet::Sheet;
use co_value::Key;
use std::alloc::Global;

/// A CANopen device made from a data sheet. It allocates no memory after `build`.
pub struct Node {
    device: Device<ImageStore>,
}

// Not derived: else each function that drops a device would contain the drop of each of its many
// parts.
impl Drop for Node {
    fn drop(self) {
        let Node { device } = self;
        drop(device);
    }
}

impl Node {
    /// The device of a data sheet at a node-ID, in NMT state pre-operational, that has received
    /// nothing. The faults are those of `ImageStore::build`; `Memory` also if the device's own
    /// memory can't be allocated.
    pub fn build(
        alloc: Global,
        sheet: &Sheet<'_>,
        node_id: u8,
        config: &Config<'_>,
    ) -> Result<Node, BuildFault>
        ensures stands { IfOk result (λ node. (greatest : ℕ) → IsGreatestCapacity
            (built_description (planned sheet.now node_id config.now)).rows greatest → Stands
            (node_constants (planned sheet.now node_id config.now) greatest config.now.time)
            node []) }
        ensures begins { IfOk result (λ node. Stands
            (built_constants (planned sheet.now node_id config.now) config.now.time) node []) }
        ensures built { IfOk result (λ _. IsBuilt (planned sheet.now node_id config.now)
            (built_constants (planned sheet.now node_id config.now) config.now.time)) }
        ensures greatest { IsGreatestCapacity
            (built_description (planned sheet.now node_id config.now)).rows
            (greatest_capacity (built_description (planned sheet.now node_id config.now))) }
        ensures start { IfOk result (λ _. (key : Key) →
            built_contents (planned sheet.now node_id config.now) key
            ≡ (built_description (planned sheet.now node_id config.now)).initial key) }
        ensures ok { IfOk result (λ _. build_fault (planned sheet.now node_id config.now) ≡ None) }
        ensures err { IfErr result (IsBuildFault (planned sheet.now node_id config.now)) }
    {
        let store = ImageStore::build(alloc, sheet, node_id, &config.limits)?;
        match Device::new(alloc, store, config.time) {
            Ok(device) => Ok(Node { device }),
            Err(_) => Err(BuildFault::Memory),
        }
    }

    /// Sends the boot-up, when the device enters pre-operational after power-on: the outbox then
    /// holds it and nothing else (CiA 301, 7.2.8.3.3).
    pub fn boot(&self, outbox: &mut Outbox)
        ensures { (k : Constants) (before : Inputs) → Stands k self.now before →
            outbox.new.items ≡ boot_up k ∷ [] }
    {
        self.device.boot(outbox);
    }

    /// Takes a received frame. The outbox then holds the frames that the definitions prescribe at
    /// it, and nothing else. Returns what an application may want to know of it, as `last_seen` does.
    /// The frames that come most are compiled into its caller: a program that calls it in several
    /// places calls `step`.
    #[inline(always)]
    pub fn take_frame(&mut self, frame: &Frame, outbox: &mut Outbox) -> Seen
        ensures frames { (k : Constants) (before : Inputs) → Stands k self.old before →
            outbox.new.items ≡ prescribed k before (Framed frame.now) }
        ensures stands { (k : Constants) (before : Inputs) → Stands k self.old before →
            Stands k self.new (Framed frame.now ∷ before) }
        ensures few { (k : Constants) (before : Inputs) → Stands k self.old before →
            length outbox.new.items ≤ frame_bound k before (Framed frame.now) }
        ensures held { (k : Constants) (before : Inputs) → Stands k self.old before →
            HoldsWithin k (Framed frame.now ∷ before) }
        ensures memory { (k : Constants) (before : Inputs) → Stands k self.old before →
            memory_of self.new ≡ memory_of self.old }
        ensures seen { (k : Constants) (before : Inputs) → Stands k self.old before →
            result ≡ last_seen k (Framed frame.now ∷ before) }
    {
        self.device.take_frame_inlined(frame, outbox, &mut [])
    }

    /// The same; the entries that the frame sets by SDO or by RPDOs are noted in `changes`, which
    /// have a bit for each entry, by increasing key: bit n % 8 of byte n / 8 is that of entry n.
    #[inline(always)]
    pub fn take_frame_noting(
        &mut self,
        frame: &Frame,
        outbox: &mut Outbox,
        changes: &mut [u8],
    ) -> Seen
        ensures frames { (k : Constants) (before : Inputs) → Stands k self.old before →
            outbox.new.items ≡ prescribed k before (Framed frame.now) }
        ensures stands { (k : Constants) (before : Inputs) → Stands k self.old before →
            Stands k self.new (Framed frame.now ∷ before) }
        ensures few { (k : Constants) (before : Inputs) → Stands k self.old before →
            length outbox.new.items ≤ frame_bound k before (Framed frame.now) }
        ensures held { (k : Constants) (before : Inputs) → Stands k self.old before →
            HoldsWithin k (Framed frame.now ∷ before) }
        ensures memory { (k : Constants) (before : Inputs) → Stands k self.old before →
            memory_of self.new ≡ memory_of self.old }
        ensures seen { (k : Constants) (before : Inputs) → Stands k self.old before →
            result ≡ last_seen k (Framed frame.now ∷ before) }
        ensures changes { (k : Constants) (before : Inputs) → Stands k self.old before →
            changes.new ≡
            with_keys k.description (last_set k (Framed frame.now ∷ before)) changes.old }
    {
        self.device.take_frame_inlined(frame, outbox, changes)
    }

    /// 1 ms elapsed. The outbox then holds the frames that the definitions prescribe at it, and
    /// nothing else. It is compiled into its caller: a program that calls it in several places calls
    /// `step`.
    #[inline(always)]
    pub fn tick(&mut self, outbox: &mut Outbox)
        ensures frames { (k : Constants) (before : Inputs) → Stands k self.old before →
            outbox.new.items ≡ prescribed k before Ticked }
        ensures stands { (k : Constants) (before : Inputs) → Stands k self.old before →
            Stands k self.new (Ticked ∷ before) }
        ensures few { (k : Constants) (before : Inputs) → Stands k self.old before →
            length outbox.new.items ≤ frame_bound k before Ticked }
        ensures held { (k : Constants) (before : Inputs) → Stands k self.old before →
            HoldsWithin k (Ticked ∷ before) }
        ensures memory { (k : Constants) (before : Inputs) → Stands k self.old before →
            memory_of self.new ≡ memory_of self.old }
    {
        self.device.tick(outbox);
    }

    /// Takes an application event. The outbox then holds the frames that the definitions prescribe
    /// at it, and nothing else. A refused event changes nothing but the answer.
    #[inline(always)]
    pub fn take_event(&mut self, event: AppEvent<&[u8]>, outbox: &mut Outbox)
        ensures frames { (k : Constants) (before : Inputs) → Stands k self.old before →
            outbox.new.items ≡ prescribed k before (Applied (app_view event.entry)) }
        ensures stands { (k : Constants) (before : Inputs) → Stands k self.old before →
            Stands k self.new (Applied (app_view event.entry) ∷ before) }
        ensures few { (k : Constants) (before : Inputs) → Stands k self.old before →
            length outbox.new.items ≤ frame_bound k before (Applied (app_view event.entry)) }
        ensures held { (k : Constants) (before : Inputs) → Stands k self.old before →
            HoldsWithin k (Applied (app_view event.entry) ∷ before) }
        ensures refused { (k : Constants) (before : Inputs) → Stands k self.old before →
            (code : ℕ) →
            event_refusal k.description (contents_of k before) (app_view event.entry) ≡ Some code →
            AsForNobody k self.new outbox.new.items before (app_view event.entry) code }
        ensures memory { (k : Constants) (before : Inputs) → Stands k self.old before →
            memory_of self.new ≡ memory_of self.old }
    {
        self.device.take_event(event, outbox);
    }

    /// The application writes bytes into an entry, as `take_event` does at `AppEvent::Write`. There
    /// is no search for it if `number` is its number among the device's entries in increasing key,
    /// from 0 on.
    pub fn write_at(&mut self, number: usize, key: Key, bytes: &[u8], outbox: &mut Outbox)
        ensures frames { (k : Constants) (before : Inputs) → Stands k self.old before →
            outbox.new.items ≡ prescribed k before (Applied (Written key bytes.now)) }
        ensures stands { (k : Constants) (before : Inputs) → Stands k self.old before →
            Stands k self.new (Applied (Written key bytes.now) ∷ before) }
        ensures few { (k : Constants) (before : Inputs) → Stands k self.old before →
            length outbox.new.items ≤ frame_bound k before (Applied (Written key bytes.now)) }
        ensures held { (k : Constants) (before : Inputs) → Stands k self.old before →
            HoldsWithin k (Applied (Written key bytes.now) ∷ before) }
        ensures refused { (k : Constants) (before : Inputs) → Stands k self.old before →
            (code : ℕ) →
            event_refusal k.description (contents_of k before) (Written key bytes.now) ≡ Some code →
            AsForNobody k self.new outbox.new.items before (Written key bytes.now) code }
        ensures memory { (k : Constants) (before : Inputs) → Stands k self.old before →
            memory_of self.new ≡ memory_of self.old }
    {
        match self.place_with(number, key) {
            Some(place) => self.device.write_at(place, key, bytes, outbox),
            None => self.take_event(AppEvent::Write(key, bytes), outbox),
        }
    }

    // Takes a received frame, out of line: `step` is small in each of its callers.
    #[inline(always)]
    fn step_frame(&mut self, frame: &Frame, outbox: &mut Outbox)
        ensures frames { (k : Constants) (before : Inputs) → Stands k self.old before →
            outbox.new.items ≡ prescribed k before (Framed frame.now) }
        ensures stands { (k : Constants) (before : Inputs) → Stands k self.old before →
            Stands k self.new (Framed frame.now ∷ before) }
        ensures few { (k : Constants) (before : Inputs) → Stands k self.old before →
            length outbox.new.items ≤ frame_bound k before (Framed frame.now) }
        ensures held { (k : Constants) (before : Inputs) → Stands k self.old before →
            HoldsWithin k (Framed frame.now ∷ before) }
        ensures memory { (k : Constants) (before : Inputs) → Stands k self.old before →
            memory_of self.new ≡ memory_of self.old }
    {
        self.device.take_frame(frame, outbox, &mut []);
    }

    // The same of 1 ms.
    #[inline(never)]
    fn step_tick(&mut self, outbox: &mut Outbox)
        ensures frames { (k : Constants) (before : Inputs) → Stands k self.old before →
            outbox.new.items ≡ prescribed k before Ticked }
        ensures stands { (k : Constants) (before : Inputs) → Stands k self.old before →
            Stands k self.new (Ticked ∷ before) }
        ensures few { (k : Constants) (before : Inputs) → Stands k self.old before →
            length outbox.new.items ≤ frame_bound k before Ticked }
        ensures held { (k : Constants) (before : Inputs) → Stands k self.old before →
            HoldsWithin k (Ticked ∷ before) }
        ensures memory { (k : Constants) (before : Inputs) → Stands k self.old before →
            memory_of self.new ≡ memory_of self.old }
    {
        self.tick(outbox);
    }

    /// Takes one input of any kind. The outbox then holds the frames that the definitions prescribe
    /// at it, and nothing else.
    #[inline(always)]
    pub fn step(&mut self, input: Input<'_>, outbox: &mut Outbox)
        ensures frames { (k : Constants) (before : Inputs) → Stands k self.old before →
            outbox.new.items ≡ prescribed k before (input_view input.entry) }
        ensures stands { (k : Constants) (before : Inputs) → Stands k self.old before →
            Stands k self.new (input_view input.entry ∷ before) }
        ensures few { (k : Constants) (before : Inputs) → Stands k self.old before →
            length outbox.new.items ≤ frame_bound k before (input_view input.entry) }
        ensures held { (k : Constants) (before : Inputs) → Stands k self.old before →
            HoldsWithin k (input_view input.entry ∷ before) }
        ensures memory { (k : Constants) (before : Inputs) → Stands k self.old before →
            memory_of self.new ≡ memory_of self.old }
    {
        let frame = match input {
            Input::Frame(frame) => frame,
            _ => Frame::default(),
        };
        match input {
            Input::Frame(_) => self.step_frame(&frame, outbox),
            Input::Tick => self.step_tick(outbox),
            // matched and built again: a caller's event can't be passed on as a whole
            Input::App(AppEvent::Write(key, bytes)) => {
                self.take_event(AppEvent::Write(key, bytes), outbox)
            }
            Input::App(AppEvent::Event(number)) => {
                self.take_event(AppEvent::Event(number), outbox)
            }
            Input::App(AppEvent::Changed(key)) => {
                self.take_event(AppEvent::Changed(key), outbox)
            }
            Input::App(AppEvent::Raise(code, bits, manufacturer)) => {
                self.take_event(AppEvent::Raise(code, bits, manufacturer), outbox)
            }
            Input::App(AppEvent::Clear(bits)) => { self.take_event(AppEvent::Clear(bits), outbox) }
        }
    }

    /// The bytes of an entry; `None` if there is no such entry.
    pub fn value(&self, key: Key) -> Option<&[u8]>
        ensures { (k : Constants) (before : Inputs) → Stands k self.now before →
            option_map (λ bytes. bytes.now) result ≡ contents_of k before key }
    {
        self.device.store().bytes(key)
    }

    // The place with this number, if the entry is there.
    #[inline(always)]
    fn place_with(&self, number: usize, key: Key) -> Option<u32>
        ensures { IfSome result (λ place.
            key_at (description_of self.now.device.store) place ≡ Some key) }
    {
        let place = u32::try_from(number).ok()?;
        let there = self.device.store().key_at(place)?;
        if there == key { Some(place) } else { None }
    }

    /// The bytes of an entry, as `value` returns them. There is no search for it if `number` is its
    /// number among the device's entries in increasing key, from 0 on.
    pub fn value_at(&self, number: usize, key: Key) -> Option<&[u8]>
        ensures { (k : Constants) (before : Inputs) → Stands k self.now before →
            option_map (λ bytes. bytes.now) result ≡ contents_of k before key }
    {
        match self.place_with(number, key) {
            Some(place) => self.device.store().bytes_at(place),
            None => self.value(key),
        }
    }

    /// The node-ID, 1 to 127.
    pub fn node_id(&self) -> u8
        ensures { (k : Constants) (before : Inputs) → Stands k self.now before →
            result ≡ k.description.node }
    {
        self.device.store().node_id()
    }

    /// The NMT state (CiA 301, 7.3.2).
    pub fn state(&self) -> NodeState
        ensures { (k : Constants) (before : Inputs) → Stands k self.now before →
            result ≡ state_of k before }
    {
        self.device.state()
    }

    /// How many bytes are held for the transfer of an SDO channel; 0 if there is no such channel.
    /// They are at most the capacity of the transferred entry plus 889.
    pub fn held(&self, channel: u8) -> usize
        ensures held { (k : Constants) (before : Inputs) → Stands k self.now before →
            result ≡ held_of k before channel }
        ensures room { (k : Constants) (before : Inputs) → Stands k self.now before →
            result ≤ room_of k before channel }
    {
        self.device.held(channel)
    }

    /// The compiled mapping of PDO `number` of a side in the dictionary now; `None` if there is no
    /// such PDO (CiA 301, 7.5.2.36 and 7.5.2.38).
    pub fn compiled(&self, side: Side, number: u16) -> Option<&Compiled>
        ensures there { (k : Constants) (before : Inputs) → Stands k self.now before →
            is_some result ≡ (nat_lt number 512 && has_pdo side k.description.rows number) }
        ensures form { (k : Constants) (before : Inputs) → Stands k self.now before →
            IfSome result (λ compiled. IsCompiledForm k.description
            (mapping_of side k.description (contents_of k before) number) compiled.now) }
    {
        self.device.compiled(side, number)
    }

    /// During this many ms the device sends nothing, and its entries, its NMT state and the bytes
    /// held by SDO channels stay the same, if it gets no other input: a lower bound.
    pub fn idle(&self) -> u32
        ensures { (k : Constants) (before : Inputs) → Stands k self.now before →
            IsQuietFor k before result }
    {
        self.device.idle()
    }

    /// The answer to the last input, if that was an application event; else `AppAnswer::None`.
    pub fn last_app(&self) -> AppAnswer
        ensures { (k : Constants) (before : Inputs) → Stands k self.now before →
            result ≡ app_after k before }
    {
        self.device.last_app()
    }

    /// What an application may want to know of the last input; `Seen::Nothing` before the first.
    #[inline(always)]
    pub fn last_seen(&self) -> Seen
        ensures { (k : Constants) (before : Inputs) → Stands k self.now before →
            result ≡ last_seen k before }
    {
        self.device.last_seen()
    }

    /// The sub-indices of 1016h whose heartbeat was lost at the last input, increasing (CiA 301,
    /// 7.5.2.19).
    #[inline(always)]
    pub fn lost(&self) -> &[u8]
        ensures { (k : Constants) (before : Inputs) → Stands k self.now before →
            result.now ≡ last_losses k before }
    {
        self.device.lost()
    }

    /// Takes inputs in order, and appends the frames of each and their end to the record. It stops
    /// at an input for which the record may lack room: it needs room for one more input and the
    /// most frames of an input: 129, or the number of TPDOs plus 2 if that is more. Returns how
    /// many inputs it took.
    pub fn run(&mut self, inputs: &[Input<'_>], kept: &mut Record) -> usize
        ensures within { result ≤ length inputs.now }
        ensures frames { (k : Constants) (before : Inputs) → Stands k self.old before →
            kept.new.frames ≡ kept.old.frames
            ++ all_frames k before (take result (map input_view inputs.now)) }
        ensures ends { (k : Constants) (before : Inputs) → Stands k self.old before →
            kept.new.ends ≡ kept.old.ends ++ all_ends k before (length kept.old.frames)
            (take result (map input_view inputs.now)) }
        ensures stands { (k : Constants) (before : Inputs) → Stands k self.old before →
            Stands k self.new (after_all before (take result (map input_view inputs.now))) }
        ensures few { (k : Constants) (before : Inputs) → Stands k self.old before →
            length kept.new.frames ≤ length kept.old.frames + result * most_frames k }
        ensures held { (k : Constants) (before : Inputs) → Stands k self.old before →
            (n : ℕ) → n ≤ result →
            HoldsWithin k (after_all before (take n (map input_view inputs.now))) }
        ensures roomy { (k : Constants) (before : Inputs) → Stands k self.old before →
            (n : ℕ) → n < result → HasRoom (most_frames k)
            (recorded_after k before (take n (map input_view inputs.now)) kept.old) }
        ensures early { (k : Constants) (before : Inputs) → Stands k self.old before →
            result < length inputs.now → HasRoom (most_frames k) kept.new → ⊥ }
        ensures frame_room { kept.new.frame_room ≡ kept.old.frame_room }
        ensures input_room { kept.new.input_room ≡ kept.old.input_room }
        ensures memory { (k : Constants) (before : Inputs) → Stands k self.old before →
            memory_of self.new ≡ memory_of self.old }
    {
        let most = self.device.most_frames();
        let mut sent = Outbox::new();
        let mut taken = 0;
        for input in inputs.iter().copied() {
            if !kept.has_room(most) {
                return taken;
            }
            self.step(input, &mut sent);
            kept.add(&sent);
            taken += 1;
        }
        taken
    }
}
