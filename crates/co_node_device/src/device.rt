//! A device over a dictionary, and its inputs.

ghost use Rattle.std.specs.Prelude.{◌≡◌, ◌≤◌, ◌∷◌, length, true, Some, if◌then◌else◌};
ghost use Rattle.std.proofs.Props.{props};
ghost use Rattle.co_pdo_compiled.proofs.Props.{part_prop};
ghost use Rattle.co_sdo.specs.Banks.{all_settings};
ghost use Rattle.co_sdo.specs.Channels.{HaveRoom};
ghost use Rattle.co_frame.specs.SegmentSizes.{segments_per_sub_block};
ghost use Rattle.co_dict.specs.Places.{key_at};
ghost use Rattle.co_node_model.specs.Inputs.{Applied, Framed, Inputs, InputView, Ticked, Written, app_view};
ghost use Rattle.co_node_model.specs.Moments.{Constants};
ghost use Rattle.co_node_model.specs.Device.{prescribed, frame_bound, moment, moments};
ghost use Rattle.co_dict_placed.specs.Changes.{with_keys};
ghost use Rattle.co_node_device.specs.Lasts.{last_seen};
ghost use Rattle.co_node_device.specs.SetEntries.{last_set, set_by_rpdos};
ghost use Rattle.co_node_device.specs.MappingTables.{HaveParts};
ghost use Rattle.co_node_model.specs.Marks.{marked_time_out};

use crate::addresses::find_address;
use crate::emergencies::{send_emergency, take_emergency};
use crate::given::Given;
use crate::heartbeats::{producer_event, send_life, watch};
use crate::mapping_table::mappings_stay;
use crate::parts::Parts;
use crate::receiving::receive;
use crate::rpdos::take_pdos;
use crate::sdo::{drop_if, drops, note_download};
use crate::seen::Seen;
use crate::tpdos::{send_tpdos, take_turn, turn_of};
use co_dict::{ObjectStore, store_laws};
use co_frame::{AppEvent, Frame, Outbox};
use co_node_laws::{addresses_kept, few, mappings_kept, schedule_ready};
use co_node_model::{Address, Mark, emergency_event, life_of, state_event};
use co_node_parts::Transition;
use co_pdo::active_is_there;
use co_value::Key;

/// A device over a dictionary. Each SDO channel has room for every entry.
#[derive(Drop)]
pub struct Device<S: ObjectStore> {
    pub(crate) store: S,
    pub(crate) parts: Parts,
    ghost fits: { HaveRoom (S.description store).rows (all_settings parts.bank) },
    ghost rpdos: { HaveParts (S.description store) parts.mappings.rpdos } by { Prim.hlevel (props, part_prop) },
    ghost tpdos: { HaveParts (S.description store) parts.mappings.tpdos } by { Prim.hlevel (props, part_prop) },
}

impl<S: ObjectStore> Device<S> {
    ghost use Rattle.co_node_device.specs.Given.{IsPlaced, given_view};
    ghost use Rattle.co_node_device.specs.Befores.{IsAddressed};
    ghost use Rattle.co_node_device.specs.Receiving.{may_be_due};
    ghost use Rattle.co_node_device.specs.Phases.{with_sent};
    ghost use Rattle.co_node_device.specs.Standing.{HasReceived, HasTakenEffect, Stands};

    /// Takes a received frame. The outbox then holds the frames that the definitions prescribe at
    /// it, and nothing else. The entries that it sets by SDO or by RPDOs are noted in `changes`.
    /// Returns what is seen of it.
    #[inline(never)]
    pub fn take_frame(&mut self, frame: &Frame, outbox: &mut Outbox, changes: &mut [u8]) -> Seen
        ensures frames { (k : Constants) (inputs : Inputs) → Stands k self.old inputs →
            outbox.new.items ≡ prescribed k inputs (Framed frame.now) }
        ensures few { (k : Constants) (inputs : Inputs) → Stands k self.old inputs →
            length outbox.new.items ≤ frame_bound k inputs (Framed frame.now) }
        ensures stands { (k : Constants) (inputs : Inputs) → Stands k self.old inputs →
            Stands k self.new (Framed frame.now ∷ inputs) }
        ensures seen { (k : Constants) (inputs : Inputs) → Stands k self.old inputs →
            result ≡ last_seen k (Framed frame.now ∷ inputs) }
        ensures changes { (k : Constants) (inputs : Inputs) → Stands k self.old inputs →
            changes.new ≡
            with_keys k.description (last_set k (Framed frame.now ∷ inputs)) changes.old }
    {
        let address = find_address(&self.parts.bank, &self.parts.addresses, frame);
        match address {
            Address::Nmt => self.take(Given::Frame, Address::Nmt, frame, outbox, changes),
            Address::Sync => self.take(Given::Frame, Address::Sync, frame, outbox, changes),
            Address::Channel(number) => {
                self.take(
                    Given::Frame,
                    Address::Channel(number),
                    frame,
                    outbox,
                    changes,
                )
            }
            Address::Rpdo(number) => self.take(
                Given::Frame,
                Address::Rpdo(number),
                frame,
                outbox,
                changes,
            ),
            Address::ErrorControl(node) => {
                self.take(
                    Given::Frame,
                    Address::ErrorControl(node),
                    frame,
                    outbox,
                    changes,
                )
            }
            Address::Nobody => self.take(Given::Frame, Address::Nobody, frame, outbox, changes),
        }
    }

    /// The same, compiled into its caller for those that come most to a device: a SYNC, the requests
    /// to SDO channels and the frames of RPDOs.
    #[inline(always)]
    pub fn take_frame_inlined(
        &mut self,
        frame: &Frame,
        outbox: &mut Outbox,
        changes: &mut [u8],
    ) -> Seen
        ensures frames { (k : Constants) (inputs : Inputs) → Stands k self.old inputs →
            outbox.new.items ≡ prescribed k inputs (Framed frame.now) }
        ensures few { (k : Constants) (inputs : Inputs) → Stands k self.old inputs →
            length outbox.new.items ≤ frame_bound k inputs (Framed frame.now) }
        ensures stands { (k : Constants) (inputs : Inputs) → Stands k self.old inputs →
            Stands k self.new (Framed frame.now ∷ inputs) }
        ensures seen { (k : Constants) (inputs : Inputs) → Stands k self.old inputs →
            result ≡ last_seen k (Framed frame.now ∷ inputs) }
        ensures changes { (k : Constants) (inputs : Inputs) → Stands k self.old inputs →
            changes.new ≡
            with_keys k.description (last_set k (Framed frame.now ∷ inputs)) changes.old }
    {
        let address = find_address(&self.parts.bank, &self.parts.addresses, frame);
        match address {
            Address::Sync => self.take(Given::Frame, Address::Sync, frame, outbox, changes),
            Address::Channel(number) => {
                self.take(
                    Given::Frame,
                    Address::Channel(number),
                    frame,
                    outbox,
                    changes,
                )
            }
            Address::Rpdo(number) => self.take(
                Given::Frame,
                Address::Rpdo(number),
                frame,
                outbox,
                changes,
            ),
            _ => self.take_frame(frame, outbox, changes),
        }
    }

    /// 1 ms elapsed. The outbox then holds the frames that the definitions prescribe at it, and
    /// nothing else.
    #[inline(always)]
    pub fn tick(&mut self, outbox: &mut Outbox)
        ensures frames { (k : Constants) (inputs : Inputs) → Stands k self.old inputs →
            outbox.new.items ≡ prescribed k inputs Ticked }
        ensures few { (k : Constants) (inputs : Inputs) → Stands k self.old inputs →
            length outbox.new.items ≤ frame_bound k inputs Ticked }
        ensures stands { (k : Constants) (inputs : Inputs) → Stands k self.old inputs →
            Stands k self.new (Ticked ∷ inputs) }
    {
        self.take(
            Given::Tick,
            Address::Nobody,
            &Frame::default(),
            outbox,
            &mut [],
        );
    }

    /// Takes an application event. The outbox then holds the frames that the definitions prescribe
    /// at it, and nothing else.
    #[inline(never)]
    pub fn take_event(&mut self, event: AppEvent<&[u8]>, outbox: &mut Outbox)
        ensures frames { (k : Constants) (inputs : Inputs) → Stands k self.old inputs →
            outbox.new.items ≡ prescribed k inputs (Applied (app_view event.entry)) }
        ensures few { (k : Constants) (inputs : Inputs) → Stands k self.old inputs →
            length outbox.new.items ≤ frame_bound k inputs (Applied (app_view event.entry)) }
        ensures stands { (k : Constants) (inputs : Inputs) → Stands k self.old inputs →
            Stands k self.new (Applied (app_view event.entry) ∷ inputs) }
    {
        self.take(
            Given::App(event),
            Address::Nobody,
            &Frame::default(),
            outbox,
            &mut [],
        );
    }

    /// The application writes bytes into the entry at a place, which has this key: as `take_event`
    /// does at `Write`, without a search for the entry.
    #[inline(never)]
    pub fn write_at(&mut self, place: u32, key: Key, bytes: &[u8], outbox: &mut Outbox)
        requires { key_at (S.description self.old.store) place ≡ Some key }
        ensures frames { (k : Constants) (inputs : Inputs) → Stands k self.old inputs →
            outbox.new.items ≡ prescribed k inputs (Applied (Written key bytes.now)) }
        ensures few { (k : Constants) (inputs : Inputs) → Stands k self.old inputs →
            length outbox.new.items ≤ frame_bound k inputs (Applied (Written key bytes.now)) }
        ensures stands { (k : Constants) (inputs : Inputs) → Stands k self.old inputs →
            Stands k self.new (Applied (Written key bytes.now) ∷ inputs) }
    {
        let given = Given::WriteAt(place, key, bytes);
        self.take(given, Address::Nobody, &Frame::default(), outbox, &mut []);
    }

    // Takes one input; its frame and the addressee of that are arguments of their own. Returns what
    // is seen of it. Inlined in each caller, where the kind of the mark is mostly known.
    #[inline(always)]
    fn take(
        &mut self,
        given: Given<'_>,
        address: Address,
        frame: &Frame,
        outbox: &mut Outbox,
        changes: &mut [u8],
    ) -> Seen
        requires { IsPlaced (S.description self.old.store) given }
        ensures frames { (k : Constants) (inputs : Inputs) → Stands k self.old inputs →
            IsAddressed k (moments k inputs) given.entry address frame.now →
            outbox.new.items ≡ prescribed k inputs (given_view given.entry frame.now) }
        ensures few { (k : Constants) (inputs : Inputs) → Stands k self.old inputs →
            IsAddressed k (moments k inputs) given.entry address frame.now →
            length outbox.new.items ≤ frame_bound k inputs (given_view given.entry frame.now) }
        ensures stands { (k : Constants) (inputs : Inputs) → Stands k self.old inputs →
            IsAddressed k (moments k inputs) given.entry address frame.now →
            Stands k self.new (given_view given.entry frame.now ∷ inputs) }
        ensures seen { (k : Constants) (inputs : Inputs) → Stands k self.old inputs →
            IsAddressed k (moments k inputs) given.entry address frame.now →
            result ≡ last_seen k (given_view given.entry frame.now ∷ inputs) }
        ensures changes { (k : Constants) (inputs : Inputs) → Stands k self.old inputs →
            IsAddressed k (moments k inputs) given.entry address frame.now → changes.new ≡
            with_keys k.description (last_set k (given_view given.entry frame.now ∷ inputs))
            changes.old }
    {
        outbox.clear();
        let before = self.parts.state.get();
        let received = receive(
            &mut self.store,
            &mut self.parts.bank,
            &mut self.parts.emergencies,
            before,
            given,
            address,
            frame,
            outbox,
        );
        let seen = Seen::of(&received.mark);
        self.parts.last_app = received.app;
        self.parts.last_seen = seen;
        note_download(&self.store, given, &received.mark, changes);
        let transition = self.take_effect(&received.mark, changes);
        self.send(&received.mark, transition, outbox);
        // laws: calls of them change nothing
        few();
        store_laws(&self.store);
        seen
    }

    // The effects of a received input: lost heartbeats, the NMT state, dropped SDO transfers, SYNC
    // and RPDOs.
    #[inline(always)]
    fn take_effect(&mut self, mark: &Mark, changes: &mut [u8]) -> Transition
        ensures effect { (k : Constants) (inputs : Inputs) (input : InputView) →
            HasReceived k self.old inputs input mark.now →
            HasTakenEffect k self.new inputs input mark.now result }
        ensures changes { (k : Constants) (inputs : Inputs) (input : InputView) →
            HasReceived k self.old inputs input mark.now → changes.new ≡ with_keys k.description
            (set_by_rpdos k (moment k (moments k inputs) input)) changes.old }
    {
        let before = self.parts.state.get();
        let loss = watch(
            &mut self.store,
            &mut self.parts.consumers,
            &mut self.parts.emergencies,
            mark,
            &mut self.parts.lost,
        );
        self.parts.state.note(state_event(mark));
        let changed = self.parts.state.note(loss);
        let after = changed.after;
        let transition = Transition { before, after };
        drop_if(&mut self.parts.bank, drops(mark, transition));
        self.parts.mappings.note(mark, &self.store);
        // a law: the call changes nothing
        active_is_there(&self.store);
        take_pdos(
            &mut self.store,
            &self.parts.mappings.rpdos,
            &mut self.parts.slots,
            &mut self.parts.emergencies,
            changes,
            mark,
            transition,
        );
        self.parts.addresses.note(mark, &self.store);
        // laws: calls of them change nothing
        addresses_kept();
        mappings_kept();
        mappings_stay();
        transition
    }

    // Puts the frames besides SDO into the outbox: an emergency, the boot-up or a heartbeat, and
    // TPDOs.
    #[inline(always)]
    fn send(&mut self, mark: &Mark, transition: Transition, outbox: &mut Outbox)
        requires room { length outbox.old.items ≤ segments_per_sub_block }
        requires alone { may_be_due mark.now ≡ true →
            length outbox.old.items ≤ (if marked_time_out mark.now then 1 else 0) }
        ensures frames { (k : Constants) (inputs : Inputs) (input : InputView) →
            HasTakenEffect k self.old inputs input mark.now transition →
            outbox.new.items ≡ with_sent k (moment k (moments k inputs) input) outbox.old.items }
        ensures stands { (k : Constants) (inputs : Inputs) (input : InputView) →
            HasTakenEffect k self.old inputs input mark.now transition →
            Stands k self.new (input ∷ inputs) }
    {
        let store = &self.store;
        let after = transition.after;
        self.parts.emergencies.note(emergency_event(mark));
        let emergency = take_emergency(store, &mut self.parts.emergencies, mark, after);
        send_emergency(store, emergency, outbox);
        let is_due = self.parts.producer.note(producer_event(mark, store));
        let life = life_of(mark, after, is_due);
        send_life(store, life, outbox);
        let turn = turn_of(mark, transition);
        take_turn(&mut self.parts.schedule, store, turn, &mut self.parts.due);
        send_tpdos(
            store,
            &self.parts.schedule,
            &self.parts.mappings.tpdos,
            &self.parts.due,
            outbox,
        );
        // a law: the call changes nothing
        schedule_ready();
    }
}
