//! Building a device, and reading from it.

ghost use Rattle.std.specs.Prelude.{◌≡◌, ◌≤◌, ◌+◌, ◌&&◌, [], ◌∷◌, IfOk, IfSome, is_some, max, nat_lt, option_map};
ghost use Rattle.co_value.specs.declared.key.Key.{Key};
ghost use Rattle.co_dict.specs.Rows.{capacity_at};
ghost use Rattle.co_dict.specs.Stores.{greatest_capacity};
ghost use Rattle.co_pdo.specs.Mappings.{has_pdo, mapping_of};
ghost use Rattle.co_pdo_compiled.specs.CompiledMappings.{IsCompiledForm};
ghost use Rattle.co_node_model.specs.Inputs.{Inputs, InputView};
ghost use Rattle.co_node_model.specs.Moments.{Constants};
ghost use Rattle.co_node_model.specs.Heartbeats.{boot_up};
ghost use Rattle.co_node_model.specs.Device.{app_after, contents_of, frame_bound, held_of, room_of, state_of};
ghost use Rattle.co_node_model.specs.Tpdos.{tpdo_count};
ghost use Rattle.co_sdo.specs.Banks.{all_settings};
ghost use Rattle.co_sdo.specs.Channels.{HaveRoom};
ghost use Rattle.co_node_device.specs.MappingTables.{HaveParts};
ghost use Rattle.co_node_device.specs.SlotTables.{AreSlotsOf};
ghost use Rattle.co_node_device.specs.NodeStanding.{NodeStands};
ghost use Rattle.co_node_device.specs.Standing.{Stands};
ghost use Rattle.co_node_device.specs.Built.{constants_of};
ghost use Rattle.co_node_device.specs.Lasts.{last_losses, last_seen};

use crate::addresses::AddressTable;
use crate::device::Device;
use crate::heartbeats::{begun_consumers, begun_producer, send_life};
use crate::mapping_table::last_of;
use crate::mappings::CompiledMappings;
use crate::parts::Parts;
use crate::seen::Seen;
use co_dict::{ObjectStore, Side, greatest_capacity_law};
use co_frame::{Heartbeat, Outbox};
use co_node_laws::greatest_bound;
use co_node_model::AppAnswer;
use co_node_parts::{Emergencies, LostHeartbeats, NmtState, NodeState, RpdoSlots};
use co_pdo::{Due, PdoNumber, Schedule, has_pdo};
use co_pdo_compiled::Compiled;
use co_sdo::Bank;
use co_value::Key;
use std::alloc::{AllocError, Global};

// Empty slots for the frames of a dictionary's RPDOs, up to the last.
fn slots_of<S: ObjectStore>(alloc: Global, store: &S) -> Result<RpdoSlots, AllocError>
    ensures { IfOk result (λ slots. AreSlotsOf (S.description store.now) slots []) }
{
    RpdoSlots::new(alloc, last_of(store, Side::Rpdo))
}

// The parts of a device over a dictionary, none of whose entries has more than `greatest` bytes. It
// is borrowed, so that no exit drops a store as well as parts.
fn parts_of<S: ObjectStore>(
    alloc: Global,
    store: &S,
    greatest: u32,
    time: u16,
) -> Result<Parts, AllocError>
    requires greatest { (key : Key) → capacity_at (S.description store.now).rows key ≤ greatest }
    ensures stands { IfOk result (λ parts. NodeStands
        (constants_of (S.description store.now) (S.contents store.now) greatest time)
        (S.description store.now) (S.contents store.now) parts []) }
    ensures fits { IfOk result (λ parts.
        HaveRoom (S.description store.now).rows (all_settings parts.bank)) }
    ensures rpdos { IfOk result (λ parts.
        HaveParts (S.description store.now) parts.mappings.rpdos) }
    ensures tpdos { IfOk result (λ parts.
        HaveParts (S.description store.now) parts.mappings.tpdos) }
{
    let bank = Bank::new(alloc, store, greatest, time)?;
    let addresses = AddressTable::new(alloc, store)?;
    let mappings = CompiledMappings::new(alloc, store)?;
    let emergencies = Emergencies::new(alloc)?;
    let slots = slots_of(alloc, store)?;
    let schedule = Schedule::new(alloc, store)?;
    Ok(Parts {
        state: NmtState::new(),
        bank,
        addresses,
        mappings,
        consumers: begun_consumers(store),
        lost: LostHeartbeats::new(),
        emergencies,
        slots,
        producer: begun_producer(store),
        schedule,
        due: Due::new(),
        last_app: AppAnswer::None,
        last_seen: Seen::Nothing,
    })
}

impl<S: ObjectStore + Drop> Device<S> {
    /// A device over a dictionary, in NMT state pre-operational, that has received nothing.
    /// `time` is the SDO timeout between two requests, in ms, 0 disables it. `AllocError` if memory
    /// can't be allocated; the device allocates none after that.
    pub fn new(alloc: Global, store: S, time: u16) -> Result<Device<S>, AllocError>
        ensures stands { IfOk result (λ device. Stands
            (constants_of (S.description store) (S.contents store)
            (greatest_capacity (S.description store)) time) device []) }
        ensures description { IfOk result (λ device.
            S.description device.store ≡ S.description store) }
        ensures contents { IfOk result (λ device. S.contents device.store ≡ S.contents store) }
    {
        // a law: the call changes nothing
        greatest_capacity_law(&store);
        let greatest = u32::from(store.greatest_capacity());
        let parts = parts_of(alloc, &store, greatest, time)?;
        Ok(Device { store, parts })
    }
}

impl<S: ObjectStore> Device<S> {
    /// Sends the boot-up, when the device enters pre-operational after power-on: the outbox then
    /// holds it and nothing else (CiA 301, 7.2.8.3.3).
    pub fn boot(&self, outbox: &mut Outbox)
        ensures { (k : Constants) (inputs : Inputs) → Stands k self.now inputs →
            outbox.new.items ≡ boot_up k ∷ [] }
    {
        outbox.clear();
        send_life(&self.store, Some(Heartbeat::BootUp), outbox);
    }

    /// The store of the entries.
    #[inline(always)]
    pub fn store(&self) -> &S
        ensures { result.now ≡ self.now.store }
    {
        &self.store
    }

    /// The NMT state (CiA 301, 7.3.2).
    pub fn state(&self) -> NodeState
        ensures { (k : Constants) (inputs : Inputs) → Stands k self.now inputs →
            result ≡ state_of k inputs }
    {
        self.parts.state.get()
    }

    /// How many bytes are held for the transfer of an SDO channel; 0 if there is no such channel.
    pub fn held(&self, channel: u8) -> usize
        ensures held { (k : Constants) (inputs : Inputs) → Stands k self.now inputs →
            result ≡ held_of k inputs channel }
        ensures room { (k : Constants) (inputs : Inputs) → Stands k self.now inputs →
            result ≤ room_of k inputs channel }
    {
        self.parts.bank.held(channel)
    }

    /// The answer to the last input, if that was an application event; else `AppAnswer::None`.
    pub fn last_app(&self) -> AppAnswer
        ensures { (k : Constants) (inputs : Inputs) → Stands k self.now inputs →
            result ≡ app_after k inputs }
    {
        self.parts.last_app
    }

    /// What an application may want to know of the last input; `Seen::Nothing` before the first.
    #[inline(always)]
    pub fn last_seen(&self) -> Seen
        ensures { (k : Constants) (inputs : Inputs) → Stands k self.now inputs →
            result ≡ last_seen k inputs }
    {
        self.parts.last_seen
    }

    /// The sub-indices of 1016h whose heartbeat was lost at the last input, increasing (CiA 301,
    /// 7.5.2.19).
    #[inline(always)]
    pub fn lost(&self) -> &[u8]
        ensures { (k : Constants) (inputs : Inputs) → Stands k self.now inputs →
            result.now ≡ last_losses k inputs }
    {
        &self.parts.lost
    }

    /// The compiled mapping of PDO `number` of a side in the dictionary now; `None` if there is no
    /// such PDO (CiA 301, 7.5.2.36 and 7.5.2.38).
    pub fn compiled(&self, side: Side, number: u16) -> Option<&Compiled>
        ensures there { (k : Constants) (inputs : Inputs) → Stands k self.now inputs →
            is_some result ≡ (nat_lt number 512 && has_pdo side k.description.rows number) }
        ensures form { (k : Constants) (inputs : Inputs) → Stands k self.now inputs →
            IfSome result (λ compiled. IsCompiledForm k.description
            (mapping_of side k.description (contents_of k inputs) number) compiled.now) }
    {
        match PdoNumber::new(number) {
            Some(k) if has_pdo(&self.store, side, k) => self.parts.mappings.compiled(side, k),
            _ => None,
        }
    }

    /// The most frames that one input sends: 129, or the number of TPDOs plus 2 if that is more; so
    /// at most 514.
    pub fn most_frames(&self) -> usize
        ensures most { (k : Constants) (inputs : Inputs) → Stands k self.now inputs →
            result ≡ max 127 (tpdo_count k.description.rows) + 2 }
        ensures enough { (k : Constants) (inputs : Inputs) → Stands k self.now inputs →
            (later : Inputs) (input : InputView) → frame_bound k later input ≤ result }
        ensures few { result ≤ 514 }
    {
        greatest_bound();
        self.parts.schedule.tpdo_count().max(127) + 2
    }
}
