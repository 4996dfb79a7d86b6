//! The places of the parameters of one TPDO in the dictionary.

ghost use Rattle.std.specs.Prelude.{◌≡◌, ◌<◌, ℕ, Some, option_map, IfSome, length};
ghost use Rattle.co_value.specs.declared.key.Key.{Key};
ghost use Rattle.co_value.specs.declared.data_type.DataType.{DataType};
ghost use Rattle.co_value.specs.declared.data_type.DataType.TheVariants.{Unsigned8, Unsigned16, Unsigned32};
ghost use Rattle.co_value.specs.Types.{width_of};
ghost use Rattle.co_profile.specs.FixedTypes.{fixed_type_of};
ghost use Rattle.co_dict.specs.Rows.{number_at};
ghost use Rattle.co_dict.specs.Places.{place_of};
ghost use Rattle.co_dict.specs.declared.side.Side.{Side};
ghost use Rattle.co_pdo.specs.Mappings.{count_of};
ghost use Rattle.co_pdo.specs.Pdos.{cob_id_of};
ghost use Rattle.co_profile.specs.Keys.{counter_overflow_key};
ghost use Rattle.co_pdo.specs.Tpdos.{tpdo_key, is_active, places_of, settings_of};

use crate::settings::Settings;
use co_dict::{CobId, ObjectStore, place_laws, store_laws};
use co_profile::{IndexRange, PdoNumber, TransmissionType, keys};
use co_value::{Key, read_u8, read_u16, read_u32};

/// The places of the entries that decide when a TPDO is due; `None` for a missing entry. No call of
/// a dictionary changes a place, so they are looked up once.
#[derive(Clone, Copy)]
pub struct Places {
    /// Of 1800h + k, sub-index 1.
    pub cob_id: Option<u32>,
    /// Of 1800h + k, sub-index 2.
    pub transmission_type: Option<u32>,
    /// Of 1800h + k, sub-index 3.
    pub inhibit_time: Option<u32>,
    /// Of 1800h + k, sub-index 5.
    pub event_timer: Option<u32>,
    /// Of 1800h + k, sub-index 6.
    pub start_value: Option<u32>,
    /// Of 1A00h + k, sub-index 0.
    pub mapped: Option<u32>,
    /// Of 1019h, the same of each TPDO.
    pub counter_overflow: Option<u32>,
}

/// The key of a sub-index of the communication parameter of TPDO k.
fn tpdo_key(k: PdoNumber, sub: u8) -> Key
    ensures { result ≡ tpdo_key k sub }
{
    Key {
        index: IndexRange::TPDO_COMMUNICATION.nth(k.get()),
        sub,
    }
}

/// The bytes at a place, if there is one.
fn bytes_at<S: ObjectStore>(store: &S, place: Option<u32>) -> Option<&[u8]>
    ensures { (key : Key) → place ≡ place_of (S.description store.now) key →
        option_map (λ bytes. bytes.now) result ≡ S.contents store.now key }
{
    store_laws(store);
    place_laws(store);
    store.bytes_at(place?)
}

/// The bytes at a place, if they are `width` bytes.
fn bytes_of_width<S: ObjectStore>(store: &S, place: Option<u32>, width: usize) -> Option<&[u8]>
    ensures bytes { (key : Key) (t : DataType) → fixed_type_of key ≡ Some t →
        width_of t ≡ Some width → place ≡ place_of (S.description store.now) key →
        option_map (λ bytes. bytes.now) result ≡ S.contents store.now key }
    ensures len { IfSome result (λ bytes. length bytes.now ≡ width) }
{
    store_laws(store);
    let bytes = bytes_at(store, place)?;
    if bytes.len() == width {
        Some(bytes)
    } else {
        None
    }
}

/// The UNSIGNED8 at a place, 0 if there is none.
fn number_u8<S: ObjectStore>(store: &S, place: Option<u32>) -> u8
    ensures { (key : Key) → fixed_type_of key ≡ Some Unsigned8 →
        place ≡ place_of (S.description store.now) key →
        result ≡ number_at (S.contents store.now) key }
{
    match bytes_of_width(store, place, 1) {
        Some(bytes) => read_u8(bytes),
        None => 0,
    }
}

/// The UNSIGNED16 at a place, 0 if there is none.
fn number_u16<S: ObjectStore>(store: &S, place: Option<u32>) -> u16
    ensures { (key : Key) → fixed_type_of key ≡ Some Unsigned16 →
        place ≡ place_of (S.description store.now) key →
        result ≡ number_at (S.contents store.now) key }
{
    match bytes_of_width(store, place, 2) {
        Some(bytes) => read_u16(bytes),
        None => 0,
    }
}

/// The UNSIGNED32 at a place, 0 if there is none.
fn number_u32<S: ObjectStore>(store: &S, place: Option<u32>) -> u32
    ensures { (key : Key) → fixed_type_of key ≡ Some Unsigned32 →
        place ≡ place_of (S.description store.now) key →
        result ≡ number_at (S.contents store.now) key }
{
    match bytes_of_width(store, place, 4) {
        Some(bytes) => read_u32(bytes),
        None => 0,
    }
}

impl Places {
    /// The places of TPDO k.
    pub(crate) fn of<S: ObjectStore>(store: &S, k: PdoNumber) -> Places
        ensures { result ≡ places_of (S.description store.now) k }
    {
        Places {
            cob_id: store.place(tpdo_key(k, 1)),
            transmission_type: store.place(tpdo_key(k, 2)),
            inhibit_time: store.place(tpdo_key(k, 3)),
            event_timer: store.place(tpdo_key(k, 5)),
            start_value: store.place(tpdo_key(k, 6)),
            mapped: store.place(Key {
                index: IndexRange::TPDO_MAPPING.nth(k.get()),
                sub: 0,
            }),
            counter_overflow: store.place(keys::SYNC_COUNTER_OVERFLOW),
        }
    }

    /// The COB-ID word.
    pub(crate) fn cob_id<S: ObjectStore>(&self, store: &S) -> CobId
        ensures { (k : ℕ) → k < 512 → self.now ≡ places_of (S.description store.now) k →
            result.0 ≡ cob_id_of Side.Tpdo (S.contents store.now) k }
    {
        CobId(number_u32(store, self.cob_id))
    }

    /// How many objects are mapped.
    fn mapped<S: ObjectStore>(&self, store: &S) -> u8
        ensures { (k : ℕ) → k < 512 → self.now ≡ places_of (S.description store.now) k →
            result ≡ count_of Side.Tpdo (S.contents store.now) k }
    {
        number_u8(store, self.mapped)
    }

    /// The transmission type.
    fn transmission_type<S: ObjectStore>(&self, store: &S) -> TransmissionType
        ensures { (k : ℕ) → k < 512 → self.now ≡ places_of (S.description store.now) k →
            result.0 ≡ number_at (S.contents store.now) (tpdo_key k 2) }
    {
        TransmissionType(number_u8(store, self.transmission_type))
    }

    /// Whether the TPDO of these places is active. One that is not valid costs one read.
    pub(crate) fn is_active<S: ObjectStore>(&self, store: &S) -> bool
        ensures { (k : ℕ) → k < 512 → self.now ≡ places_of (S.description store.now) k →
            result ≡ is_active (S.contents store.now) k }
    {
        if !self.cob_id(store).is_valid() {
            return false;
        }
        if self.mapped(store) == 0 {
            return false;
        }
        self.transmission_type(store).is_supported()
    }

    /// The settings of the TPDO of these places.
    pub(crate) fn settings<S: ObjectStore>(&self, store: &S) -> Settings
        ensures { (k : ℕ) → k < 512 → self.now ≡ places_of (S.description store.now) k →
            result ≡ settings_of (S.contents store.now) k }
    {
        Settings {
            is_active: self.is_active(store),
            transmission_type: self.transmission_type(store),
            inhibit_time: number_u16(store, self.inhibit_time),
            event_timer: number_u16(store, self.event_timer),
            start_value: number_u8(store, self.start_value),
        }
    }

    /// The SYNC start value of the TPDO of these places.
    pub(crate) fn start_value<S: ObjectStore>(&self, store: &S) -> u8
        ensures { (k : ℕ) → k < 512 → self.now ≡ places_of (S.description store.now) k →
            result ≡ number_at (S.contents store.now) (tpdo_key k 6) }
    {
        number_u8(store, self.start_value)
    }

    /// The synchronous counter overflow value; 0 if no counter is used (CiA 301, 7.5.2.22).
    pub(crate) fn counter_overflow<S: ObjectStore>(&self, store: &S) -> u8
        ensures { (k : ℕ) → self.now ≡ places_of (S.description store.now) k →
            result ≡ number_at (S.contents store.now) counter_overflow_key }
    {
        number_u8(store, self.counter_overflow)
    }
}
