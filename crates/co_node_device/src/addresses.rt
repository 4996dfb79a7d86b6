//! The addressee of a frame (CiA 301, 7.3.5), by a table: a frame costs no search in the
//! dictionary.

ghost use Rattle.std.specs.Prelude.{◌≡◌, ℕ, ◌<◌, Option, None, false, length, IfOk};
ghost use Rattle.co_dict.specs.Rows.{Contents};
ghost use Rattle.co_node_model.specs.Rpdos.{rpdo_with, is_rpdo_with};
ghost use Rattle.co_node_model.specs.Addresses.{
  AgreeOnAddresses,
  AgreeOnRpdos,
  may_change_addresses,
  address_of,
  address_unless_rpdo,
  address_at,
};
ghost use Rattle.co_node_device.specs.AddressTables.{IsTableOf, TableContent, AreRpdosOf, IsRpdoTable, number_if};
ghost use Rattle.std.specs.List.{slice_index_or};
ghost use Rattle.std.specs.Option.{option_or};
ghost use Rattle.co_node_model.specs.Sync.{is_sync_id};
ghost use Rattle.co_dict.specs.Stores.{Description};
ghost use Rattle.co_sdo.specs.Banks.{BankStands};
ghost use Rattle.co_node_model.specs.Moments.{Constants, History, channels, contents_at};
ghost use Rattle.co_node_model.specs.Sdo.{channel_logs};

use crate::maybe_rpdo::MaybeRpdo;
use co_dict::{CobId, ObjectStore, Side, number_u32};
use co_frame::Frame;
use co_node_model::{Address, Mark, may_change_addresses};
use co_pdo::{PdoNumber, cob_id, is_active};
use co_profile::keys;
use co_sdo::Bank;
use std::alloc::{AllocError, Global};
use std::boxed::BoxedSlice;
use std::marker::Model;

/// The first active RPDO with an identifier depends on the parameters of RPDOs alone, 1400h to
/// 17FFh, and the identifier of SYNC on 1005h. So a table stays valid until one of these entries is
/// written.
fn addresses_by_entries()
    ensures rpdos { (contents others : Contents) (id : ℕ) → AgreeOnRpdos contents others →
        rpdo_with contents id ≡ rpdo_with others id }
    ensures tables { (contents others : Contents) (table : TableContent) →
        AgreeOnAddresses contents others → IsTableOf contents table → IsTableOf others table }
{}

/// The number of identifiers, 0 to 7FFh.
const IDENTIFIERS: usize = 2048;

/// Clears all places.
fn clear(numbers: &mut [MaybeRpdo])
    ensures { (id : ℕ) (d : Option ℕ) → id < length numbers.old →
        slice_index_or numbers.new id d ≡ None }
{
    for number in numbers.iter_mut() {
        *number = MaybeRpdo::none();
    }
}

/// Enters an RPDO at its identifier, if it is active and the place is free.
fn enter<S: ObjectStore>(numbers: &mut [MaybeRpdo], store: &S, number: PdoNumber)
    requires { length numbers.old ≡ 2048 }
    ensures { (id : ℕ) (d : Option ℕ) → id < 2048 →
        slice_index_or numbers.new id d ≡ option_or (slice_index_or numbers.old id d)
        (number_if (is_rpdo_with (S.contents store.now) id number) number) }
{
    if is_active(store, Side::Rpdo, number) {
        let id = usize::from(cob_id(store, Side::Rpdo, number).identifier());
        if numbers[id].get().is_none() {
            numbers[id] = MaybeRpdo::some(number);
        }
    }
}

/// Fills the places: at each identifier the first active RPDO with it.
#[cold]
#[inline(never)]
fn fill<S: ObjectStore>(numbers: &mut [MaybeRpdo], store: &S)
    requires { length numbers.old ≡ 2048 }
    ensures table { IsRpdoTable numbers.new }
    ensures numbers { AreRpdosOf (S.contents store.now) numbers.new }
{
    clear(numbers);
    for number in 0..512u16 {
        let k = PdoNumber::of(number);
        enter(numbers, store, k);
    }
}

/// The identifier of SYNC, and for each identifier the first active RPDO with it (CiA 301, 7.3.5).
/// It allocates no memory after `new`. Contracts see the word of 1005h, and the numbers of the
/// RPDOs by identifier.
#[derive(Drop)]
pub struct AddressTable {
    // the word of 1005h; 0 if there is none
    sync: u32,
    numbers: BoxedSlice<MaybeRpdo>,
}

impl Model for AddressTable {
    ghost use Rattle.std.specs.Box.{boxed_slice_items};
    ghost use Rattle.co_node_device.specs.AddressTables.{IsRpdoTable, TableContent};

    ghost Value = { TableContent };

    ghost view = { λ t. record { sync = t.sync; numbers = boxed_slice_items t.numbers } };

    ghost invariant = { λ t. IsRpdoTable (boxed_slice_items t.numbers) };
}

impl AddressTable {
    /// The table of a dictionary. `AllocError` if it can't be allocated.
    pub fn new<S: ObjectStore>(alloc: Global, store: &S) -> Result<AddressTable, AllocError>
        ensures { IfOk result (λ table. IsTableOf (S.contents store.now) table) }
    {
        let mut numbers = vec![in alloc; MaybeRpdo::none(); IDENTIFIERS]?;
        fill(&mut numbers, store);
        Ok(AddressTable {
            sync: number_u32(store, keys::SYNC_COB_ID),
            numbers: numbers.into_boxed_slice(),
        })
    }

    /// Updates the table after an input: it is filled again after a reset, and after a write of
    /// 1005h or of a parameter of an RPDO.
    #[inline(always)]
    pub fn note<S: ObjectStore>(&mut self, mark: &Mark, store: &S)
        ensures { (before : Contents) → IsTableOf before self.old →
            (may_change_addresses mark.now ≡ false → AgreeOnAddresses before
            (S.contents store.now)) →
            IsTableOf (S.contents store.now) self.new }
    {
        if may_change_addresses(mark) {
            self.sync = number_u32(store, keys::SYNC_COB_ID);
            fill(&mut self.numbers, store);
        } else {
            addresses_by_entries();
        }
    }

    /// Whether an identifier is that of SYNC.
    #[inline(always)]
    pub fn is_sync(&self, id: u16) -> bool
        ensures { (contents : Contents) → IsTableOf contents self.now →
            result ≡ is_sync_id contents id }
    {
        self.sync != 0 && CobId(self.sync).identifier() == id
    }

    /// The number of the first active RPDO with an identifier, 0 to 7FFh.
    #[inline(always)]
    pub fn rpdo_for(&self, id: u16) -> Option<PdoNumber>
        requires { id < 2048 }
        ensures { (contents : Contents) → IsTableOf contents self.now →
            result ≡ rpdo_with contents id }
    {
        self.numbers[usize::from(id)].get()
    }
}

/// The RPDO, or else error control or nobody, by the identifier.
#[inline(always)]
fn from_rpdos_on(rpdo: Option<PdoNumber>, id: u16) -> Address
    ensures { result ≡ address_unless_rpdo rpdo id }
{
    if let Some(number) = rpdo {
        return Address::Rpdo(number);
    }
    if id > 0x700 && id <= 0x77F {
        Address::ErrorControl((id - 0x700) as u8)
    } else {
        Address::Nobody
    }
}

/// The addressee of an identifier. `is_sync` is whether it is that of SYNC, `channel` the SDO
/// channel whose requests have it, and `rpdo` the first active RPDO with it.
#[inline(always)]
fn address_of(id: u16, is_sync: bool, channel: Option<u8>, rpdo: Option<PdoNumber>) -> Address
    ensures { (contents : Contents) → is_sync ≡ is_sync_id contents id →
        rpdo ≡ rpdo_with contents id → result ≡ address_of channel contents id }
{
    if id == 0 {
        return Address::Nmt;
    }
    if is_sync {
        return Address::Sync;
    }
    match channel {
        Some(number) => Address::Channel(number),
        None => from_rpdos_on(rpdo, id),
    }
}

/// The addressee of a frame, by the identifiers of the SDO channels and the table of SYNC and
/// RPDOs.
#[inline(always)]
pub(crate) fn find_address(bank: &Bank, addresses: &AddressTable, frame: &Frame) -> Address
    ensures { (k : Constants) (history : History) (d : Description) →
        BankStands d (channels k) bank.now (channel_logs history) →
        IsTableOf (contents_at k history) addresses.now →
        result ≡ address_at k history frame.now.id }
{
    let id = frame.id();
    let channel = bank.channel_for(id);
    address_of(id, addresses.is_sync(id), channel, addresses.rpdo_for(id))
}
