//! The first four RPDOs of a device, followed through a recording.

ghost use Rattle.std.specs.Prelude.{◌≡◌, is_some, true, map};
ghost use Rattle.std.specs.List.{AllPairs, list_any};
ghost use Rattle.co_sheet.specs.SheetViews.{row_view};
ghost use Rattle.co_sheet_changes.specs.Names.{row_at};
ghost use Rattle.co_value.specs.Keys.{is_key_before};
ghost use Rattle.conode_compare_pdos.specs.PdoParameters.{key_of};
ghost use Rattle.conode_compare_pdos.specs.Rpdos.{
  all_at_once,
  another_maps,
  any_receives,
  has_few_rpdos,
  is_further,
  receiver,
  rpdos_of,
  rpdos_requested,
  rpdos_transferred,
  unknown_rpdos,
};

use crate::parameters::key_of;
use crate::rpdo::Rpdo;
use co_profile::PDO_COB_ID;
use co_sheet::EntryRow;
use co_sheet_changes::row_at;
use co_value::Key;
use conode_explain_transfers::Ended;

/// What a recording shows of the first four RPDOs of a device.
#[derive(Clone, Copy)]
pub struct Rpdos {
    /// By 1400h and 1600h.
    pub first: Rpdo,
    /// By 1401h and 1601h.
    pub second: Rpdo,
    /// By 1402h and 1602h.
    pub third: Rpdo,
    /// By 1403h and 1603h.
    pub fourth: Rpdo,
}

// 1404:01 to 15FF:01, the COB-IDs of the fifth RPDO and of further ones
fn is_further(row: &EntryRow<'_>) -> bool
    ensures { result ≡ is_further (row_view row.now) }
{
    0x1404 <= row.key.index && row.key.index < 0x1600 && row.key.sub == PDO_COB_ID
}

// whether a data sheet has the fifth RPDO or further ones
fn has_further(rows: &[EntryRow<'_>]) -> bool
    ensures { result ≡ list_any is_further (map row_view rows.now) }
{
    for row in rows {
        if is_further(row) {
            return true;
        }
    }
    false
}

fn has_rpdo(rows: &[EntryRow<'_>], index: u16) -> bool
    requires { AllPairs (λ e f. is_key_before e.key f.key ≡ true) rows.now }
    ensures { result ≡ is_some (row_at (map row_view rows.now) (key_of index 1)) }
{
    row_at(rows, key_of(index, PDO_COB_ID)).is_some()
}

/// Whether a data sheet, whose entries are in increasing key, has RPDOs, and none but the first four.
#[tactic(auto, unfolding(crate::specs::Rpdos::has_few_rpdos))]
pub fn has_few_rpdos(rows: &[EntryRow<'_>]) -> bool
    requires { AllPairs (λ e f. is_key_before e.key f.key ≡ true) rows.now }
    ensures { result ≡ has_few_rpdos (map row_view rows.now) }
{
    (has_rpdo(rows, 0x1400)
        || has_rpdo(rows, 0x1401)
        || has_rpdo(rows, 0x1402)
        || has_rpdo(rows, 0x1403))
        && !has_further(rows)
}

impl Rpdos {
    /// Nothing is known.
    pub fn unknown() -> Rpdos
        ensures { result ≡ unknown_rpdos }
    {
        Rpdos {
            first: Rpdo::unknown(),
            second: Rpdo::unknown(),
            third: Rpdo::unknown(),
            fourth: Rpdo::unknown(),
        }
    }

    /// What a data sheet, whose entries are in increasing key, has of the RPDOs of the device with a
    /// node-ID; `certain`: its values are in force.
    pub fn of(rows: &[EntryRow<'_>], node: u8, certain: bool) -> Rpdos
        requires { AllPairs (λ e f. is_key_before e.key f.key ≡ true) rows.now }
        ensures { result ≡ rpdos_of (map row_view rows.now) node certain }
    {
        Rpdos {
            first: Rpdo::of(rows, node, certain, 0),
            second: Rpdo::of(rows, node, certain, 1),
            third: Rpdo::of(rows, node, certain, 2),
            fourth: Rpdo::of(rows, node, certain, 3),
        }
    }

    /// A download to an entry is requested.
    pub fn request(&mut self, key: Key, micros: u64)
        ensures { self.new ≡ rpdos_requested self.old key micros }
    {
        self.first.request(0, key, micros);
        self.second.request(1, key, micros);
        self.third.request(2, key, micros);
        self.fourth.request(3, key, micros);
    }

    /// A transfer ended.
    pub fn transfer(&mut self, ended: &Ended, micros: u64)
        ensures { self.new ≡ rpdos_transferred self.old ended.now micros }
    {
        self.first.transfer(0, ended, micros);
        self.second.transfer(1, ended, micros);
        self.third.transfer(2, ended, micros);
        self.fourth.transfer(3, ended, micros);
    }

    /// Whether one of them may be received with this identifier.
    pub fn any_receives(&self, id: u16) -> bool
        ensures { result ≡ any_receives id self.now }
    {
        self.first.may_receive(id)
            || self.second.may_receive(id)
            || self.third.may_receive(id)
            || self.fourth.may_receive(id)
    }

    /// Whether another one than those that may be received with an identifier may map an entry.
    pub fn another_maps(&self, id: u16, key: Key) -> bool
        ensures { result ≡ another_maps id key self.now }
    {
        self.first.maps_apart(id, key)
            || self.second.maps_apart(id, key)
            || self.third.maps_apart(id, key)
            || self.fourth.maps_apart(id, key)
    }

    /// Whether what those receive takes effect at once that may be received with this identifier.
    pub fn all_at_once(&self, id: u16) -> bool
        ensures { result ≡ all_at_once id self.now }
    {
        self.first.takes_at_once(id)
            && self.second.takes_at_once(id)
            && self.third.takes_at_once(id)
            && self.fourth.takes_at_once(id)
    }

    /// The one that may be received with this identifier, where no other may be.
    pub fn receiver(&self, id: u16) -> Option<Rpdo>
        ensures { result ≡ receiver id self.now }
    {
        let first = self.first.may_receive(id);
        let second = self.second.may_receive(id);
        let third = self.third.may_receive(id);
        let fourth = self.fourth.may_receive(id);
        match (first, second, third, fourth) {
            (true, false, false, false) => Some(self.first),
            (false, true, false, false) => Some(self.second),
            (false, false, true, false) => Some(self.third),
            (false, false, false, true) => Some(self.fourth),
            _ => None,
        }
    }
}
