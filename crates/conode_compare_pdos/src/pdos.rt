//! The first four TPDOs of a device, followed through a recording.

ghost use Rattle.std.specs.Prelude.{◌≡◌, true, map};
ghost use Rattle.std.specs.List.{AllPairs};
ghost use Rattle.co_sheet.specs.SheetViews.{row_view};
ghost use Rattle.co_value.specs.Keys.{is_key_before};
ghost use Rattle.conode_compare_pdos.specs.Followed.{
  commanded,
  cycle_of,
  first_seen,
  framed,
  has_id,
  interrupted,
  is_shared,
  pdos_of,
  polled,
  requested,
  seen,
  sighting,
  synced,
  transferred,
  uncounted,
  unjudged,
  unknown_pdos,
};

use crate::cycle::Cycle;
use crate::deviation::{Deviation, Moment, deviation_at, is_judged};
use crate::numbers::preset_at;
use crate::parameters::{Parameters, identifier_of, key_of};
use crate::tpdo::{Tpdo, is_id};
use co_profile::NMT_STARTUP;
use co_profile::keys::SYNC_COB_ID;
use co_sheet::EntryRow;
use co_sheet_changes::row_at;
use co_value::Key;
use conode_explain_transfers::Ended;

/// What a recording shows of the first four TPDOs of a device.
#[derive(Clone, Copy)]
pub struct Pdos {
    /// The identifier of SYNC (1005:00), where it is known.
    pub sync: Option<u16>,
    /// By 1800h and 1A00h.
    pub first: Tpdo,
    /// By 1801h and 1A01h.
    pub second: Tpdo,
    /// By 1802h and 1A02h.
    pub third: Tpdo,
    /// By 1803h and 1A03h.
    pub fourth: Tpdo,
}

/// What is said of a frame of a TPDO.
#[derive(Clone, Copy)]
pub struct Sighting {
    /// Which one it is, from 1 on.
    pub number: u8,
    /// Its difference, if it has one.
    pub deviation: Option<Deviation>,
    /// Whether the frame is judged.
    pub judged: bool,
}

// the count of SYNCs, unless the device may become operational by itself (1F80h, CiA 302-2)
fn cycle_of(rows: &[EntryRow<'_>]) -> Option<Cycle>
    requires { AllPairs (λ e f. is_key_before e.key f.key ≡ true) rows.now }
    ensures { result ≡ cycle_of (map row_view rows.now) }
{
    if row_at(rows, key_of(NMT_STARTUP, 0)).is_some() {
        None
    } else {
        Some(Cycle::new())
    }
}

/// What a data sheet, whose entries are in increasing key, has of the TPDOs of the device with a
/// node-ID.
#[tactic(auto, unfolding(crate::specs::Followed::pdos_of))]
pub fn pdos_of(rows: &[EntryRow<'_>], node: u8) -> Pdos
    requires { AllPairs (λ e f. is_key_before e.key f.key ≡ true) rows.now }
    ensures { result ≡ pdos_of (map row_view rows.now) node }
{
    let cycle = cycle_of(rows);
    Pdos {
        sync: match preset_at(rows, node, SYNC_COB_ID) {
            Some(number) => identifier_of(number),
            None => None,
        },
        first: Tpdo::booted(cycle, Parameters::of(rows, node, 0)),
        second: Tpdo::booted(cycle, Parameters::of(rows, node, 1)),
        third: Tpdo::booted(cycle, Parameters::of(rows, node, 2)),
        fourth: Tpdo::booted(cycle, Parameters::of(rows, node, 3)),
    }
}

// what is said of a frame with this identifier and so many bytes, where it is of this TPDO
fn seen(
    moment: &Moment,
    has_sync: bool,
    number: u8,
    pdo: &Tpdo,
    id: u16,
    length: u8,
) -> Option<Sighting>
    ensures { result ≡ seen moment.now has_sync number pdo.now id length }
{
    if !is_id(pdo.parameters.id, id) {
        return None;
    }
    Some(Sighting {
        number,
        deviation: deviation_at(moment, has_sync, pdo, length),
        judged: is_judged(moment, pdo, length),
    })
}

// of a frame that may be of several TPDOs
fn unjudged(seen: Option<Sighting>) -> Option<Sighting>
    ensures { result ≡ unjudged seen }
{
    match seen {
        Some(sighting) => Some(Sighting {
            number: sighting.number,
            deviation: None,
            judged: false,
        }),
        None => None,
    }
}

impl Pdos {
    /// Nothing is known.
    pub fn unknown() -> Pdos
        ensures { result ≡ unknown_pdos }
    {
        Pdos {
            sync: None,
            first: Tpdo::unknown(),
            second: Tpdo::unknown(),
            third: Tpdo::unknown(),
            fourth: Tpdo::unknown(),
        }
    }

    /// With SYNCs that aren't counted, as of a device that may become operational by itself.
    pub fn uncounted(self) -> Pdos
        ensures { result ≡ uncounted self }
    {
        Pdos {
            sync: self.sync,
            first: self.first.uncounted(),
            second: self.second.uncounted(),
            third: self.third.uncounted(),
            fourth: self.fourth.uncounted(),
        }
    }

    /// An NMT command came, or a heartbeat shows another state than operational.
    pub fn command(&mut self)
        ensures { self.new ≡ commanded self.old }
    {
        self.first = self.first.after_command();
        self.second = self.second.after_command();
        self.third = self.third.after_command();
        self.fourth = self.fourth.after_command();
    }

    /// Frames may be missing in the recording.
    pub fn interrupt(&mut self)
        ensures { self.new ≡ interrupted self.old }
    {
        self.first = self.first.after_gap();
        self.second = self.second.after_gap();
        self.third = self.third.after_gap();
        self.fourth = self.fourth.after_gap();
    }

    /// A remote frame with this identifier came.
    pub fn poll(&mut self, id: u16)
        ensures { self.new ≡ polled self.old id }
    {
        self.first = self.first.after_poll(id);
        self.second = self.second.after_poll(id);
        self.third = self.third.after_poll(id);
        self.fourth = self.fourth.after_poll(id);
    }

    /// A download to an entry is requested.
    #[tactic(auto, unfolding(crate::specs::Followed::requested))]
    pub fn request(&mut self, key: Key, micros: u64)
        ensures { self.new ≡ requested self.old key micros }
    {
        self.first = self.first.after_request(0, key, micros);
        self.second = self.second.after_request(1, key, micros);
        self.third = self.third.after_request(2, key, micros);
        self.fourth = self.fourth.after_request(3, key, micros);
        if key == SYNC_COB_ID {
            self.sync = None;
        }
    }

    /// A transfer ended.
    #[tactic(auto, unfolding(crate::specs::Followed::transferred))]
    pub fn transfer(&mut self, ended: &Ended, micros: u64)
        ensures { self.new ≡ transferred self.old ended.now micros }
    {
        self.first = self.first.after_transfer(0, ended, micros);
        self.second = self.second.after_transfer(1, ended, micros);
        self.third = self.third.after_transfer(2, ended, micros);
        self.fourth = self.fourth.after_transfer(3, ended, micros);
    }

    // A SYNC with so many bytes came.
    fn take_sync(&mut self, length: u8)
        ensures { self.new ≡ synced self.old length }
    {
        self.first = self.first.after_sync(length);
        self.second = self.second.after_sync(length);
        self.third = self.third.after_sync(length);
        self.fourth = self.fourth.after_sync(length);
    }

    // whether one of them has this identifier: most frames are of other nodes
    #[inline(always)]
    fn has_id(&self, id: u16) -> bool
        ensures { result ≡ has_id self.now id }
    {
        is_id(self.first.parameters.id, id)
            || is_id(self.second.parameters.id, id)
            || is_id(self.third.parameters.id, id)
            || is_id(self.fourth.parameters.id, id)
    }

    /// A data frame with this identifier and so many bytes came: a SYNC, or one that may be of a
    /// TPDO.
    #[tactic(auto, unfolding(crate::specs::Followed::framed), using(crate::proofs::OtherFrames::kept))]
    pub fn frame(&mut self, moment: &Moment, id: u16, length: u8)
        ensures { self.new ≡ framed self.old moment.now id length }
    {
        if is_id(self.sync, id) {
            self.take_sync(length);
            return;
        }
        if !self.has_id(id) {
            return;
        }
        self.first = self.first.after_frame(moment, id, length);
        self.second = self.second.after_frame(moment, id, length);
        self.third = self.third.after_frame(moment, id, length);
        self.fourth = self.fourth.after_frame(moment, id, length);
    }

    // whether more than one of them has this identifier
    fn is_shared(&self, id: u16) -> bool
        ensures { result ≡ is_shared self.now id }
    {
        let first = is_id(self.first.parameters.id, id);
        let second = is_id(self.second.parameters.id, id);
        let third = is_id(self.third.parameters.id, id);
        let fourth = is_id(self.fourth.parameters.id, id);
        first && (second || third || fourth) || second && (third || fourth) || third && fourth
    }

    // what is said of a frame with this identifier by the first TPDO that has it
    fn first_seen(&self, moment: &Moment, id: u16, length: u8) -> Option<Sighting>
        ensures { result ≡ first_seen moment.now self.now id length }
    {
        let has_sync = self.sync.is_some();
        seen(moment, has_sync, 1, &self.first, id, length)
            .or(seen(moment, has_sync, 2, &self.second, id, length))
            .or(seen(moment, has_sync, 3, &self.third, id, length))
            .or(seen(moment, has_sync, 4, &self.fourth, id, length))
    }

    /// What is said of a data frame with this identifier and so many bytes, where it is of one of
    /// the TPDOs. Where more than one has the identifier, it isn't judged.
    #[tactic(auto, unfolding(crate::specs::Followed::sighting), using(crate::proofs::OtherFrames::not_seen))]
    pub fn sighting(&self, moment: &Moment, id: u16, length: u8) -> Option<Sighting>
        ensures { result ≡ sighting moment.now self.now id length }
    {
        if !self.has_id(id) {
            return None;
        }
        let seen = self.first_seen(moment, id, length);
        if self.is_shared(id) {
            unjudged(seen)
        } else {
            seen
        }
    }
}
