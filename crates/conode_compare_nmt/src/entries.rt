//! The entries that say what a device sends by itself: what its data sheet has, and what is in
//! force.

ghost use Rattle.std.specs.Prelude.{◌≡◌, ◌<◌, ◌≤◌, ◌^◌, true, map, IfSome};
ghost use Rattle.std.specs.List.{AllPairs};
ghost use Rattle.co_sheet.specs.SheetViews.{row_view};
ghost use Rattle.co_value.specs.Keys.{is_key_before};
ghost use Rattle.conode_compare_nmt.specs.EntriesInForce.{
  asked_by,
  asked_to_write,
  done_word,
  ended_entries,
  facts_of,
  has_object,
  initial_entries,
  inhibit_of,
  is_constant,
  overwritten,
  reset_entries,
  sheet_entries,
  shares_id,
  shown_inhibit,
  shown_period,
  with_master,
  with_sharing,
};

use crate::clients::{OtherClients, has_hidden_channel, is_channel};
use co_frame::Frame;
use co_profile::keys::{EMERGENCY_COB_ID, EMERGENCY_INHIBIT_TIME, PRODUCER_HEARTBEAT};
use co_profile::{Access, MODULE_LIST, NMT_STARTUP, STORE_PARAMETERS};
use co_sheet::EntryRow;
use co_sheet_changes::row_at;
use co_value::Key;
use conode_compare_pdos::{
    Pdos, first_word, may_change, may_get, may_have, number_of, pdos_of, preset_at, small,
};
use conode_compare_transfers::{asks_to_write, key_in, word_written};
use conode_explain_transfers::{Ended, Ending, Protocol, Side};

/// What is known of the entries that say what a device sends by itself.
#[derive(Clone, Copy)]
pub struct Entries {
    /// 1017:00, the period of its heartbeats in ms; 0: none.
    pub period: Option<u16>,
    /// Whether its EMCY have the default identifier, 80h + node-ID (1014:00), and no TPDO may have
    /// it.
    pub emergencies: bool,
    /// 1015:00, the inhibit time of EMCY in 100 µs.
    pub inhibit: Option<u16>,
    /// The stamp at which a transfer showed 1015:00 last.
    pub inhibit_shown: Option<u64>,
}

/// What a data sheet says of what a device sends by itself.
#[derive(Clone, Copy)]
pub struct Facts {
    /// What is known before its first boot-up in the recording: entries that never change.
    pub before: Entries,
    /// What is known after each boot-up; nothing more where it can store parameters (1010h), of a
    /// configuration (DCF), which a master may have written or not, and of a device with another SDO
    /// channel, whose client may write them, where that client's frames can't be told.
    pub booted: Entries,
    /// What is known of its TPDOs after each boot-up; nothing in the same cases.
    pub pdos: Pdos,
    /// The clients of its other SDO channels: once one sends, what it may have written is unknown.
    pub clients: OtherClients,
    /// Whether it may enter operational by itself, and may be the NMT master, which needn't follow
    /// its own commands: it has the entry NMT startup, 1F80h (CiA 302-2), or the sheet names it as the
    /// boot-up master.
    pub starts_itself: bool,
    /// Whether modules decide which entries it has: it has the module list, 1027h.
    pub modular: bool,
    /// Whether it can store parameters (1010h), and the sheet has the values of all devices of its
    /// kind: it is no configuration.
    pub stores: bool,
    /// Whether its entries have the sheet's values after each boot-up: it can't store others, and
    /// the sheet is no configuration.
    pub as_sheet: bool,
}

fn has_object(rows: &[EntryRow<'_>], index: u16) -> bool
    requires { AllPairs (λ e f. is_key_before e.key f.key ≡ true) rows.now }
    ensures { result ≡ has_object (map row_view rows.now) index }
{
    row_at(rows, Key { index, sub: 0 }).is_some()
}

fn is_constant(rows: &[EntryRow<'_>], key: Key) -> bool
    requires { AllPairs (λ e f. is_key_before e.key f.key ≡ true) rows.now }
    ensures { result ≡ is_constant (map row_view rows.now) key }
{
    match row_at(rows, key) {
        Some(row) => matches!(row.access, Access::Constant),
        None => true,
    }
}

// the inhibit time of EMCY; none where there is no such entry
fn inhibit_of(rows: &[EntryRow<'_>], node: u8) -> Option<u16>
    requires { AllPairs (λ e f. is_key_before e.key f.key ≡ true) rows.now }
    ensures { result ≡ inhibit_of (map row_view rows.now) node }
{
    match row_at(rows, EMERGENCY_INHIBIT_TIME) {
        Some(row) => small(number_of(node, row.default)),
        None => Some(0),
    }
}

// what a data sheet has, where nothing was stored
#[tactic(auto, unfolding(crate::specs::EntriesInForce::sheet_entries))]
fn sheet_entries(rows: &[EntryRow<'_>], node: u8) -> Entries
    requires { AllPairs (λ e f. is_key_before e.key f.key ≡ true) rows.now }
    ensures { result ≡ sheet_entries (map row_view rows.now) node }
{
    let id = 0x80 + node as u16;
    let has_default = preset_at(rows, node, EMERGENCY_COB_ID) == Some(id as u64);
    Entries {
        period: small(preset_at(rows, node, PRODUCER_HEARTBEAT)),
        emergencies: has_default && !may_have(rows, node, id),
        inhibit: inhibit_of(rows, node),
        inhibit_shown: None,
    }
}

// what of it never changes
#[tactic(auto, unfolding(crate::specs::EntriesInForce::initial_entries))]
fn initial_entries(rows: &[EntryRow<'_>], sheet: Entries) -> Entries
    requires { AllPairs (λ e f. is_key_before e.key f.key ≡ true) rows.now }
    ensures { result ≡ initial_entries (map row_view rows.now) sheet }
{
    let period = is_constant(rows, PRODUCER_HEARTBEAT);
    let inhibit = is_constant(rows, EMERGENCY_INHIBIT_TIME);
    Entries {
        period: if period { sheet.period } else { None },
        emergencies: is_constant(rows, EMERGENCY_COB_ID) && !may_change(rows) && sheet.emergencies,
        inhibit: if inhibit { sheet.inhibit } else { None },
        inhibit_shown: None,
    }
}

/// What a data sheet, whose entries are in increasing key, says of what the device with a node-ID
/// sends by itself; and whether it is the configuration of one device (DCF), whose values a master
/// writes.
#[tactic(auto, unfolding(crate::specs::EntriesInForce::facts_of))]
pub fn facts_of(rows: &[EntryRow<'_>], node: u8, configured: bool) -> Facts
    requires { AllPairs (λ e f. is_key_before e.key f.key ≡ true) rows.now }
    ensures { result ≡ facts_of (map row_view rows.now) node configured }
{
    let sheet = sheet_entries(rows, node);
    let before = initial_entries(rows, sheet);
    let stores = has_object(rows, STORE_PARAMETERS);
    let is_written = stores || configured || has_hidden_channel(rows, node);
    Facts {
        before,
        booted: if is_written { before } else { sheet },
        pdos: if is_written {
            Pdos::unknown()
        } else {
            pdos_of(rows, node)
        },
        clients: OtherClients::of(rows, node),
        modular: has_object(rows, MODULE_LIST),
        starts_itself: has_object(rows, NMT_STARTUP),
        stores: stores && !configured,
        as_sheet: !stores && !configured,
    }
}

impl Facts {
    /// Those of a device whose sheet says whether it may be the boot-up master: then it may be the NMT
    /// master and start itself, as one with 1F80h.
    pub fn with_master(self, master: bool) -> Facts
        ensures { result ≡ with_master master self }
    {
        if !master {
            return self;
        }
        let mut facts = self;
        facts.starts_itself = true;
        facts.pdos = self.pdos.uncounted();
        facts
    }
}

impl Entries {
    /// A download to this entry is requested (CiA 301, 7.2.4.3.3): what it has is unknown until that
    /// is answered, and what all have, where it is a parameter of another SDO channel.
    #[tactic(auto, unfolding(crate::specs::EntriesInForce::asked_to_write))]
    pub fn asked_to_write(self, key: Key) -> Entries
        ensures { result ≡ asked_to_write self key }
    {
        let all = is_channel(key);
        Entries {
            period: if key == PRODUCER_HEARTBEAT || all {
                None
            } else {
                self.period
            },
            emergencies: !(key == EMERGENCY_COB_ID || all) && self.emergencies,
            inhibit: if key == EMERGENCY_INHIBIT_TIME || all {
                None
            } else {
                self.inhibit
            },
            inhibit_shown: self.inhibit_shown,
        }
    }

    /// What a client's frame on the default SDO channel asks to write, whatever it is in the transfers
    /// of the channel: a server may have given up the block download that was open, and then the frame
    /// isn't the segment that it seems to be.
    pub fn asked_by(self, side: Side, frame: &Frame) -> Entries
        ensures { result ≡ asked_by side frame.now self }
    {
        match side {
            Side::Client if asks_to_write(frame) => self.asked_to_write(key_in(frame)),
            _ => self,
        }
    }

    /// After a request by which a TPDO may get the identifier of EMCY, if `shares`: which of them
    /// sends a frame with it is unknown then.
    pub fn with_sharing(self, shares: bool) -> Entries
        ensures { result ≡ with_sharing shares self }
    {
        Entries {
            period: self.period,
            emergencies: !shares && self.emergencies,
            inhibit: self.inhibit,
            inhibit_shown: self.inhibit_shown,
        }
    }

    /// The client of another SDO channel may have written each of them.
    #[tactic(auto, unfolding(crate::specs::EntriesInForce::overwritten))]
    pub fn overwritten(self) -> Entries
        ensures { result ≡ overwritten self }
    {
        Entries {
            period: None,
            emergencies: false,
            inhibit: None,
            inhibit_shown: self.inhibit_shown,
        }
    }

    /// A reset is commanded (CiA 301, 7.2.8.3.1): the inhibit time isn't known until the boot-up.
    pub fn after_reset(self) -> Entries
        ensures { result ≡ reset_entries self }
    {
        Entries {
            period: self.period,
            emergencies: self.emergencies,
            inhibit: None,
            inhibit_shown: self.inhibit_shown,
        }
    }

    /// A transfer ended: one of 1017:00 or 1015:00 shows what it has, if it was expedited and is
    /// done.
    pub fn ended(self, ended: &Ended) -> Entries
        ensures { result ≡ ended_entries self ended.now }
    {
        let mut entries = self;
        if let Some(period) = shown_period(ended) {
            entries.period = Some(period);
        }
        if let Some(inhibit) = shown_inhibit(ended) {
            if entries.inhibit != Some(inhibit) {
                entries.inhibit_shown = Some(ended.end);
            }
            entries.inhibit = Some(inhibit);
        }
        entries
    }
}

/// Whether a client asks to write what may give a TPDO of the device with a node-ID the identifier of
/// its EMCY (CiA 301, 7.5.2.17 and 7.5.2.37), whatever its frame is in the transfers of the default
/// SDO channel: a server may have given up the one that was open.
pub fn shares_id(node: u8, side: Side, frame: &Frame) -> bool
    ensures { result ≡ shares_id node side frame.now }
{
    match side {
        Side::Client if asks_to_write(frame) => {
            may_get(0x80 + node as u16, key_in(frame), word_written(frame))
        }
        _ => false,
    }
}

// the word that an expedited transfer shows which is done
fn done_word(ended: &Ended) -> Option<u16>
    ensures { result ≡ done_word ended.now.protocol ended.now.ending ended.now.first.items }
{
    match (ended.protocol, ended.ending) {
        (Protocol::Expedited, Ending::Done { crc: _ }) => first_word(ended.first.as_slice()),
        _ => None,
    }
}

// what a transfer that ended shows of 1015:00
#[tactic(auto, unfolding(crate::specs::EntriesInForce::shown_inhibit))]
fn shown_inhibit(ended: &Ended) -> Option<u16>
    ensures { result ≡ shown_inhibit ended.now }
{
    if ended.key == EMERGENCY_INHIBIT_TIME {
        done_word(ended)
    } else {
        None
    }
}

/// What a transfer that ended shows of 1017:00.
#[tactic(auto, unfolding(crate::specs::EntriesInForce::shown_period))]
pub(crate) fn shown_period(ended: &Ended) -> Option<u16>
    ensures { result ≡ shown_period ended.now }
{
    if ended.key == PRODUCER_HEARTBEAT {
        done_word(ended)
    } else {
        None
    }
}
