//! What is known of the device before a frame, and what the frame is to it.

ghost use Rattle.std.specs.Prelude.{◌≡◌, true, map};
ghost use Rattle.std.specs.List.{AllPairs};
ghost use Rattle.co_sheet.specs.SheetViews.{row_view};
ghost use Rattle.co_value.specs.Keys.{is_key_before};
ghost use Rattle.conode_compare_report.specs.Befores.{
  before_at,
  role_at,
  role_of,
  rpdo_id,
  rpdo_role,
  rpdos_of,
};

use co_sheet::EntryRow;
use co_value::Key;
use conode_compare_nmt::{Entries, NmtState};
use conode_compare_pdos::{Parameters, Pdos, identifier_of, is_id, preset_at};
use conode_compare_rules::{FrameKind, Progress};

/// What a data frame is that is neither NMT, EMCY, SDO nor error control.
#[derive(Clone, Copy)]
pub enum Role {
    Sync,
    Time,
    /// A TPDO by its number, from 1 on, and what is known of its parameters.
    Tpdo(u8, Parameters),
    /// An RPDO by its number, from 1 on.
    Rpdo(u8),
    Other,
}

/// What is known of the device before a frame.
#[derive(Clone, Copy)]
pub struct Before {
    /// Its NMT state.
    pub state: NmtState,
    /// The entries in force.
    pub entries: Entries,
    /// Whether modules decide which entries it has (1027h).
    pub modular: bool,
    /// What the frame is.
    pub role: Role,
}

/// The identifiers of the device's first four RPDOs, by its data sheet (CiA 301, 7.5.2.35).
#[derive(Clone, Copy)]
pub struct Rpdos {
    pub first: Option<u16>,
    pub second: Option<u16>,
    pub third: Option<u16>,
    pub fourth: Option<u16>,
}

/// The identifier of TIME (CiA 301, 7.3.3).
const TIME_ID: u16 = 0x100;

fn rpdo_id(rows: &[EntryRow<'_>], node: u8, number: u8) -> Option<u16>
    requires { AllPairs (λ e f. is_key_before e.key f.key ≡ true) rows.now }
    ensures { result ≡ rpdo_id (map row_view rows.now) node number }
{
    let key = Key {
        index: 0x1400 + number as u16,
        sub: 1,
    };
    match preset_at(rows, node, key) {
        Some(number) => identifier_of(number),
        None => None,
    }
}

impl Rpdos {
    /// Those of a data sheet, whose entries are in increasing key.
    #[tactic(auto, unfolding(crate::specs::Befores::rpdos_of))]
    pub(crate) fn of(rows: &[EntryRow<'_>], node: u8) -> Rpdos
        requires { AllPairs (λ e f. is_key_before e.key f.key ≡ true) rows.now }
        ensures { result ≡ rpdos_of (map row_view rows.now) node }
    {
        Rpdos {
            first: rpdo_id(rows, node, 0),
            second: rpdo_id(rows, node, 1),
            third: rpdo_id(rows, node, 2),
            fourth: rpdo_id(rows, node, 3),
        }
    }

    fn role(&self, id: u16) -> Role
        ensures { result ≡ rpdo_role self.now id }
    {
        if is_id(self.first, id) {
            Role::Rpdo(1)
        } else if is_id(self.second, id) {
            Role::Rpdo(2)
        } else if is_id(self.third, id) {
            Role::Rpdo(3)
        } else if is_id(self.fourth, id) {
            Role::Rpdo(4)
        } else if id == TIME_ID {
            Role::Time
        } else {
            Role::Other
        }
    }
}

// what a data frame with this identifier is
#[tactic(auto, unfolding(crate::specs::Befores::role_of))]
fn role_of(pdos: &Pdos, rpdos: &Rpdos, id: u16) -> Role
    ensures { result ≡ role_of pdos.now rpdos.now id }
{
    if is_id(pdos.sync, id) {
        Role::Sync
    } else if is_id(pdos.first.parameters.id, id) {
        Role::Tpdo(1, pdos.first.parameters)
    } else if is_id(pdos.second.parameters.id, id) {
        Role::Tpdo(2, pdos.second.parameters)
    } else if is_id(pdos.third.parameters.id, id) {
        Role::Tpdo(3, pdos.third.parameters)
    } else if is_id(pdos.fourth.parameters.id, id) {
        Role::Tpdo(4, pdos.fourth.parameters)
    } else {
        rpdos.role(id)
    }
}

fn role_at(pdos: &Pdos, rpdos: &Rpdos, kind: &FrameKind) -> Role
    ensures { result ≡ role_at pdos.now rpdos.now kind.now }
{
    match kind {
        FrameKind::Process(id, _) => role_of(pdos, rpdos, *id),
        _ => Role::Other,
    }
}

impl Before {
    /// What is known before a frame of this kind comes.
    #[tactic(auto, unfolding(crate::specs::Befores::before_at))]
    pub(crate) fn at(rpdos: &Rpdos, modular: bool, progress: &Progress, kind: &FrameKind) -> Before
        ensures { result ≡ before_at rpdos.now modular progress.now kind.now }
    {
        Before {
            state: progress.state(),
            entries: progress.entries(),
            modular,
            role: role_at(progress.pdos(), rpdos, kind),
        }
    }
}
