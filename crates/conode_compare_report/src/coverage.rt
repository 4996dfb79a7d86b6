//! What a recording shows of a device, whatever is judged.

ghost use Rattle.std.specs.Prelude.{◌≡◌, ◌<◌, true, map, length, OnOk, IfOk, IfSome, Some};
ghost use Rattle.std.specs.List.{AllPairs};
ghost use Rattle.std.specs.Option.{option_copied};
ghost use Rattle.co_sheet.specs.SheetViews.{row_view};
ghost use Rattle.co_value.specs.Keys.{is_key_before};
ghost use Rattle.conode_compare_report.specs.Coverages.{
  aborts_with,
  coverage_with,
  covered_with,
  entries_with,
  no_coverage,
  place_of,
  transfers_with,
  type_with,
  types_with,
};
ghost use Rattle.conode_compare_report.specs.Occasions.{ended_in};

use crate::before::Role;
use crate::counts::count_number;
use crate::identity::Identity;
use crate::lanes::States;
use crate::service::{Served, count_service, no_services, service_of};
use co_sheet::EntryRow;
use co_value::Key;
use conode_compare_nmt::NmtState;
use conode_compare_rules::FrameKind;
use conode_explain_transfers::{Direction, Ended, Ending, Heard, Side};
use std::alloc::{AllocError, Global};
use std::marker::Model;

/// Which SDO transfers of an entry the recording has.
#[derive(Clone, Copy)]
pub struct Covered {
    /// An upload was confirmed.
    pub read: bool,
    /// A download was confirmed.
    pub written: bool,
    /// The device aborted a transfer.
    pub refused: bool,
}

/// How often a number came: an abort code, or the transmission type of a TPDO that is sent.
#[derive(Clone, Copy)]
pub struct Numbered {
    pub number: u32,
    /// At most 2^64 - 1.
    pub count: u64,
}

/// What a recording shows of a device.
#[derive(Drop)]
pub struct Coverage {
    /// By row of the data sheet.
    pub entries: Vec<Covered>,
    /// Each service, in the order of `Service`.
    pub services: Vec<Served>,
    /// The NMT states that it is known to have been in.
    pub states: States,
    /// The transmission types of its first four TPDOs that were sent, with the number of their
    /// frames, in the order in which they came first.
    pub types: Vec<Numbered>,
    /// The abort codes of its transfers, in the order in which they came first: at most 64.
    pub aborts: Vec<Numbered>,
    /// What it showed of its identity.
    pub identity: Identity,
}

impl Model for Coverage {
    ghost use Rattle.conode_compare_report.specs.Coverages.{CoverageView};

    ghost Value = { CoverageView };

    ghost view = { λ coverage. record {
      entries = coverage.entries.items;
      services = coverage.services.items;
      states = coverage.states;
      types = coverage.types.items;
      aborts = coverage.aborts.items;
      identity = coverage.identity;
    } };
}

/// How many abort codes are kept apart.
const MOST_ABORTS: usize = 64;

/// How many transmission types there are.
const MOST_TYPES: usize = 256;

impl Covered {
    // a transfer ended
    fn note(&mut self, direction: Direction, ending: Ending)
        ensures { self.new ≡ covered_with direction ending self.old }
    {
        match ending {
            Ending::Done { crc: _ } => match direction {
                Direction::Upload => self.read = true,
                Direction::Download => self.written = true,
            },
            Ending::Aborted {
                by: Side::Server,
                code: _,
            } => self.refused = true,
            _ => {}
        }
    }
}

// the place of an entry
fn place_of(rows: &[EntryRow<'_>], key: Key) -> Option<usize>
    requires { AllPairs (λ e f. is_key_before e.key f.key ≡ true) rows.now }
    ensures { result ≡ place_of (map row_view rows.now) key }
{
    match rows.binary_search_by_key(&key, |row| row.key) {
        Ok(place) => Some(place),
        Err(_) => None,
    }
}

// a transfer of an entry ended
fn note_entry(entries: &mut [Covered], rows: &[EntryRow<'_>], ended: &Ended)
    requires { AllPairs (λ e f. is_key_before e.key f.key ≡ true) rows.now }
    ensures { entries.new ≡ entries_with (map row_view rows.now) ended.now entries.old }
{
    if let Some(place) = place_of(rows, ended.key) {
        if place < entries.len() {
            entries[place].note(ended.direction, ended.ending);
        }
    }
}

// counts the code of an abort
fn count_abort(aborts: &mut Vec<Numbered>, ending: Ending) -> Result<(), AllocError>
    ensures { OnOk result (aborts.new.items ≡ aborts_with ending aborts.old.items) }
{
    match ending {
        Ending::Aborted { by: _, code } => count_number(aborts, MOST_ABORTS, code.0),
        _ => Ok(()),
    }
}

// counts the transmission type of a TPDO, where it is known
fn count_type(types: &mut Vec<Numbered>, role: Role) -> Result<(), AllocError>
    ensures { OnOk result (types.new.items ≡ types_with role types.old.items) }
{
    if let Role::Tpdo(_, parameters) = role {
        if let Some(kind) = parameters.kind {
            return count_number(types, MOST_TYPES, kind as u32);
        }
    }
    Ok(())
}

/// The transfer that ended with a frame.
pub(crate) fn ended_in(heard: &Option<Heard>) -> Option<&Ended>
    ensures { option_copied result ≡ ended_in heard.now }
{
    match heard {
        Some(heard) => match &heard.ended {
            Some(ended) => Some(ended),
            None => None,
        },
        None => None,
    }
}

impl Coverage {
    /// Of no frame; the data sheet has so many entries.
    #[tactic(auto, unfolding(crate::specs::Coverages::no_coverage))]
    pub(crate) fn new(alloc: Global, rows: usize) -> Result<Coverage, AllocError>
        ensures { IfOk result (λ coverage. coverage ≡ no_coverage rows) }
    {
        let services = attempt!(no_services(alloc));
        let entry = Covered {
            read: false,
            written: false,
            refused: false,
        };
        let entries = vec![in alloc; entry; rows]?;
        Ok(Coverage {
            entries,
            services,
            states: States::none(),
            types: Vec::new(alloc),
            aborts: Vec::new(alloc),
            identity: Identity {
                revision: None,
                serial: None,
            },
        })
    }

    // notes the transfer that ended with a frame
    #[tactic(auto, unfolding(crate::specs::Coverages::transfers_with))]
    fn note_transfer(
        &mut self,
        rows: &[EntryRow<'_>],
        ended: Option<&Ended>,
    ) -> Result<(), AllocError>
        requires { AllPairs (λ e f. is_key_before e.key f.key ≡ true) rows.now }
        ensures { OnOk result (self.new
            ≡ transfers_with (map row_view rows.now) (option_copied ended.entry) self.old) }
    {
        let Some(ended) = ended else {
            return Ok(());
        };
        note_entry(&mut self.entries, rows, ended);
        self.identity.note(ended);
        count_abort(&mut self.aborts, ended.ending)
    }

    /// Notes a frame, after which a state is known. `Err`: out of memory.
    #[tactic(auto, unfolding(crate::specs::Coverages::coverage_with))]
    pub(crate) fn add(
        &mut self,
        rows: &[EntryRow<'_>],
        kind: &FrameKind,
        role: Role,
        state: NmtState,
        ended: Option<&Ended>,
    ) -> Result<(), AllocError>
        requires { AllPairs (λ e f. is_key_before e.key f.key ≡ true) rows.now }
        ensures { OnOk result (self.new ≡ coverage_with
            (map row_view rows.now) kind.now role state (option_copied ended.entry) self.old) }
    {
        count_service(&mut self.services, service_of(kind, role, ended));
        self.states.note(state);
        attempt!(count_type(&mut self.types, role));
        self.note_transfer(rows, ended)
    }
}
