//! A TPDO in a recording: its parameters, its newest frame, and the SYNCs that it may answer (CiA
//! 301, 7.2.2).

ghost use Rattle.std.specs.Prelude.{◌≡◌};
ghost use Rattle.conode_compare_pdos.specs.Tpdos.{
  after_command,
  after_frame,
  after_gap,
  after_poll,
  after_request,
  after_sync,
  after_transfer,
  booted_tpdo,
  is_download,
  is_id,
  parameters_shown,
  shows_bytes,
  unknown_tpdo,
  with_parameters,
  without_cycle,
};

use crate::cycle::{Cycle, anew, cycle_sent, cycle_synced};
use crate::deviation::{Moment, is_certain, shows_length};
use crate::parameters::{Parameters, communication, mapping};
use co_value::Key;
use conode_explain_transfers::{Direction, Ended, Ending, Protocol};

/// When a frame of it came.
#[derive(Clone, Copy)]
pub struct Sent {
    /// When the bus was free last, before the frame.
    pub free: u64,
    /// Its stamp.
    pub micros: u64,
}

/// What a recording shows of a TPDO.
#[derive(Clone, Copy)]
pub struct Tpdo {
    /// Its parameters, as far as they are known.
    pub parameters: Parameters,
    /// Its newest frame; `None` where its times count anew from the next one.
    pub sent: Option<Sent>,
    /// How many SYNCs it may answer, at most two.
    pub syncs: u8,
    /// The SYNCs since its newest frame; `None` where they aren't counted.
    pub cycle: Option<Cycle>,
    /// When one of its parameters was written or read last.
    pub changed: Option<u64>,
    /// With how many bytes it came, other than are mapped, where that was said.
    pub odd: Option<u8>,
}

// how many SYNCs may be unanswered at most
const MOST_SYNCS: u8 = 2;

/// Whether an identifier is known to be this one.
pub fn is_id(own: Option<u16>, id: u16) -> bool
    ensures { result ≡ is_id own id }
{
    match own {
        Some(own) => own == id,
        None => false,
    }
}

// whether a transfer that ended shows the bytes of its entry
pub(crate) fn shows_bytes(ended: &Ended) -> bool
    ensures { result ≡ shows_bytes ended.now.protocol ended.now.ending }
{
    matches!(
        (ended.protocol, ended.ending),
        (Protocol::Expedited, Ending::Done { crc: _ })
    )
}

fn is_download(direction: Direction) -> bool
    ensures { result ≡ is_download direction }
{
    matches!(direction, Direction::Download)
}

// the parameters after a transfer of one of them
fn parameters_shown(ended: &Ended, parameters: Parameters) -> Parameters
    ensures { result ≡ parameters_shown ended.now parameters }
{
    if shows_bytes(ended) {
        parameters.shown(ended.key.sub, ended.first.as_slice())
    } else {
        parameters
    }
}

impl Tpdo {
    /// Nothing is known of it.
    pub(crate) fn unknown() -> Tpdo
        ensures { result ≡ unknown_tpdo }
    {
        Tpdo {
            parameters: Parameters::unknown(),
            sent: None,
            syncs: MOST_SYNCS,
            cycle: None,
            changed: None,
            odd: None,
        }
    }

    /// Its SYNCs aren't counted.
    pub(crate) fn uncounted(self) -> Tpdo
        ensures { result ≡ without_cycle self }
    {
        Tpdo {
            parameters: self.parameters,
            sent: self.sent,
            syncs: self.syncs,
            cycle: None,
            changed: self.changed,
            odd: self.odd,
        }
    }

    /// The device booted up.
    pub(crate) fn booted(cycle: Option<Cycle>, parameters: Parameters) -> Tpdo
        ensures { result ≡ booted_tpdo cycle parameters }
    {
        Tpdo {
            parameters,
            sent: None,
            syncs: 0,
            cycle,
            changed: None,
            odd: None,
        }
    }

    /// An NMT command came: times and SYNCs count anew.
    pub(crate) fn after_command(self) -> Tpdo
        ensures { result ≡ after_command self }
    {
        Tpdo {
            parameters: self.parameters,
            sent: None,
            syncs: self.syncs,
            cycle: anew(self.cycle),
            changed: self.changed,
            odd: self.odd,
        }
    }

    /// Frames may be missing in the recording.
    pub(crate) fn after_gap(self) -> Tpdo
        ensures { result ≡ after_gap self }
    {
        Tpdo {
            parameters: self.parameters,
            sent: None,
            syncs: MOST_SYNCS,
            cycle: anew(self.cycle),
            changed: self.changed,
            odd: self.odd,
        }
    }

    /// A SYNC with so many bytes came.
    pub(crate) fn after_sync(self, length: u8) -> Tpdo
        ensures { result ≡ after_sync length self }
    {
        Tpdo {
            parameters: self.parameters,
            sent: self.sent,
            syncs: if self.syncs >= MOST_SYNCS {
                MOST_SYNCS
            } else {
                self.syncs + 1
            },
            cycle: cycle_synced(self.cycle, length),
            changed: self.changed,
            odd: self.odd,
        }
    }

    /// A remote frame with this identifier came: where it asks for the TPDO, that is sent without
    /// an event. Which frame that is isn't known.
    pub(crate) fn after_poll(self, id: u16) -> Tpdo
        ensures { result ≡ after_poll id self }
    {
        if !is_id(self.parameters.id, id) {
            return self;
        }
        Tpdo {
            parameters: self.parameters,
            sent: None,
            syncs: MOST_SYNCS,
            cycle: None,
            changed: self.changed,
            odd: self.odd,
        }
    }

    /// A data frame with this identifier and so many bytes came.
    pub(crate) fn after_frame(self, moment: &Moment, id: u16, length: u8) -> Tpdo
        ensures { result ≡ after_frame moment.now id length self }
    {
        if !is_id(self.parameters.id, id) {
            return self;
        }
        let is_odd = shows_length(moment, &self, length);
        let certain = is_certain(moment, self.changed);
        Tpdo {
            parameters: self.parameters,
            sent: Some(Sent {
                free: moment.free,
                micros: moment.micros,
            }),
            syncs: self.syncs.saturating_sub(1),
            cycle: cycle_sent(self.cycle, certain, self.parameters.kind),
            changed: self.changed,
            odd: if is_odd { Some(length) } else { self.odd },
        }
    }

    // A parameter was written or read.
    fn with_parameters(self, micros: u64, parameters: Parameters) -> Tpdo
        ensures { result ≡ with_parameters micros self parameters }
    {
        Tpdo {
            parameters,
            sent: None,
            syncs: MOST_SYNCS,
            cycle: anew(self.cycle),
            changed: Some(micros),
            odd: self.odd,
        }
    }

    /// A download to an entry is requested; a mapping that is written isn't known any more.
    pub(crate) fn after_request(self, number: u8, key: Key, micros: u64) -> Tpdo
        ensures { result ≡ after_request key micros number self }
    {
        let mut parameters = self.parameters;
        if key.index == communication(number) {
            return self.with_parameters(micros, parameters.asked_to_write(key.sub));
        }
        if key.index == mapping(number) {
            parameters.length = None;
            return self.with_parameters(micros, parameters);
        }
        self
    }

    /// A transfer ended. Where a parameter is written a device may begin the event timer anew,
    /// whatever the protocol.
    pub(crate) fn after_transfer(self, number: u8, ended: &Ended, micros: u64) -> Tpdo
        ensures { result ≡ after_transfer ended.now micros number self }
    {
        if ended.key.index != communication(number) {
            return self;
        }
        if is_download(ended.direction) || shows_bytes(ended) {
            self.with_parameters(micros, parameters_shown(ended, self.parameters))
        } else {
            self
        }
    }
}
