//! SDO transfers that failed, by node and reason, and EMCY messages, by node and error code.

ghost use Rattle.std.specs.Prelude.{◌≡◌, ◌<◌, ◌+◌, length, position, OnOk, IfOk, IfSome};
ghost use Rattle.conode_stats_counts.specs.Failures.{
  failure_added,
  failure_by,
  failure_of,
  is_failure,
  more_left_out,
  new_failure,
  rows_with,
  same_cause,
  same_reason,
};

use crate::tally::counted;
use conode_explain_transfers::{Ending, Told};
use std::alloc::AllocError;

/// The most nodes and reasons counted on a bus.
const MOST_FAILURES: usize = 256;

/// Why transfers failed, or EMCY messages came.
#[derive(Clone, Copy)]
pub enum Reason {
    /// The code of the abort; of an EMCY message its error code.
    Code(u32),
    /// The client awaited an answer, and began another transfer; or an EMCY message is too short for
    /// a code.
    NoCode,
    /// The transfer was confirmed, but the number of bytes isn't the indicated one.
    OtherSize,
    /// The transfer was confirmed, but the CRC that came isn't that of the bytes.
    WrongCrc,
}

/// Whose transfers failed, and why; or who sent EMCY messages, and why.
#[derive(Clone, Copy)]
pub struct Cause {
    /// The node-ID of the server, or of the sender.
    pub node: u8,
    /// Why.
    pub reason: Reason,
}

/// A transfer that failed, or an EMCY message.
#[derive(Clone, Copy)]
pub(crate) struct Failure {
    /// Whose it is, and why.
    pub(crate) cause: Cause,
    /// The stamp of its end, or of the message, in microseconds.
    pub(crate) micros: u64,
}

/// The transfers of one node that failed in one way, or its EMCY messages with one code. Counts
/// saturate at 2^64 - 1.
#[derive(Clone, Copy)]
pub struct FailureRow {
    /// Whose they are, and why.
    pub cause: Cause,
    /// How many there are.
    pub count: u64,
    /// The stamp at which the first of them ended, or came, in microseconds.
    pub first: u64,
    /// The same of the last of them.
    pub last: u64,
}

fn same_reason(a: Reason, b: Reason) -> bool
    ensures { result ≡ same_reason a b }
{
    match (a, b) {
        (Reason::Code(a), Reason::Code(b)) => a == b,
        (Reason::NoCode, Reason::NoCode)
        | (Reason::OtherSize, Reason::OtherSize)
        | (Reason::WrongCrc, Reason::WrongCrc) => true,
        _ => false,
    }
}

impl Failure {
    // a transfer with a node that ended like this
    fn by(node: u8, micros: u64, ending: Ending) -> Option<Failure>
        ensures { result ≡ failure_by node micros ending }
    {
        let reason = match ending {
            Ending::Aborted { by: _by, code } => Reason::Code(code.0),
            Ending::Unanswered | Ending::Repeated => Reason::NoCode,
            Ending::SizeDiffers { indicated: _ } => Reason::OtherSize,
            Ending::CrcDiffers {
                came: _,
                computed: _,
            } => Reason::WrongCrc,
            _ => return None,
        };
        Some(Failure {
            cause: Cause { node, reason },
            micros,
        })
    }

    /// The failure that channels tell of, if it is one.
    pub(crate) fn of(told: &Option<Told>) -> Option<Failure>
        ensures { result ≡ failure_of told.now }
    {
        let Some(told) = told else {
            return None;
        };
        match &told.ended {
            Some(ended) => Failure::by(told.node, ended.end, ended.ending),
            None => None,
        }
    }
}

impl FailureRow {
    #[tactic(auto, unfolding(crate::specs::Failures::first_failure))]
    fn new(cause: Cause) -> FailureRow
        ensures { result ≡ new_failure cause }
    {
        FailureRow {
            cause,
            count: 0,
            first: 0,
            last: 0,
        }
    }

    fn is_of(&self, cause: Cause) -> bool
        ensures { result ≡ is_failure cause self.now }
    {
        self.cause.node == cause.node && same_reason(self.cause.reason, cause.reason)
    }

    fn add(&mut self, micros: u64)
        ensures { self.new ≡ failure_added micros self.old }
    {
        if self.count == 0 {
            self.first = micros;
        }
        self.count = counted(self.count, 1);
        self.last = micros;
    }
}

// the place of the row of a cause
fn place_of(rows: &[FailureRow], cause: Cause) -> Option<usize>
    ensures place { result ≡ position (is_failure cause) rows.now }
    ensures within { IfSome result (λ place. place < length rows.now) }
{
    rows.iter().position(|row| row.is_of(cause))
}

/// Adds a failure, if there is one, to the row of its cause, a new one if there is none. Returns 1
/// if there is no room for a new row, else 0. `Err`: out of memory.
#[tactic(auto, unfolding(crate::specs::Groups::group_with, crate::specs::Groups::no_room))]
pub(crate) fn add_failure(
    rows: &mut Vec<FailureRow>,
    failure: Option<Failure>,
) -> Result<u64, AllocError>
    ensures rows { OnOk result (rows.new.items ≡ rows_with failure rows.old.items) }
    ensures left_out { IfOk result (λ count. count ≡ more_left_out failure rows.old.items) }
{
    let Some(failure) = failure else {
        return Ok(0);
    };
    match place_of(rows.as_slice(), failure.cause) {
        Some(place) => {
            rows[place].add(failure.micros);
            Ok(0)
        }
        None => {
            if rows.len() >= MOST_FAILURES {
                return Ok(1);
            }
            let mut row = FailureRow::new(failure.cause);
            row.add(failure.micros);
            rows.push(row)?;
            Ok(0)
        }
    }
}
