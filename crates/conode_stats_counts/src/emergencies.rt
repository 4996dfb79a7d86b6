//! The EMCY messages of a bus.

ghost use Rattle.std.specs.Prelude.{◌≡◌, [], OnOk};
ghost use Rattle.conode_record.specs.Grammar.{IsIdentifier};
ghost use Rattle.conode_stats_counts.specs.Emergencies.{
  coded,
  emergency_as,
  emergency_in,
  emergent_of,
  emergent_with,
};
ghost use Rattle.conode_stats_counts.specs.ShownTimes.{first_word};

use crate::failure::{Cause, Failure, FailureRow, Reason, add_failure};
use crate::shown_time::first_word;
use crate::tally::counted;
use co_value::PackedBytes;
use conode_record::{Content, Identifier, Record};
use std::alloc::{AllocError, Global};
use std::marker::Model;

/// The EMCY messages of a bus, by node and error code (CiA 301, 7.2.7). At most 256 nodes and codes
/// have a row; further ones are only counted together.
#[derive(Drop)]
pub struct Emergencies {
    rows: Vec<FailureRow>,
    left_out: u64,
}

impl Model for Emergencies {
    ghost use Rattle.conode_stats_counts.specs.Emergencies.{Emergent};

    ghost Value = { Emergent };

    ghost view = { λ emergencies. record {
      rows = emergencies.rows.items;
      left_out = emergencies.left_out;
    } };
}

// the error code
fn error_code(bytes: &[u8]) -> Reason
    ensures { result ≡ coded (first_word bytes.now) }
{
    match first_word(bytes) {
        Some(code) => Reason::Code(code as u32),
        None => Reason::NoCode,
    }
}

// a frame with data, by its identifier
fn emergency_in(id: u16, bytes: &PackedBytes, micros: u64) -> Option<Failure>
    ensures { result ≡ emergency_in id bytes.now micros }
{
    if 0x80 < id && id < 0x100 {
        let node = (id - 0x80) as u8;
        let reason = error_code(bytes.to_list().as_slice());
        return Some(Failure {
            cause: Cause { node, reason },
            micros,
        });
    }
    None
}

// the emergency that a frame is, if it is one
fn emergency_as(id: Identifier, content: &Content<'_>, micros: u64) -> Option<Failure>
    ensures { result ≡ emergency_as id content.now micros }
{
    match (id, content) {
        (Identifier::Base(id), Content::Data(bytes)) => emergency_in(id, bytes, micros),
        _ => None,
    }
}

impl Emergencies {
    /// Of no frame.
    #[tactic(auto, using(crate::proofs::EmergencyLaws::none))]
    pub(crate) fn new(alloc: Global) -> Emergencies
        ensures { result ≡ emergent_of [] }
    {
        Emergencies {
            rows: Vec::new(alloc),
            left_out: 0,
        }
    }

    /// Counts a frame, if it is one. `Err`: out of memory.
    #[tactic(auto, unfolding(crate::specs::Emergencies::emergent_with, crate::specs::Emergencies::emergency_of))]
    pub(crate) fn take(&mut self, frame: &Record<'_>) -> Result<(), AllocError>
        requires { IsIdentifier frame.now.id }
        ensures { OnOk result (self.new ≡ emergent_with self.old frame.now) }
    {
        let emergency = emergency_as(frame.id, &frame.content, frame.micros);
        let more = attempt!(add_failure(&mut self.rows, emergency));
        self.left_out = counted(self.left_out, more);
        Ok(())
    }

    /// The messages of each node and error code, in the order in which they came first.
    pub fn rows(&self) -> &[FailureRow]
        ensures { result.now ≡ self.now.rows }
    {
        self.rows.as_slice()
    }

    /// How many messages have no row.
    pub fn left_out(&self) -> u64
        ensures { result ≡ self.now.left_out }
    {
        self.left_out
    }
}
