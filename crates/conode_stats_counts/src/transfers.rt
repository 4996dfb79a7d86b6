//! The SDO transfers of a bus.

ghost use Rattle.std.specs.Prelude.{◌≡◌, [], OnOk, IfOk};
ghost use Rattle.conode_record.specs.Grammar.{IsIdentifier};
ghost use Rattle.conode_stats_counts.specs.Failures.{plain, telling_of, transfers_of, transfers_with};
ghost use Rattle.conode_stats_counts.specs.Nodes.{shown_by};

use crate::failure::{Failure, FailureRow, add_failure};
use crate::shown_time::ShownTime;
use crate::tally::counted;
use co_frame::Frame;
use conode_explain_transfers::{Channels, Told, Track};
use conode_record::{Content, Identifier, Record};
use std::alloc::{AllocError, Global};
use std::marker::Model;

/// The SDO transfers on the default channels of a bus: those that failed, by node and reason, and
/// those that are open. At most 256 nodes and reasons have a row; further ones are only counted
/// together.
#[derive(Drop)]
pub struct Transfers {
    channels: Channels,
    rows: Vec<FailureRow>,
    left_out: u64,
}

impl Model for Transfers {
    ghost use Rattle.conode_stats_counts.specs.Failures.{Transferred};

    ghost Value = { Transferred };

    ghost view = { λ transfers. record {
      channels = transfers.channels;
      rows = transfers.rows.items;
      left_out = transfers.left_out;
    } };
}

// the data frame with an identifier of 11 bits that this is, if it is one
fn plain(id: Identifier, content: &Content<'_>) -> Option<Frame>
    requires { IsIdentifier id }
    ensures { result ≡ plain id content.now }
{
    match (id, content) {
        (Identifier::Base(id), Content::Data(bytes)) => Some(Frame::packed(id, bytes)),
        _ => None,
    }
}

// follows a frame on its channel, if it has one
#[tactic(auto, unfolding(crate::specs::Failures::telling_of))]
fn follow(channels: &mut Channels, frame: &Record<'_>) -> Result<Option<Told>, AllocError>
    requires { IsIdentifier frame.now.id }
    ensures told { IfOk result (λ told. told ≡ (telling_of channels.old frame.now).told) }
    ensures tracks { OnOk result (channels.new ≡ (telling_of channels.old frame.now).tracks) }
{
    match plain(frame.id, &frame.content) {
        Some(plain) => channels.take(frame.interface.bytes(), frame.micros, &plain),
        None => Ok(None),
    }
}

impl Transfers {
    /// Of no frame.
    #[tactic(auto, using(crate::proofs::Failed::none))]
    pub(crate) fn new(alloc: Global) -> Transfers
        ensures { result ≡ transfers_of [] }
    {
        Transfers {
            channels: Channels::new(alloc),
            rows: Vec::new(alloc),
            left_out: 0,
        }
    }

    /// Follows a frame. Returns the producer heartbeat time that it shows, if it does. `Err`: out of
    /// memory.
    #[tactic(auto, unfolding(crate::specs::Failures::transfers_with))]
    pub(crate) fn take(&mut self, frame: &Record<'_>) -> Result<Option<ShownTime>, AllocError>
        requires { IsIdentifier frame.now.id }
        ensures transfers { OnOk result (self.new ≡ transfers_with self.old frame.now) }
        ensures shown { IfOk result (λ shown. shown ≡ shown_by self.old.channels frame.now) }
    {
        let told = attempt!(follow(&mut self.channels, frame));
        let failure = Failure::of(&told);
        let more = attempt!(add_failure(&mut self.rows, failure));
        self.left_out = counted(self.left_out, more);
        Ok(ShownTime::of(&told))
    }

    /// The channels, in the order in which they were heard first.
    pub fn channels(&self) -> &[Track]
        ensures { result.now ≡ self.now.channels }
    {
        self.channels.tracks()
    }

    /// The failed transfers of each node and reason, in the order in which they came first.
    pub fn rows(&self) -> &[FailureRow]
        ensures { result.now ≡ self.now.rows }
    {
        self.rows.as_slice()
    }

    /// How many failed transfers have no row.
    pub fn left_out(&self) -> u64
        ensures { result ≡ self.now.left_out }
    {
        self.left_out
    }
}
