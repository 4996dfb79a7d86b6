//! The SDO channels of a recording.

ghost use Rattle.std.specs.Prelude.{◌≡◌, ◌<◌, ◌≤◌, [], length, OnOk, IfOk, IfSome};
ghost use Rattle.conode_explain_transfers.specs.Followed.{broken_off, after_boot};
ghost use Rattle.conode_explain_transfers.specs.Hearings.{hearing};
ghost use Rattle.conode_explain_transfers.specs.Reveals.{revealed};
ghost use Rattle.conode_explain_transfers.specs.Tracks.{
  place_of,
  track_at,
  with_channel,
  placed,
  sdo_telling,
  boot_telling,
};
ghost use Rattle.conode_explain_transfers.specs.Tellings.{is_boot_up, telling};

use crate::ended::shown_end;
use crate::told::Told;
use crate::track::Track;
use crate::{Ended, Heard, Revealed, Side};
use co_frame::Frame;
use std::alloc::{AllocError, Global};
use std::marker::Model;

/// How many channels are followed at most.
const MOST_CHANNELS: usize = 1024;

/// The SDO channels of a recording, one for each node on each interface, each followed through its
/// transfers: at most 1,024. Contracts see them in the order in which they were heard first.
#[derive(Drop)]
pub struct Channels {
    tracks: Vec<Track>,
}

impl Model for Channels {
    ghost use Rattle.std.specs.Prelude.{List};
    ghost use Rattle.conode_explain_transfers.specs.declared.track.Track.{Track};

    ghost Value = { List Track };

    ghost view = { λ channels. channels.tracks.items };
}

// the place of the channel of a node on an interface
fn place_of(tracks: &[Track], interface: &[u8], node: u8) -> Option<usize>
    ensures place { result ≡ place_of tracks.now interface.now node }
    ensures within { IfSome result (λ place. place < length tracks.now) }
{
    tracks.iter().position(|track| track.is_of(interface, node))
}

// Whether the frame, whose identifier is one of error control, is a boot-up.
fn is_boot_up(frame: &Frame) -> bool
    ensures { result ≡ is_boot_up frame.now }
{
    let bytes = frame.bytes();
    (0x701..0x780).contains(&frame.id()) && bytes.len() == 1 && bytes[0] == 0
}

impl Channels {
    /// No channel was heard.
    pub fn new(alloc: Global) -> Channels
        ensures { result ≡ [] }
    {
        Channels {
            tracks: Vec::new(alloc),
        }
    }

    /// The channels, in the order in which they were heard first.
    pub fn tracks(&self) -> &[Track]
        ensures { result.now ≡ self.now }
    {
        self.tracks.as_slice()
    }

    // The place of the channel of a node on an interface; a new one is appended. `None` if there
    // are 1,024 others.
    #[tactic(auto, unfolding(crate::specs::Tracks::placed))]
    fn place(&mut self, interface: &[u8], node: u8) -> Result<Option<usize>, AllocError>
        requires { length interface.now ≤ 15 }
        ensures place { IfOk result (λ place. place ≡ (placed self.old interface.now node).place) }
        ensures tracks { OnOk result (self.new ≡ (placed self.old interface.now node).tracks) }
        ensures within { IfOk result (λ place. IfSome place (λ p. p < length self.new)) }
    {
        if let Some(place) = place_of(self.tracks.as_slice(), interface, node) {
            return Ok(Some(place));
        }
        let place = self.tracks.len();
        if place >= MOST_CHANNELS {
            return Ok(None);
        }
        self.tracks.push(Track::new(interface, node))?;
        Ok(Some(place))
    }

    // Takes a frame of the channel at a place.
    #[tactic(auto, using(crate::proofs::Places::same_at))]
    fn take_at(&mut self, place: usize, micros: u64, side: Side, frame: &Frame) -> Heard
        requires { place < length self.old }
        ensures says { result
            ≡ (hearing (track_at self.old place).channel micros side frame.now.bytes).says }
        ensures tracks { self.new ≡ with_channel self.old place
            (hearing (track_at self.old place).channel micros side frame.now.bytes).next }
    {
        self.tracks[place].channel.hear(micros, side, frame)
    }

    // What a frame of the channel at a place reveals.
    #[tactic(auto, using(crate::proofs::Places::same_at))]
    fn reveals_at(&self, place: usize, micros: u64, side: Side, frame: &Frame) -> Revealed
        requires { place < length self.now }
        ensures { result
            ≡ revealed (track_at self.now place).channel micros side frame.now.bytes }
    {
        self.tracks[place].channel.reveals(micros, side, frame)
    }

    // The node of the channel at a place booted up.
    #[tactic(auto, using(crate::proofs::Places::same_at))]
    fn boot_at(&mut self, place: usize, micros: u64) -> Option<Ended>
        requires { place < length self.old }
        ensures ended { result
            ≡ broken_off (track_at self.old place).channel.transfer micros }
        ensures tracks { self.new
            ≡ with_channel self.old place (after_boot (track_at self.old place).channel) }
    {
        self.tracks[place].channel.boot_up(micros)
    }

    // Takes a frame of an end of the channel of a node.
    #[tactic(auto, unfolding(crate::specs::Tracks::sdo_telling))]
    fn take_sdo(
        &mut self,
        interface: &[u8],
        node: u8,
        micros: u64,
        side: Side,
        frame: &Frame,
    ) -> Result<Option<Told>, AllocError>
        requires { length interface.now ≤ 15 }
        ensures told { IfOk result (λ told. told
            ≡ (sdo_telling self.old interface.now node micros side frame.now.bytes).told) }
        ensures tracks { OnOk result (self.new
            ≡ (sdo_telling self.old interface.now node micros side frame.now.bytes).tracks) }
    {
        let Some(place) = self.place(interface, node)? else {
            return Ok(None);
        };
        let revealed = self.reveals_at(place, micros, side, frame);
        let heard = self.take_at(place, micros, side, frame);
        Ok(Some(Told::by(side, node, revealed, heard)))
    }

    // A node booted up.
    #[tactic(auto, unfolding(crate::specs::Tracks::boot_telling))]
    fn take_boot_up(&mut self, interface: &[u8], node: u8, micros: u64) -> Option<Told>
        ensures told { result ≡ (boot_telling self.old interface.now node micros).told }
        ensures tracks { self.new ≡ (boot_telling self.old interface.now node micros).tracks }
    {
        let place = place_of(self.tracks.as_slice(), interface, node)?;
        let ended = self.boot_at(place, micros);
        Some(Told {
            node,
            part: None,
            left: None,
            ended: shown_end(ended),
            unclear: None,
        })
    }

    /// Takes a frame with its stamp in microseconds on an interface, whose name has at most 15
    /// bytes: one of an SDO channel of the pre-defined connection set, or a boot-up. Returns what
    /// the frame is there; `None` for every other frame, and for a channel that there is no room
    /// for. It allocates when a channel is heard first; on an `Err` memory ran out.
    #[tactic(auto, unfolding(crate::specs::Tellings::telling))]
    pub fn take(
        &mut self,
        interface: &[u8],
        micros: u64,
        frame: &Frame,
    ) -> Result<Option<Told>, AllocError>
        requires { length interface.now ≤ 15 }
        ensures told { IfOk result (λ told. told
            ≡ (telling self.old interface.now micros frame.now).told) }
        ensures tracks { OnOk result (self.new
            ≡ (telling self.old interface.now micros frame.now).tracks) }
    {
        match frame.id() {
            id @ 0x581..=0x5FF => {
                self.take_sdo(interface, (id - 0x580) as u8, micros, Side::Server, frame)
            }
            id @ 0x601..=0x67F => {
                self.take_sdo(interface, (id - 0x600) as u8, micros, Side::Client, frame)
            }
            id if is_boot_up(frame) => {
                Ok(self.take_boot_up(interface, (id - 0x700) as u8, micros))
            }
            _ => Ok(None),
        }
    }
}
