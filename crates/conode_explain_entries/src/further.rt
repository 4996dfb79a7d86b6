//! The SDO channels of a recording other than the default ones.

ghost use Rattle.std.specs.Prelude.{◌≡◌, ◌<◌, ◌≤◌, [], length, OnOk, IfOk, IfSome};
ghost use Rattle.conode_explain_transfers.specs.Followed.{after_boot};
ghost use Rattle.conode_explain_transfers.specs.Hearings.{hearing};
ghost use Rattle.conode_explain_transfers.specs.Reveals.{revealed};
ghost use Rattle.conode_explain_entries.specs.Further.{
  are_same,
  booted,
  booted_all,
  channel_at,
  further_telling,
  is_at,
  is_of,
  new_channel,
  place_of,
  placed,
  with_channel,
};

use arrayvec::ArrayVec;
use co_frame::Frame;
use conode_explain_transfers::{Channel, Heard, Revealed, Side, Told};
use std::alloc::{AllocError, Global};
use std::marker::Model;

/// How many channels are followed at most.
const MOST_CHANNELS: usize = 1024;

/// The identifiers of an SDO channel.
#[derive(Clone, Copy)]
pub struct ChannelIds {
    /// Of the client's requests.
    pub request: u16,
    /// Of the server's answers.
    pub answer: u16,
}

/// Which SDO channel a frame is of, and which of its ends sent it.
#[derive(Clone, Copy)]
pub struct Place {
    /// The node-ID of the server.
    pub node: u8,
    /// The channel's identifiers.
    pub ids: ChannelIds,
    /// The end that sent the frame.
    pub side: Side,
}

/// An SDO channel other than the default one of its node.
#[derive(Drop)]
pub struct FurtherChannel {
    /// The name of the interface.
    pub interface: ArrayVec<u8, 15>,
    /// The node-ID of the server.
    pub node: u8,
    /// Its identifiers.
    pub ids: ChannelIds,
    /// Its transfers.
    pub channel: Channel,
}

/// The SDO channels of a recording other than the default ones, each followed through its
/// transfers: at most 1,024. Contracts see them in the order in which they were heard first.
#[derive(Drop)]
pub struct FurtherChannels {
    channels: Vec<FurtherChannel>,
}

impl Model for FurtherChannels {
    ghost use Rattle.std.specs.Prelude.{List};
    ghost use Rattle.conode_explain_entries.specs.declared.further.FurtherChannel.{FurtherChannel};

    ghost Value = { List FurtherChannel };

    ghost view = { λ further. further.channels.items };
}

impl ChannelIds {
    fn is(self, other: ChannelIds) -> bool
        ensures { result ≡ are_same self other }
    {
        self.request == other.request && self.answer == other.answer
    }
}

impl FurtherChannel {
    // Nothing was heard on it.
    fn new(interface: &[u8], place: Place) -> FurtherChannel
        requires { length interface.now ≤ 15 }
        ensures { result ≡ new_channel interface.now place }
    {
        let mut name = ArrayVec::new();
        name.try_extend_from_slice(interface).unwrap();
        FurtherChannel {
            interface: name,
            node: place.node,
            ids: place.ids,
            channel: Channel::new(),
        }
    }

    /// Whether it is one of a node on an interface.
    pub fn is_at(&self, interface: &[u8], node: u8) -> bool
        ensures { result ≡ is_at interface.now node self.now }
    {
        self.node == node && self.interface.as_slice() == interface
    }

    fn is_of(&self, interface: &[u8], place: Place) -> bool
        ensures { result ≡ is_of interface.now place self.now }
    {
        self.ids.is(place.ids) && self.is_at(interface, place.node)
    }

    // A node booted up.
    fn boot_up(&mut self, interface: &[u8], node: u8)
        ensures { self.new ≡ booted interface.now node self.old }
    {
        if self.is_at(interface, node) {
            self.channel.boot_up(0);
        }
    }
}

// the place of the channel of a frame
fn place_of(channels: &[FurtherChannel], interface: &[u8], place: Place) -> Option<usize>
    ensures place { result ≡ place_of channels.now interface.now place }
    ensures within { IfSome result (λ at. at < length channels.now) }
{
    channels
        .iter()
        .position(|channel| channel.is_of(interface, place))
}

impl FurtherChannels {
    /// No channel was heard.
    pub fn new(alloc: Global) -> FurtherChannels
        ensures { result ≡ [] }
    {
        FurtherChannels {
            channels: Vec::new(alloc),
        }
    }

    /// The channels, in the order in which they were heard first.
    pub fn channels(&self) -> &[FurtherChannel]
        ensures { result.now ≡ self.now }
    {
        self.channels.as_slice()
    }

    // The place of the channel of a frame; a new one is appended. `None` if there are 1,024 others.
    #[tactic(auto, unfolding(crate::specs::Further::placed))]
    fn place(&mut self, interface: &[u8], place: Place) -> Result<Option<usize>, AllocError>
        requires { length interface.now ≤ 15 }
        ensures place { IfOk result (λ at. at ≡ (placed self.old interface.now place).place) }
        ensures channels { OnOk result
            (self.new ≡ (placed self.old interface.now place).channels) }
        ensures within { IfOk result (λ at. IfSome at (λ p. p < length self.new)) }
    {
        if let Some(at) = place_of(self.channels.as_slice(), interface, place) {
            return Ok(Some(at));
        }
        let at = self.channels.len();
        if at >= MOST_CHANNELS {
            return Ok(None);
        }
        match self.channels.push(FurtherChannel::new(interface, place)) {
            Ok(()) => Ok(Some(at)),
            Err(_) => Err(AllocError),
        }
    }

    // Takes a frame of the channel at a place.
    #[tactic(auto, using(crate::proofs::Changes::same_at))]
    fn take_at(&mut self, at: usize, micros: u64, side: Side, frame: &Frame) -> Heard
        requires { at < length self.old }
        ensures says { result
            ≡ (hearing (channel_at self.old at).channel micros side frame.now.bytes).says }
        ensures channels { self.new ≡ with_channel self.old at
            (hearing (channel_at self.old at).channel micros side frame.now.bytes).next }
    {
        self.channels[at].channel.hear(micros, side, frame)
    }

    // What a frame of the channel at a place reveals.
    #[tactic(auto, using(crate::proofs::Changes::same_at))]
    fn reveals_at(&self, at: usize, micros: u64, side: Side, frame: &Frame) -> Revealed
        requires { at < length self.now }
        ensures { result
            ≡ revealed (channel_at self.now at).channel micros side frame.now.bytes }
    {
        self.channels[at].channel.reveals(micros, side, frame)
    }

    /// Takes a frame of a channel with its stamp in microseconds on an interface, whose name has at
    /// most 15 bytes. Returns what the frame is there; `None` for a channel that there is no room
    /// for. It allocates when a channel is heard first; on an `Err` memory ran out.
    #[tactic(auto, unfolding(crate::specs::Further::further_telling))]
    pub fn take(
        &mut self,
        interface: &[u8],
        place: Place,
        micros: u64,
        frame: &Frame,
    ) -> Result<Option<Told>, AllocError>
        requires { length interface.now ≤ 15 }
        ensures told { IfOk result (λ told. told
            ≡ (further_telling self.old interface.now place micros frame.now.bytes).told) }
        ensures channels { OnOk result (self.new
            ≡ (further_telling self.old interface.now place micros frame.now.bytes).channels) }
    {
        let Some(at) = attempt_value!(self.place(interface, place)) else {
            return Ok(None);
        };
        let revealed = self.reveals_at(at, micros, place.side, frame);
        let heard = self.take_at(at, micros, place.side, frame);
        Ok(Some(Told::by(place.side, place.node, revealed, heard)))
    }

    /// A node on an interface booted up: no transfer of its channels is open any more.
    #[tactic(auto, using(crate::proofs::Changes::done_more, crate::proofs::Changes::all_done))]
    pub fn boot_up(&mut self, interface: &[u8], node: u8)
        ensures { self.new ≡ booted_all self.old interface.now node }
    {
        for channel in self.channels.iter_mut() {
            channel.boot_up(interface, node);
        }
    }
}
