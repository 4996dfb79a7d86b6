//! How far a recording is, and how it is explained.

ghost use Rattle.std.specs.Prelude.{◌≡◌, ◌==◌, ◌&&◌, None, Some, IfOk, OnOk, length, slice_index};
ghost use Rattle.conode_record.specs.Grammar.{IsIdentifier};
ghost use Rattle.conode_explain_entries.specs.Tables.{entries_with};
ghost use Rattle.conode_explain_text.specs.SoFar.{seen_with};
ghost use Rattle.conode_explain_transfers.specs.Tellings.{is_boot_up};
ghost use Rattle.conode_explain.specs.Explained.{
  further_after,
  further_of,
  heard_at,
  may_be_told,
  nothing_known,
  or_boot_up,
  telling_of,
  told_at,
};
ghost use Rattle.conode_explain.specs.Nodes.{last_at, nodes_with, packed_of};

use co_frame::Frame;
use co_value::PackedBytes;
use conode_explain_entries::{Entries, FurtherChannels, Place};
use conode_explain_filter::{Filter, Lasts};
use conode_explain_forms::Signal;
use conode_explain_services::{Last, Nodes};
use conode_explain_text::{Seen, StampForm};
use conode_explain_transfers::{Channels, Told};
use conode_logs::Form;
use conode_record::{Content, Identifier, Record};
use std::alloc::{AllocError, Global};

/// How lines are written.
#[derive(Clone, Copy)]
pub enum LineFormat {
    /// For people.
    Text,
    /// Each as an object of JSON.
    Json,
}

/// In which form a recording is explained.
#[derive(Clone, Copy)]
pub struct Layout<'f> {
    /// In which form stamps are written.
    pub stamps: StampForm,
    /// Whether only the SDO transfers that ended have lines.
    pub transfers: bool,
    /// Whether a PDO, a heartbeat and a SYNC have lines only where what they say changes.
    pub changes: bool,
    /// Whether the first bad line ends it.
    pub stop: bool,
    /// How lines are written.
    pub format: LineFormat,
    /// Whether the lines of text are in colours.
    pub colours: bool,
    /// In which form the log is.
    pub log: Form,
    /// Which lines are printed.
    pub filter: &'f Filter,
    /// The signals whose values are written; none: the lines are those of frames and transfers.
    pub signals: &'f [Signal],
}

/// What a recording showed so far: its stamps and interfaces, the SDO channels, those other than
/// the default ones apart, entries of nodes, what the last frames of nodes had, and what was said
/// last of identifiers.
#[derive(Drop)]
pub(crate) struct Progress {
    pub(crate) seen: Seen,
    pub(crate) channels: Channels,
    pub(crate) further: FurtherChannels,
    pub(crate) entries: Entries,
    pub(crate) nodes: Nodes,
    pub(crate) lasts: Lasts,
}

// Whether these bytes are those of a boot-up: one, which is 0.
fn is_zero(bytes: &PackedBytes) -> bool
    ensures { result ≡ ((length bytes.now == 1) && (slice_index bytes.now 0 == 0)) }
{
    bytes.len() == 1 && bytes.padded()[0] == 0
}

/// Whether a default SDO channel may take a frame, or it may be a boot-up. Of no other one there is
/// anything to tell.
pub(crate) fn may_be_told(id: Identifier, content: &Content<'_>) -> bool
    ensures { result ≡ may_be_told id content.now }
{
    match (id, content) {
        (Identifier::Base(id), Content::Data(bytes)) => {
            id > 0x580 && (id < 0x680 || is_zero(bytes))
        }
        _ => false,
    }
}

// Notes what a frame that is read as one with this identifier has of its node, where that is of an
// emergency or of error control.
#[tactic(auto, unfolding(crate::specs::Nodes::nodes_with))]
fn note_node(nodes: &mut Nodes, id: Identifier, frame: &Record<'_>) -> Result<(), AllocError>
    requires { IsIdentifier id }
    ensures { OnOk result (nodes.new ≡ nodes_with nodes.old id frame.now) }
{
    let Identifier::Base(id) = id else {
        return Ok(());
    };
    let name = frame.interface.bytes();
    match &frame.content {
        Content::Data(bytes) => nodes.take(name, &Frame::packed(id, bytes)),
        Content::Remote(_) => nodes.take_remote(name, id),
        Content::Fd(_, _) => Ok(()),
    }
}

// Whether the frame is a boot-up.
fn is_boot_up(frame: &Frame) -> bool
    ensures { result ≡ is_boot_up frame.now }
{
    let bytes = frame.bytes();
    (0x701..0x780).contains(&frame.id()) && bytes.len() == 1 && bytes[0] == 0
}

// A node booted up, where that is said about a frame.
fn boot_further(further: &mut FurtherChannels, interface: &[u8], told: &Option<Told>)
    ensures { further.new ≡ further_after further.old interface.now told.now }
{
    let Some(told) = told else {
        return;
    };
    if told.part.is_none() {
        further.boot_up(interface, told.node);
    }
}

// What is said about a boot-up of a node on whose default channel nothing was heard. Apart from
// most frames, since what is said is large.
#[inline(never)]
fn booted(node: u8) -> Option<Told>
    ensures { result
        ≡ Some (record { node = node; part = None; left = None; ended = None; unclear = None }) }
{
    Some(Told {
        node,
        part: None,
        left: None,
        ended: None,
        unclear: None,
    })
}

// what is said about a frame, of a boot-up at least its node
fn or_boot_up(frame: &Frame, told: Option<Told>) -> Option<Told>
    ensures { result ≡ or_boot_up frame.now told }
{
    if told.is_some() || !is_boot_up(frame) {
        return told;
    }
    booted((frame.id() - 0x700) as u8)
}

// a data frame that is read as one with an identifier of 11 bits
fn packed(id: Identifier, frame: &Record<'_>) -> Option<Frame>
    requires { IsIdentifier id }
    ensures { result ≡ packed_of id frame.now.content }
{
    match (id, &frame.content) {
        (Identifier::Base(id), Content::Data(bytes)) => Some(Frame::packed(id, bytes)),
        _ => None,
    }
}

/// What the last frames of the node of a data frame had that is read as one with this identifier;
/// nothing where that has 29 bits, and of every other frame.
#[tactic(auto, unfolding(crate::specs::Nodes::last_at))]
pub(crate) fn last_of(nodes: &Nodes, id: Identifier, frame: &Record<'_>) -> Last
    requires { IsIdentifier id }
    ensures { result ≡ last_at nodes.now id frame.now }
{
    match packed(id, frame) {
        Some(packed) => nodes.last_for(frame.interface.bytes(), &packed),
        None => Last::new(),
    }
}

// Takes a data frame with an identifier of 11 bits into its default SDO channel. Returns what it is
// there; `None` for every other frame. On an `Err` memory ran out.
#[tactic(auto, unfolding(crate::specs::Explained::telling_of))]
fn tell(channels: &mut Channels, frame: &Record<'_>) -> Result<Option<Told>, AllocError>
    requires { IsIdentifier frame.now.id }
    ensures said { IfOk result (λ said. said ≡ (telling_of channels.old frame.now).told) }
    ensures channels { OnOk result
        (channels.new ≡ (telling_of channels.old frame.now).tracks) }
{
    let Some(packed) = packed(frame.id, frame) else {
        return Ok(None);
    };
    let name = frame.interface.bytes();
    let Ok(told) = channels.take(name, frame.micros, &packed) else {
        return Err(AllocError);
    };
    Ok(or_boot_up(&packed, told))
}

// Takes a data frame into its SDO channel other than a default one. Returns what it is there. On an
// `Err` memory ran out.
#[tactic(auto, unfolding(crate::specs::Explained::further_of))]
fn tell_further(
    further: &mut FurtherChannels,
    frame: &Record<'_>,
    place: Place,
) -> Result<Option<Told>, AllocError>
    requires { IsIdentifier frame.now.id }
    ensures said { IfOk result (λ said. said ≡ (further_of further.old frame.now place).told) }
    ensures channels { OnOk result
        (further.new ≡ (further_of further.old frame.now place).channels) }
{
    let Some(packed) = packed(frame.id, frame) else {
        return Ok(None);
    };
    further.take(frame.interface.bytes(), place, frame.micros, &packed)
}

impl Progress {
    /// Nothing came.
    pub(crate) fn new(alloc: Global) -> Progress
        ensures { result ≡ nothing_known }
    {
        Progress {
            seen: Seen::new(),
            channels: Channels::new(alloc),
            further: FurtherChannels::new(alloc),
            entries: Entries::new(alloc),
            nodes: Nodes::new(alloc),
            lasts: Lasts::new(alloc),
        }
    }

    /// Takes a frame into its SDO channel: that of a place, or a default one. Returns what it is
    /// there. On an `Err` memory ran out.
    pub(crate) fn tell_at(
        &mut self,
        frame: &Record<'_>,
        place: Option<Place>,
    ) -> Result<Option<Told>, AllocError>
        requires { IsIdentifier frame.now.id }
        ensures said { IfOk result (λ said. said ≡ told_at self.old frame.now place) }
        ensures channels { OnOk result
            (self.new.channels ≡ (heard_at self.old frame.now place).channels) }
        ensures further { OnOk result
            (self.new.further ≡ (heard_at self.old frame.now place).further) }
        ensures seen { self.new.seen ≡ (heard_at self.old frame.now place).seen }
        ensures entries { self.new.entries ≡ (heard_at self.old frame.now place).entries }
        ensures nodes { self.new.nodes ≡ (heard_at self.old frame.now place).nodes }
        ensures lasts { self.new.lasts ≡ (heard_at self.old frame.now place).lasts }
    {
        match place {
            Some(place) => tell_further(&mut self.further, frame, place),
            None => tell(&mut self.channels, frame),
        }
    }

    /// Adds a frame that is read as one with this identifier: its stamp, its interface, what it has
    /// of its node, and what it shows of entries by `told`, which its SDO channel says about it. On
    /// an `Err` memory ran out.
    pub(crate) fn add(
        &mut self,
        frame: &Record<'_>,
        id: Identifier,
        told: &Option<Told>,
    ) -> Result<(), AllocError>
        requires { IsIdentifier id }
        ensures seen { OnOk result (self.new.seen
            ≡ seen_with self.old.seen frame.now.micros frame.now.interface) }
        ensures channels { OnOk result (self.new.channels ≡ self.old.channels) }
        ensures further { OnOk result
            (self.new.further ≡ further_after self.old.further frame.now.interface told.now) }
        ensures lasts { OnOk result (self.new.lasts ≡ self.old.lasts) }
        ensures entries { OnOk result (self.new.entries
            ≡ entries_with self.old.entries frame.now.interface told.now) }
        ensures nodes { OnOk result (self.new.nodes ≡ nodes_with self.old.nodes id frame.now) }
    {
        self.seen.add(frame);
        attempt!(note_node(&mut self.nodes, id, frame));
        let name = frame.interface.bytes();
        boot_further(&mut self.further, name, told);
        self.entries.take(name, told)
    }
}
