//! Which SDO channel other than the default ones a frame is of.

ghost use Rattle.std.specs.Prelude.{◌≡◌, ◌++◌, ℕ, true, None, IfOk, IfSome, OnOk, filter_map, map};
ghost use Rattle.std.specs.Option.{option_to_list};
ghost use Rattle.co_sheet.specs.SheetViews.{row_view};
ghost use Rattle.conode_record.specs.Grammar.{IsIdentifier};
ghost use Rattle.conode_explain_cob_ids.specs.Buses.{bus_view};
ghost use Rattle.conode_explain_cob_ids.specs.Known.{known_view};
ghost use Rattle.conode_explain_forms.specs.Places.{
  channel_of,
  channels_in,
  channels_of,
  first_of,
  identifier_at,
  identifier_in,
  ids_at,
  is_channel_id,
  is_parameter,
  is_shown_on,
  place_at,
  place_by_sheet,
  place_by_shown,
  place_in,
  place_of,
  read_as,
  server_at,
  side_of,
};

use co_sheet::EntryRow;
use co_value::Key;
use conode_explain_cob_ids::{
    Bus, KnownSheet, SheetCobId, channel_word, cob_id_of, has_identifier, may_be_pdo, shows_more,
};
use conode_explain_entries::{ChannelIds, Place, ShownPdo};
use conode_explain_transfers::Side;
use conode_record::{Content, Identifier};
use std::alloc::{AllocError, Global};

/// A COB-ID of an SDO channel other than a default one, as a data sheet has it.
#[derive(Clone, Copy)]
pub struct SheetChannel {
    /// The node that the sheet is for, if it is for one.
    pub only: Option<u8>,
    /// The index of the channel's parameter: 1201h to 12FFh.
    pub index: u16,
    /// The COB-ID.
    pub cob_id: SheetCobId,
}

fn is_parameter(index: u16) -> bool
    ensures { result ≡ is_parameter index }
{
    0x1201 <= index && index <= 0x12FF
}

// the identifier of a COB-ID that is valid, if a channel may have it
fn identifier_in(word: u64) -> Option<u16>
    ensures { result ≡ identifier_in word }
{
    let id = (word % 0x800) as u16;
    if has_identifier(word, id) && may_be_pdo(id) {
        Some(id)
    } else {
        None
    }
}

fn identifier_at(bus: Bus<'_, '_, '_, '_, '_>, node: u8, index: u16, sub: u8) -> Option<u16>
    ensures { result ≡ identifier_at (bus_view bus.entry) node index sub }
{
    match channel_word(bus, node, Key { index, sub }) {
        Some(word) => identifier_in(word),
        None => None,
    }
}

#[tactic(auto, unfolding(crate::specs::Places::ids_at))]
fn ids_at(bus: Bus<'_, '_, '_, '_, '_>, node: u8, index: u16) -> Option<ChannelIds>
    ensures { result ≡ ids_at (bus_view bus.entry) node index }
{
    let Some(request) = identifier_at(bus, node, index, 1) else {
        return None;
    };
    let Some(answer) = identifier_at(bus, node, index, 2) else {
        return None;
    };
    Some(ChannelIds { request, answer })
}

// the server of a channel; that of a client's parameter is a number from 1 to 127
fn server_at(bus: Bus<'_, '_, '_, '_, '_>, node: u8, index: u16) -> Option<u8>
    ensures { result ≡ server_at (bus_view bus.entry) node index }
{
    if index < 0x1280 {
        return Some(node);
    }
    match channel_word(bus, node, Key { index, sub: 3 }) {
        Some(server) if 1 <= server && server <= 127 => Some(server as u8),
        _ => None,
    }
}

fn side_of(ids: ChannelIds, id: u16) -> Option<Side>
    ensures { result ≡ side_of ids id }
{
    if ids.request == id {
        Some(Side::Client)
    } else if ids.answer == id {
        Some(Side::Server)
    } else {
        None
    }
}

// the channel of a parameter of a node, where a frame is of it
#[tactic(auto, unfolding(crate::specs::Places::place_at))]
fn place_at(bus: Bus<'_, '_, '_, '_, '_>, node: u8, index: u16, id: u16) -> Option<Place>
    ensures { result ≡ place_at (bus_view bus.entry) node index id }
{
    let Some(ids) = ids_at(bus, node, index) else {
        return None;
    };
    let Some(side) = side_of(ids, id) else {
        return None;
    };
    let Some(node) = server_at(bus, node, index) else {
        return None;
    };
    Some(Place { node, ids, side })
}

#[tactic(auto, unfolding(crate::specs::Places::channel_of))]
fn channel_of(only: Option<u8>, row: &EntryRow<'_>) -> Option<SheetChannel>
    ensures { result ≡ channel_of only (row_view row.now) }
{
    let Key { index, sub } = row.key;
    if !((sub == 1 || sub == 2) && is_parameter(index)) {
        return None;
    }
    let Some(cob_id) = cob_id_of(row.default) else {
        return None;
    };
    Some(SheetChannel {
        only,
        index,
        cob_id,
    })
}

fn add_channel(
    channels: &mut Vec<SheetChannel>,
    channel: Option<SheetChannel>,
) -> Result<(), AllocError>
    ensures { OnOk result (channels.new.items ≡ channels.old.items ++ option_to_list channel) }
{
    let Some(channel) = channel else {
        return Ok(());
    };
    match channels.push(channel) {
        Ok(()) => Ok(()),
        Err(_) => Err(AllocError),
    }
}

// adds the COB-IDs of channels of a sheet's rows
fn add_rows(
    channels: &mut Vec<SheetChannel>,
    only: Option<u8>,
    rows: &[EntryRow<'_>],
) -> Result<(), AllocError>
    ensures { OnOk result (channels.new.items ≡ channels.old.items
        ++ filter_map (channel_of only) (map row_view rows.now)) }
{
    for row in rows {
        attempt!(add_channel(channels, channel_of(only, row)));
    }
    Ok(())
}

fn add_channels(
    channels: &mut Vec<SheetChannel>,
    sheet: &KnownSheet<'_, '_>,
) -> Result<(), AllocError>
    ensures { OnOk result (channels.new.items ≡ channels.old.items
        ++ channels_in (known_view sheet.now)) }
{
    match sheet.names.sheet {
        Some(content) => add_rows(channels, sheet.names.only, content.entries()),
        None => Ok(()),
    }
}

#[tactic(auto, unfolding(crate::specs::Places::channels_of))]
fn add_all_channels(
    channels: &mut Vec<SheetChannel>,
    sheets: &[KnownSheet<'_, '_>],
) -> Result<(), AllocError>
    ensures { OnOk result (channels.new.items
        ≡ channels.old.items ++ channels_of (map known_view sheets.now)) }
{
    for sheet in sheets {
        attempt!(add_channels(channels, sheet));
    }
    Ok(())
}

/// The COB-IDs of SDO channels, other than the default ones, that data sheets have. On an `Err`
/// memory ran out.
pub fn channels_of(
    alloc: Global,
    sheets: &[KnownSheet<'_, '_>],
) -> Result<Vec<SheetChannel>, AllocError>
    ensures { IfOk result (λ made. made.items ≡ channels_of (map known_view sheets.now)) }
{
    let mut channels = Vec::new(alloc);
    attempt!(add_all_channels(&mut channels, sheets));
    Ok(channels)
}

#[tactic(auto, unfolding(crate::specs::Places::place_by_sheet))]
fn place_by_sheet(bus: Bus<'_, '_, '_, '_, '_>, id: u16, channel: &SheetChannel) -> Option<Place>
    ensures { result ≡ place_by_sheet (bus_view bus.entry) id channel.now }
{
    let Some(node) = channel.cob_id.node_with(channel.only, id) else {
        return None;
    };
    place_at(bus, node, channel.index, id)
}

fn place_in_sheets(
    bus: Bus<'_, '_, '_, '_, '_>,
    id: u16,
    channels: &[SheetChannel],
) -> Option<Place>
    ensures { result
        ≡ first_of (filter_map (place_by_sheet (bus_view bus.entry) id) channels.now) }
{
    for channel in channels {
        if let Some(place) = place_by_sheet(bus, id, channel) {
            return Some(place);
        }
    }
    None
}

#[tactic(auto, unfolding(crate::specs::Places::place_by_shown))]
fn place_by_shown(bus: Bus<'_, '_, '_, '_, '_>, id: u16, shown: &ShownPdo) -> Option<Place>
    ensures { result ≡ place_by_shown (bus_view bus.entry) id shown.now }
{
    if !(is_parameter(shown.index) && shown.interface.as_slice() == bus.interface) {
        return None;
    }
    place_at(bus, shown.node, shown.index, id)
}

fn place_in_shown(bus: Bus<'_, '_, '_, '_, '_>, id: u16) -> Option<Place>
    ensures { result ≡ first_of (filter_map (place_by_shown (bus_view bus.entry) id)
        (bus_view bus.entry).entries) }
{
    let pdos = bus.entries.shown();
    for shown in pdos {
        if let Some(place) = place_by_shown(bus, id, shown) {
            return Some(place);
        }
    }
    None
}

// apart from most recordings, which have none of these channels
#[inline(never)]
#[tactic(auto, unfolding(crate::specs::Places::place_in))]
fn place_in(bus: Bus<'_, '_, '_, '_, '_>, id: u16, channels: &[SheetChannel]) -> Option<Place>
    requires { channels.now ≡ channels_of (bus_view bus).sheets }
    ensures { result ≡ place_in (bus_view bus.entry) id }
{
    if !may_be_pdo(id) {
        return None;
    }
    match place_in_sheets(bus, id, channels) {
        Some(place) => Some(place),
        None => place_in_shown(bus, id),
    }
}

// whether nothing gives an SDO channel another COB-ID, as for most recordings
#[inline(always)]
fn are_default(bus: Bus<'_, '_, '_, '_, '_>, channels: &[SheetChannel]) -> bool
    requires { channels.now ≡ channels_of (bus_view bus).sheets }
    ensures { result ≡ true → (id : ℕ) → place_in (bus_view bus.entry) id ≡ None }
{
    if channels.len() > 0 {
        return false;
    }
    !shows_more(bus.entries.shown())
}

/// The SDO channel other than a default one that a frame with this identifier is of, and its end.
/// `channels` are those of the data sheets.
#[inline(always)]
pub fn place_of(
    bus: Bus<'_, '_, '_, '_, '_>,
    id: Identifier,
    content: &Content<'_>,
    channels: &[SheetChannel],
) -> Option<Place>
    requires { channels.now ≡ channels_of (bus_view bus).sheets }
    ensures { result ≡ place_of (bus_view bus.entry) id content.now }
{
    match (id, content) {
        (Identifier::Base(id), Content::Data(_)) if !are_default(bus, channels) => {
            place_in(bus, id, channels)
        }
        _ => None,
    }
}

/// The identifier as which a frame is read: that of the same end of its node's default channel.
pub fn read_as(place: Option<Place>, id: Identifier) -> Identifier
    requires { IsIdentifier id }
    ensures id { result ≡ read_as place id }
    ensures is { IsIdentifier result }
{
    let Some(place) = place else {
        return id;
    };
    match place.side {
        Side::Client => Identifier::Base(0x600 + place.node as u16),
        Side::Server => Identifier::Base(0x580 + place.node as u16),
    }
}
