//! The clients of a device's SDO channels other than the default one, which may write each entry
//! (CiA 301, 7.5.2.33).

ghost use Rattle.std.specs.Prelude.{◌≡◌, map};
ghost use Rattle.co_sheet.specs.SheetViews.{row_view};
ghost use Rattle.conode_compare_nmt.specs.OtherClients.{
  client_id,
  clients_of,
  clients_with,
  has_clients,
  has_hidden_channel,
  is_apart,
  is_channel,
  is_hidden,
  is_of_device,
  is_open_channel,
  may_send,
  no_clients,
};

use co_sheet::EntryRow;
use co_value::Key;
use conode_compare_pdos::{may_have, number_of};

/// The identifiers of the frames of these clients, by the data sheet: none where the lowest is above
/// the highest. A frame with any identifier between the two counts as one of theirs.
#[derive(Clone, Copy)]
pub struct OtherClients {
    /// The lowest of their identifiers.
    pub lowest: u16,
    /// The highest of them.
    pub highest: u16,
}

/// Whether an entry is a parameter of an SDO channel of the device other than the default one, 1201h
/// to 127Fh (CiA 301, 7.5.2.33), whose client may write each entry.
pub fn is_channel(key: Key) -> bool
    ensures { result ≡ is_channel key }
{
    0x1201 <= key.index && key.index <= 0x127F
}

// whether such a channel has a valid COB-ID of its client
fn is_open_channel(row: &EntryRow<'_>, node: u8) -> bool
    ensures { result ≡ is_open_channel node (row_view row.now) }
{
    if !is_channel(row.key) || row.key.sub != 1 {
        return false;
    }
    match number_of(node, row.default) {
        Some(number) => 0 < number && number < 0x8000_0000,
        None => false,
    }
}

// whether an identifier is one of the device's EMCY, default SDO channel or error control
fn is_of_device(node: u8, id: u16) -> bool
    ensures { result ≡ is_of_device node id }
{
    let node = node as u16;
    id == 0x80 + node || id == 0x580 + node || id == 0x600 + node || id == 0x700 + node
}

// whether frames with a COB-ID that is valid can be told from those of the device
fn is_apart(rows: &[EntryRow<'_>], node: u8, number: u64) -> bool
    ensures { result ≡ is_apart (map row_view rows.now) node number }
{
    if number >= 0x800 {
        return false;
    }
    let id = number as u16;
    !is_of_device(node, id) && !may_have(rows, node, id)
}

// the identifier of the client's frames on a channel that is open, where these can be told
fn client_id(rows: &[EntryRow<'_>], node: u8, row: &EntryRow<'_>) -> Option<u16>
    ensures { result ≡ client_id (map row_view rows.now) node (row_view row.now) }
{
    if !is_open_channel(row, node) {
        return None;
    }
    match number_of(node, row.default) {
        Some(number) if is_apart(rows, node, number) => Some(number as u16),
        _ => None,
    }
}

fn is_hidden(rows: &[EntryRow<'_>], node: u8, row: &EntryRow<'_>) -> bool
    ensures { result ≡ is_hidden (map row_view rows.now) node (row_view row.now) }
{
    is_open_channel(row, node) && client_id(rows, node, row).is_none()
}

/// Whether a data sheet has such a channel open on which the client's frames can't be told.
pub(crate) fn has_hidden_channel(rows: &[EntryRow<'_>], node: u8) -> bool
    ensures { result ≡ has_hidden_channel (map row_view rows.now) node }
{
    for row in rows {
        if is_hidden(rows, node, row) {
            return true;
        }
    }
    false
}

impl OtherClients {
    // no such channel is open
    fn none() -> OtherClients
        ensures { result ≡ no_clients }
    {
        OtherClients {
            lowest: 0x800,
            highest: 0,
        }
    }

    // with the identifier of one more
    fn with(self, id: Option<u16>) -> OtherClients
        ensures { result ≡ clients_with self id }
    {
        match id {
            Some(id) => OtherClients {
                lowest: if id < self.lowest { id } else { self.lowest },
                highest: if self.highest < id { id } else { self.highest },
            },
            None => self,
        }
    }

    /// Those of a data sheet.
    pub(crate) fn of(rows: &[EntryRow<'_>], node: u8) -> OtherClients
        ensures { result ≡ clients_of (map row_view rows.now) node }
    {
        let mut clients = OtherClients::none();
        for row in rows {
            clients = clients.with(client_id(rows, node, row));
        }
        clients
    }

    /// Whether there are any.
    pub fn are_any(self) -> bool
        ensures { result ≡ has_clients self }
    {
        self.lowest <= self.highest
    }

    /// Whether a frame with this identifier, of 11 bits, may be one of theirs.
    pub fn may_send(self, id: u16) -> bool
        ensures { result ≡ may_send self id }
    {
        self.lowest <= id && id <= self.highest
    }
}
