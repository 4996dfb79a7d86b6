//! Identifiers of the pre-defined connection set whose node has another COB-ID for their service.

ghost use Rattle.std.specs.Prelude.{◌≡◌, ◌++◌, OnOk, string_bytes};
ghost use Rattle.conode_explain_entries.specs.MovedIds.{
  cob_id_in,
  has_identifier,
  index_for,
  is_other,
  moved_at,
  moved_by,
  moved_in,
  moved_words,
};

use crate::entries::Entries;
use crate::state::{PdoState, Value};
use co_profile::EMERGENCY_COB_ID;
use conode_text::{Value as Text, push_filled};
use std::alloc::AllocError;

/// A node whose COB-ID isn't the identifier that the pre-defined connection set has for it.
#[derive(Clone, Copy)]
pub struct MovedId {
    /// The node-ID.
    pub node: u8,
    /// The entry with the COB-ID: 1014h, or the communication parameter of a PDO.
    pub index: u16,
}

// by the function code, an identifier in steps of 128
#[tactic(auto, unfolding(crate::specs::MovedIds::index_for))]
fn index_for(code: u16) -> Option<u16>
    ensures { result ≡ index_for code }
{
    match code {
        1 => Some(EMERGENCY_COB_ID),
        3 => Some(0x1800),
        4 => Some(0x1400),
        5 => Some(0x1801),
        6 => Some(0x1401),
        7 => Some(0x1802),
        8 => Some(0x1402),
        9 => Some(0x1803),
        10 => Some(0x1403),
        _ => None,
    }
}

fn cob_id_in(state: &PdoState, index: u16) -> Value
    ensures { result ≡ cob_id_in state.entry.now index }
{
    if index == EMERGENCY_COB_ID {
        state.now.mapping[0]
    } else {
        state.now.cob_id
    }
}

fn has_identifier(word: u32, id: u16) -> bool
    ensures { result ≡ has_identifier word id }
{
    (word < 0x8000_0000 && word / 0x2000_0000 % 2 == 0) && word % 0x800 == id as u32
}

fn is_other(value: Value, id: u16) -> bool
    ensures { result ≡ is_other value id }
{
    match value {
        Value::Seen { number } => !has_identifier(number, id),
        Value::Saved { number } => !has_identifier(number, id),
        Value::Assumed | Value::Unknown => false,
    }
}

fn moved_by(node: u8, index: u16, id: u16, state: &PdoState) -> Option<MovedId>
    ensures { result ≡ moved_by node index id state.entry.now }
{
    if is_other(cob_id_in(state, index), id) {
        return Some(MovedId { node, index });
    }
    None
}

impl Entries {
    fn moved_at(&self, interface: &[u8], id: u16, index: u16) -> Option<MovedId>
        ensures { result ≡ moved_at self.now interface.now id index }
    {
        let node = (id % 128) as u8;
        match self.state(interface, node, index) {
            Some(state) => moved_by(node, index, id, state),
            None => None,
        }
    }

    /// The node of an identifier of 11 bits in the pre-defined connection set, where the recording
    /// shows that its emergencies or its PDO have another COB-ID; `None` where it shows none.
    #[tactic(auto, unfolding(crate::specs::MovedIds::moved_in))]
    pub fn moved(&self, interface: &[u8], id: u16) -> Option<MovedId>
        ensures { result ≡ moved_in self.now interface.now id }
    {
        match index_for(id / 128) {
            Some(index) => self.moved_at(interface, id, index),
            None => None,
        }
    }
}

/// Appends what is said of a frame with such an identifier: `not TPDO1 node 5 (by its COB-ID)`. On an
/// `Err` memory ran out, and a part of it may be there.
#[tactic(auto, unfolding(crate::specs::MovedIds::moved_words))]
pub fn push_moved(text: &mut String, moved: MovedId) -> Result<(), AllocError>
    ensures { OnOk result
        (string_bytes text.new ≡ string_bytes text.old ++ moved_words moved) }
{
    let node = Text::Number(moved.node as u64);
    if moved.index == EMERGENCY_COB_ID {
        return push_filled(text, "not EMCY node % (by its COB-ID)", &[node]);
    }
    if moved.index < 0x1800 {
        let number = Text::Number(moved.index.saturating_sub(0x13FF) as u64);
        return push_filled(text, "not RPDO% node % (by its COB-ID)", &[number, node]);
    }
    let number = Text::Number(moved.index.saturating_sub(0x17FF) as u64);
    push_filled(text, "not TPDO% node % (by its COB-ID)", &[number, node])
}
