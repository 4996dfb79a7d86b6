//! What the parameters of SDO channels have.

ghost use Rattle.std.specs.Prelude.{◌≡◌};
ghost use Rattle.co_sheet_changes.specs.Names.{names_view};
ghost use Rattle.conode_explain_cob_ids.specs.Buses.{bus_view, state_at};
ghost use Rattle.conode_explain_cob_ids.specs.ChannelWords.{channel_word, sheet_number, shown_in};

use crate::bus::Bus;
use crate::cob_id::cob_id_of;
use crate::origin::value_at;
use co_sheet_changes::Names;
use co_value::Key;
use conode_explain_entries::Value;

#[tactic(auto, unfolding(crate::specs::ChannelWords::sheet_number))]
fn sheet_number(names: Names<'_, '_>, node: u8, key: Key) -> Option<u64>
    ensures { result ≡ sheet_number (names_view names.entry) node key }
{
    let Some(row) = names.entry(node, key) else {
        return None;
    };
    let Some(cob_id) = cob_id_of(row.default) else {
        return None;
    };
    Some(cob_id.word_for(node as u64))
}

/// What the recording shows of an entry that is kept by its sub-index.
pub(crate) fn shown_at(bus: Bus<'_, '_, '_, '_, '_>, node: u8, key: Key) -> Value
    ensures { result ≡ shown_in (state_at (bus_view bus.entry) node key.index) key.sub }
{
    match bus.state(node, key.index) {
        Some(state) => value_at(&state.now.mapping, key.sub as usize),
        None => Value::Assumed,
    }
}

/// The number that an entry of an SDO channel's parameter has, 1201h to 12FFh, by a node's data
/// sheet and by what the recording shows; `None` where it isn't known.
#[tactic(auto, unfolding(crate::specs::ChannelWords::channel_word))]
pub fn channel_word(bus: Bus<'_, '_, '_, '_, '_>, node: u8, key: Key) -> Option<u64>
    ensures { result ≡ channel_word (bus_view bus.entry) node key }
{
    match shown_at(bus, node, key) {
        Value::Assumed => sheet_number(bus.names(node), node, key),
        Value::Seen { number } => Some(number as u64),
        Value::Saved { number } => Some(number as u64),
        Value::Unknown => None,
    }
}
