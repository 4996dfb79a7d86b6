//! What data say as PDOs.

ghost use Rattle.std.specs.Prelude.{◌≡◌, ◌≤◌, ◌++◌, OnOk, decimal, length, string_bytes};
ghost use Rattle.std.specs.Option.{option_copied};
ghost use Rattle.conode_explain_cob_ids.specs.Buses.{bus_view};
ghost use Rattle.conode_explain_pdo.specs.Pdos.{
  assumed_mark,
  cob_id_at,
  more_pdos,
  pdo_by,
  pdo_front,
  pdo_text,
  pdos_text,
};

use crate::in_force::push_data_in_force;
use co_text::push_decimal;
use conode_explain_cob_ids::{Bus, Claim, SheetMapping, is_assumed, sheet_mapping};
use conode_explain_entries::{PdoState, Value};
use std::alloc::AllocError;

fn push_numbered(text: &mut String, words: &str, number: u64) -> Result<(), AllocError>
    ensures { OnOk result
        (string_bytes text.new ≡ string_bytes text.old ++ words.now ++ decimal number) }
{
    attempt!(text.push_str(words));
    push_decimal(text, number)
}

#[tactic(auto, unfolding(crate::specs::Pdos::pdo_front))]
fn push_front(text: &mut String, index: u16, node: u8) -> Result<(), AllocError>
    ensures { OnOk result
        (string_bytes text.new ≡ string_bytes text.old ++ pdo_front index node) }
{
    if index < 0x1800 {
        let number = index.saturating_sub(0x13FF) as u64;
        attempt!(push_numbered(text, "RPDO", number));
    } else {
        let number = index.saturating_sub(0x17FF) as u64;
        attempt!(push_numbered(text, "TPDO", number));
    }
    push_numbered(text, " node ", node as u64)
}

fn cob_id_at(state: Option<&PdoState>) -> Value
    ensures { result ≡ cob_id_at (option_copied state.entry) }
{
    match state {
        Some(state) => state.now.cob_id,
        None => Value::Assumed,
    }
}

fn assumed_mark(assumed: bool) -> &'static str
    ensures { result.now ≡ assumed_mark assumed }
{
    if assumed { "~" } else { "" }
}

// by its mapping in the sheet and what the recording shows
#[tactic(auto, unfolding(crate::specs::Pdos::pdo_by))]
fn push_pdo_by(
    text: &mut String,
    bus: Bus<'_, '_, '_, '_, '_>,
    bytes: &[u8],
    claim: Claim,
    sheet: Option<&SheetMapping>,
    state: Option<&PdoState>,
) -> Result<(), AllocError>
    requires { length bytes.now ≤ 8 }
    ensures { OnOk result (string_bytes text.new ≡ string_bytes text.old
        ++ pdo_by (bus_view bus.entry) bytes.now claim
        (option_copied sheet.entry) (option_copied state.entry)) }
{
    let mark = assumed_mark(is_assumed(sheet, cob_id_at(state)));
    attempt!(text.push_str(mark));
    attempt!(push_front(text, claim.index, claim.node));
    push_data_in_force(text, bus, claim.node, sheet, state, bytes)
}

#[tactic(auto, unfolding(crate::specs::Pdos::pdo_text))]
fn push_pdo(
    text: &mut String,
    bus: Bus<'_, '_, '_, '_, '_>,
    bytes: &[u8],
    claim: Claim,
) -> Result<(), AllocError>
    requires { length bytes.now ≤ 8 }
    ensures { OnOk result (string_bytes text.new
        ≡ string_bytes text.old ++ pdo_text (bus_view bus.entry) bytes.now claim) }
{
    let sheet = sheet_mapping(bus, claim.node, claim.index);
    let state = bus.state(claim.node, claim.index);
    push_pdo_by(text, bus, bytes, claim, sheet, state)
}

#[tactic(auto, unfolding(crate::specs::Pdos::more_pdos))]
fn push_more(
    text: &mut String,
    bus: Bus<'_, '_, '_, '_, '_>,
    bytes: &[u8],
    claims: &[Claim],
) -> Result<(), AllocError>
    requires { length bytes.now ≤ 8 }
    ensures { OnOk result (string_bytes text.new
        ≡ string_bytes text.old ++ more_pdos (bus_view bus.entry) bytes.now claims.now) }
{
    for claim in claims {
        attempt!(text.push_str(" | "));
        attempt!(push_pdo(text, bus, bytes, *claim));
    }
    Ok(())
}

/// Appends what data say as each of these PDOs: `TPDO1 node 5: Temperature 2001:01 = 1000; Humidity
/// 2001:02 = 10000`, with a bar between two. On an `Err` memory ran out, and a part of it may be
/// there.
#[tactic(auto, unfolding(crate::specs::Pdos::pdos_text))]
pub fn push_pdos(
    text: &mut String,
    bus: Bus<'_, '_, '_, '_, '_>,
    bytes: &[u8],
    claims: &[Claim],
) -> Result<(), AllocError>
    requires { length bytes.now ≤ 8 }
    // Each entry is shown with the bits at its offset in the mapping in force.
    ensures { OnOk result (string_bytes text.new
        ≡ string_bytes text.old ++ pdos_text (bus_view bus.entry) bytes.now claims.now) }
{
    match claims {
        [] => Ok(()),
        [claim, more @ ..] => {
            attempt!(push_pdo(text, bus, bytes, *claim));
            push_more(text, bus, bytes, more)
        }
    }
}
