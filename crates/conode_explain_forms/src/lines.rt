//! The lines of frames.

ghost use Rattle.std.specs.Prelude.{◌≡◌, ◌++◌, ◌≤◌, OnOk, IfOk, is_some, length, string_bytes};
ghost use Rattle.std.specs.List.{flat_map};
ghost use Rattle.conode_explain_cob_ids.specs.Buses.{bus_view};
ghost use Rattle.conode_explain_forms.specs.Fields.{field_of};
ghost use Rattle.conode_explain_forms.specs.Lines.{after_comma, has_one, signal_line};

use crate::fields::push_field;
use crate::signal::Signal;
use crate::stamps::push_stamp;
use conode_explain_cob_ids::{Bus, Claim};
use conode_explain_text::{StampForm, Times};
use conode_explain_transfers::Told;
use std::alloc::AllocError;

fn push_after_comma<'b>(
    text: &mut String,
    bus: Bus<'b, 'b, 'b, 'b, 'b>,
    claims: &[Claim],
    bytes: &[u8],
    told: &Option<Told>,
    signal: Signal,
) -> Result<bool, AllocError>
    requires { length bytes.now ≤ 8 }
    ensures has { IfOk result (λ has. has
        ≡ is_some (field_of (bus_view bus.entry) claims.now bytes.now told.now signal)) }
    ensures text { OnOk result (string_bytes text.new ≡ string_bytes text.old
        ++ after_comma (field_of (bus_view bus.entry) claims.now bytes.now told.now) signal) }
{
    attempt!(text.push_str(","));
    push_field(text, bus, claims, bytes, told, signal)
}

// Appends the field of each signal, and returns whether the frame has a value of one.
fn push_fields<'b>(
    text: &mut String,
    bus: Bus<'b, 'b, 'b, 'b, 'b>,
    claims: &[Claim],
    bytes: &[u8],
    told: &Option<Told>,
    signals: &[Signal],
) -> Result<bool, AllocError>
    requires { length bytes.now ≤ 8 }
    ensures has { IfOk result (λ has. has
        ≡ has_one (field_of (bus_view bus.entry) claims.now bytes.now told.now) signals.now) }
    ensures text { OnOk result (string_bytes text.new ≡ string_bytes text.old
        ++ flat_map (after_comma (field_of (bus_view bus.entry) claims.now bytes.now told.now))
        signals.now) }
{
    let mut has = false;
    for signal in signals {
        let here = attempt_value!(push_after_comma(text, bus, claims, bytes, told, *signal));
        has = has || here;
    }
    Ok(has)
}

/// Sets `text` to the line of a frame in a table of the values of signals: its stamp in seconds,
/// the value of each signal that it has, and a line feed, as `1.250000,1000,`. The frame has these
/// bytes, is these PDOs, and `told` is what its SDO channel says about it: it has the values that
/// PDOs carry by the mapping in force, and that of an SDO transfer that is done with it, of up to
/// 64 bytes. Returns whether it has one. On an `Err` memory ran out, and the line is incomplete.
#[tactic(auto, unfolding(crate::specs::Lines::signal_line))]
pub fn set_signal_line<'b>(
    text: &mut String,
    form: StampForm,
    times: Times,
    bus: Bus<'b, 'b, 'b, 'b, 'b>,
    claims: &[Claim],
    bytes: &[u8],
    told: &Option<Told>,
    signals: &[Signal],
) -> Result<bool, AllocError>
    requires { length bytes.now ≤ 8 }
    ensures has { IfOk result (λ has. has
        ≡ has_one (field_of (bus_view bus.entry) claims.now bytes.now told.now) signals.now) }
    // Each field has the bits of its signal at the offset in the mapping in force, or the bytes
    // of the transfer.
    ensures line { OnOk result (string_bytes text.new ≡ signal_line form times
        (field_of (bus_view bus.entry) claims.now bytes.now told.now) signals.now) }
{
    text.clear();
    attempt!(push_stamp(text, form, times));
    let has = attempt_value!(push_fields(text, bus, claims, bytes, told, signals));
    attempt!(text.push_str("\n"));
    Ok(has)
}
