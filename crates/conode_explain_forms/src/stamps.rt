//! Stamps in a table of values. Each function appends a text; on an `Err` memory ran out, and a
//! part of it may be there.

ghost use Rattle.std.specs.Prelude.{◌≡◌, ◌++◌, OnOk, string_bytes};
ghost use Rattle.conode_explain_forms.specs.Stamps.{between_text, seconds_text, stamp_field};

use co_text::push_decimal;
use conode_explain_text::{StampForm, Times, push_micros, push_moment};
use std::alloc::AllocError;

#[tactic(auto, unfolding(crate::specs::Stamps::seconds_text))]
fn push_seconds(text: &mut String, micros: u64) -> Result<(), AllocError>
    ensures { OnOk result (string_bytes text.new ≡ string_bytes text.old ++ seconds_text micros) }
{
    attempt!(push_decimal(text, micros / 1_000_000));
    attempt!(text.push_str("."));
    push_micros(text, (micros % 1_000_000) as u32)
}

fn push_between(text: &mut String, from: u64, to: u64) -> Result<(), AllocError>
    ensures { OnOk result
        (string_bytes text.new ≡ string_bytes text.old ++ between_text from to) }
{
    if from <= to {
        return push_seconds(text, to - from);
    }
    attempt!(text.push_str("-"));
    push_seconds(text, from - to)
}

/// Appends the stamp of a frame.
pub(crate) fn push_stamp(text: &mut String, form: StampForm, times: Times) -> Result<(), AllocError>
    ensures { OnOk result
        (string_bytes text.new ≡ string_bytes text.old ++ stamp_field form times) }
{
    match form {
        StampForm::Relative => push_between(text, times.first, times.now),
        StampForm::Absolute => push_seconds(text, times.now),
        StampForm::Delta => push_between(text, times.before, times.now),
        StampForm::Date => push_moment(text, times.now),
    }
}
