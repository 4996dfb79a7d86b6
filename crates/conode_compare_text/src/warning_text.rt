//! The line of a warning.

ghost use Rattle.std.specs.Prelude.{◌≡◌, OnOk, string_bytes};
ghost use Rattle.conode_compare_text.specs.WarningTexts.{warning_line, warning_text};
ghost use Rattle.conode_compare_text.specs.Values.{said_text};

use crate::value::{Said, Value, set_line};
use conode_compare_notes::Warning;
use conode_explain_values::ValueType;
use std::alloc::AllocError;

// the name of the kind, and what was seen
#[tactic(auto, unfolding(crate::specs::WarningTexts::warning_text))]
fn warning_said(value_type: ValueType, warning: Warning) -> Said
    ensures { said_text result ≡ warning_text value_type warning }
{
    match warning {
        Warning::Restarted => Said::Alone(
            "warning: restarted: a boot-up, and no reset was commanded",
        ),
        Warning::Stored(key, shown, sheet) => Said::Three(
            "warning: stored: % has % after the boot-up, the sheet %",
            Value::Key(key),
            Value::Shown(value_type, shown),
            Value::Shown(value_type, sheet),
        ),
        Warning::Changed(mismatch) => Said::Three(
            "warning: changed-after-write: % has %, written was %",
            Value::Key(mismatch.key),
            Value::Shown(value_type, mismatch.shown),
            Value::Shown(value_type, mismatch.written),
        ),
        Warning::ChangedBytes(key) => Said::One(
            "warning: changed-after-write: % has other bytes than were written",
            Value::Key(key),
        ),
        Warning::SteppedBack(micros) => Said::One(
            "warning: stepped-back: the stamp is % before the last one",
            Value::Millis(micros),
        ),
        Warning::OtherRevision(key, shown, sheet) => Said::Three(
            "warning: other-version: % has %, the sheet %",
            Value::Key(key),
            Value::Shown(value_type, shown),
            Value::Shown(value_type, sheet),
        ),
        Warning::OtherText(key) => Said::One(
            "warning: other-version: % has another text than the sheet",
            Value::Key(key),
        ),
        Warning::OddCode(code, register) => Said::Two(
            "warning: emcy-code: code %h with error register %h, of a class that CiA 301 doesn't have",
            Value::Short(code),
            Value::Byte(register),
        ),
        Warning::OtherError(shown, signalled) => Said::Two(
            "warning: emcy-history: 1003:01 has code %h, the last EMCY %h",
            Value::Short(shown),
            Value::Short(signalled),
        ),
    }
}

/// Sets a text to the line of a warning, with its line feed: the name of the recording, and the
/// number of its line. The values of an entry are shown as those of a difference. On an `Err`
/// memory ran out, and a part of it may be there.
#[tactic(auto, unfolding(crate::specs::WarningTexts::warning_line))]
pub fn set_warning_line(
    text: &mut String,
    recording: &str,
    line: u64,
    value_type: ValueType,
    warning: Warning,
) -> Result<(), AllocError>
    ensures { OnOk result
        (string_bytes text.new ≡ warning_line recording.now line value_type warning) }
{
    set_line(text, recording, line, warning_said(value_type, warning))
}
