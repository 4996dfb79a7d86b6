//! The lines of differences.

ghost use Rattle.std.specs.Prelude.{◌≡◌, OnOk, Some, true};
ghost use Rattle.std.specs.List.{AllPairs};
ghost use Rattle.co_value.specs.Keys.{is_key_before};
ghost use Rattle.conode_io.specs.Written.{WritesLines};
ghost use Rattle.conode_compare.specs.Compared.{
  findings_lines,
  listed,
  noted_lines,
  shown_lines,
  shown_type,
  type_at,
  warned_type,
  warning_lines,
};
ghost use Rattle.conode_compare.specs.Views.{comparison_view};

use crate::notes::{Noted, write_choice};
use co_sheet::EntryRow;
use co_sheet_changes::{Originals, row_at};
use co_value::{DataType, Key};
use conode_compare_nmt::{Finding, Subject};
use conode_compare_notes::Warning;
use conode_compare_report::SheetNames;
use conode_compare_rules::Findings;
use conode_compare_text::{Details, set_finding_line, set_warning_line};
use conode_compare_values::Mismatch;
use conode_explain_values::ValueType;
use conode_io::{CmdFault, hand_over};
use std::io::Write;

/// What is compared.
#[derive(Drop)]
pub struct Settings<'s, 'a> {
    /// The device.
    pub subject: Subject,
    /// The entries of its data sheet, in increasing key.
    pub rows: &'s [EntryRow<'a>],
    /// The original data types of these entries, where the sheet was adapted.
    pub originals: &'s Originals,
    /// The names that its data sheet has of vendor and product, for a document.
    pub names: SheetNames<'s>,
    /// The name of the recording, for the lines.
    pub recording: &'s str,
    /// The interface whose frames are compared; `None`: that of the first frame.
    pub interface: Option<&'s [u8]>,
    /// Whether choices have lines.
    pub choices: bool,
    /// Whether the values of entries are kept.
    pub learned: bool,
}

// the data type of the values of an entry: its original one, where the sheet was adapted
fn type_at(settings: &Settings<'_, '_>, key: Key) -> ValueType
    requires { AllPairs (λ e f. is_key_before e.key f.key ≡ true) settings.now.rows.now }
    ensures { result ≡ type_at (comparison_view settings.now) key }
{
    match row_at(settings.rows, key) {
        Some(row) => ValueType::of(settings.originals.at(row.line), row.data_type),
        None => ValueType::Plain(DataType::Unsigned32),
    }
}

/// The data type in which the values of a difference are shown.
pub(crate) fn shown_type(settings: &Settings<'_, '_>, finding: Finding) -> ValueType
    requires { AllPairs (λ e f. is_key_before e.key f.key ≡ true) settings.now.rows.now }
    ensures { result ≡ shown_type (comparison_view settings.now) finding }
{
    match finding {
        Finding::Value(Mismatch::ValueConst(key, _, _)) => type_at(settings, key),
        Finding::Held(mismatch) => type_at(settings, mismatch.key),
        _ => ValueType::Plain(DataType::Unsigned32),
    }
}

// Writes the line of a difference. Apart from `write_listed`, since few frames have one.
#[inline(never)]
#[tactic(auto, using(conode_io::proofs::WriteLemmas::line_alone))]
fn write_finding<W: Write>(
    text: &mut String,
    settings: &Settings<'_, '_>,
    number: u64,
    details: &Details,
    finding: Finding,
    out: &mut W,
) -> Result<(), CmdFault>
    ensures { OnOk result (WritesLines (W.contents out.old) (W.contents out.new)
        (listed (comparison_view settings.now) number details.now (Some finding))) }
{
    attempt_in_memory!(set_finding_line(text, settings.recording, number, *details, finding));
    hand_over(text.as_bytes(), out)
}

// Writes the line of a difference, if there is one.
#[inline(always)]
fn write_listed<W: Write>(
    text: &mut String,
    settings: &Settings<'_, '_>,
    number: u64,
    details: &Details,
    finding: &Option<Finding>,
    out: &mut W,
) -> Result<(), CmdFault>
    ensures { OnOk result (WritesLines (W.contents out.old) (W.contents out.new)
        (listed (comparison_view settings.now) number details.now finding.now)) }
{
    match finding {
        Some(finding) => write_finding(text, settings, number, details, *finding, out),
        None => Ok(()),
    }
}

// Writes the lines of what is found at a line of the recording.
#[tactic(auto, unfolding(crate::specs::Compared::findings_lines), using(crate::proofs::WriteLemmas::four))]
fn write_findings<W: Write>(
    text: &mut String,
    settings: &Settings<'_, '_>,
    number: u64,
    details: &Details,
    found: &Findings,
    out: &mut W,
) -> Result<(), CmdFault>
    ensures lines { OnOk result (WritesLines (W.contents out.old) (W.contents out.new)
        (findings_lines (comparison_view settings.now) number details.now found.now)) }
{
    attempt!(write_listed(text, settings, number, details, &found.boot, out));
    attempt!(write_listed(text, settings, number, details, &found.heartbeat, out));
    attempt!(write_listed(text, settings, number, details, &found.answer, out));
    write_listed(text, settings, number, details, &found.frame, out)
}

// the data type in which the values of a warning are shown
fn warned_type(settings: &Settings<'_, '_>, warning: Warning) -> ValueType
    requires { AllPairs (λ e f. is_key_before e.key f.key ≡ true) settings.now.rows.now }
    ensures { result ≡ warned_type (comparison_view settings.now) warning }
{
    match warning {
        Warning::Stored(key, _, _) | Warning::OtherRevision(key, _, _) => type_at(settings, key),
        Warning::Changed(mismatch) => type_at(settings, mismatch.key),
        Warning::Restarted
        | Warning::SteppedBack(_)
        | Warning::ChangedBytes(_)
        | Warning::OtherText(_)
        | Warning::OddCode(_, _)
        | Warning::OtherError(_, _) => ValueType::Plain(DataType::Unsigned32),
    }
}

// Writes the line of a warning, if there is one.
#[tactic(auto, using(conode_io::proofs::WriteLemmas::line_alone))]
fn write_warning<W: Write>(
    text: &mut String,
    settings: &Settings<'_, '_>,
    number: u64,
    warning: Option<Warning>,
    out: &mut W,
) -> Result<(), CmdFault>
    requires { AllPairs (λ e f. is_key_before e.key f.key ≡ true) settings.now.rows.now }
    ensures lines { OnOk result (WritesLines (W.contents out.old) (W.contents out.new)
        (warning_lines (comparison_view settings.now) number warning)) }
{
    match warning {
        Some(warning) => {
            let value_type = warned_type(settings, warning);
            attempt_in_memory!(set_warning_line(
                text,
                settings.recording,
                number,
                value_type,
                warning
            ));
            hand_over(text.as_bytes(), out)
        }
        None => Ok(()),
    }
}

// Writes the lines of what is noted at a line of the recording.
#[tactic(auto, unfolding(crate::specs::Compared::noted_lines), using(conode_io::proofs::WriteLemmas::lines_after))]
fn write_noted<W: Write>(
    text: &mut String,
    settings: &Settings<'_, '_>,
    number: u64,
    noted: &Noted,
    out: &mut W,
) -> Result<(), CmdFault>
    requires { AllPairs (λ e f. is_key_before e.key f.key ≡ true) settings.now.rows.now }
    ensures lines { OnOk result (WritesLines (W.contents out.old) (W.contents out.new)
        (noted_lines (comparison_view settings.now) number noted.now)) }
{
    attempt!(write_warning(text, settings, number, noted.warning, out));
    write_choice(text, settings.recording, number, noted.choice, out)
}

/// Writes the lines of what is found at a line of the recording, then those of what is noted at it:
/// of most nothing. Apart from `take_frame`, which would take what is found to pieces for it.
#[inline(never)]
#[tactic(auto, unfolding(crate::specs::Compared::shown_lines), using(conode_io::proofs::WriteLemmas::lines_after))]
pub(crate) fn write_shown<W: Write>(
    text: &mut String,
    settings: &Settings<'_, '_>,
    number: u64,
    details: &Details,
    found: &Findings,
    noted: &Noted,
    out: &mut W,
) -> Result<(), CmdFault>
    requires { AllPairs (λ e f. is_key_before e.key f.key ≡ true) settings.now.rows.now }
    ensures lines { OnOk result (WritesLines (W.contents out.old) (W.contents out.new)
        (shown_lines (comparison_view settings.now) number details.now found.now noted.now)) }
{
    attempt!(write_findings(text, settings, number, details, found, out));
    write_noted(text, settings, number, noted, out)
}
