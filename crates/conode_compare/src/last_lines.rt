//! The last lines of a comparison: how many frames have which verdict, and the values of entries.

ghost use Rattle.std.specs.Prelude.{◌≡◌, ◌∷◌, [], OnOk, map};
ghost use Rattle.co_sheet.specs.SheetViews.{row_view};
ghost use Rattle.conode_io.specs.Written.{WritesLines};
ghost use Rattle.conode_compare.specs.LastLines.{
  last_line,
  last_lines,
  sum_lines,
  unjudged_lines,
  value_lines,
  values_lines,
};
ghost use Rattle.conode_compare.specs.Views.{comparison_view};

use crate::comparing::Comparing;
use crate::writes::Settings;
use co_sheet::EntryRow;
use co_sheet_changes::shown_name;
use conode_compare_notes::Learned;
use conode_compare_pdos::number_of;
use conode_compare_text::{
    Tally, set_choices_summary, set_learned_line, set_summary, set_unjudged_line,
};
use conode_explain_values::ValueType;
use conode_io::{CmdFault, hand_over};
use std::alloc::Global;
use std::io::Write;

// writes the line that says of which services the unjudged frames are, if there are any
#[tactic(auto, using(conode_io::proofs::WriteLemmas::line_alone))]
fn write_unjudged<O: Write>(text: &mut String, tally: Tally, out: &mut O) -> Result<(), CmdFault>
    ensures { OnOk result (WritesLines (O.contents out.old) (O.contents out.new)
        (unjudged_lines tally)) }
{
    if tally.unjudged == 0 {
        return Ok(());
    }
    attempt_in_memory!(set_unjudged_line(text, tally.services));
    hand_over(text.as_bytes(), out)
}

// writes the line that counts the frames, with the number of choices, if that is asked for
#[tactic(auto, using(conode_io::proofs::WriteLemmas::line_alone))]
fn write_summary<O: Write>(
    text: &mut String,
    settings: &Settings<'_, '_>,
    comparing: &Comparing,
    out: &mut O,
) -> Result<(), CmdFault>
    ensures { OnOk result (WritesLines (O.contents out.old) (O.contents out.new)
        (last_line (comparison_view settings.now) comparing.now ∷ [])) }
{
    let node = settings.subject.node;
    let tally = comparing.tally;
    if settings.choices {
        attempt_in_memory!(set_choices_summary(text, node, tally, comparing.notes.choices));
    } else {
        attempt_in_memory!(set_summary(text, node, tally));
    }
    hand_over(text.as_bytes(), out)
}

// writes the line of an entry, if the recording showed a number of it
#[tactic(auto, using(conode_io::proofs::WriteLemmas::line_alone))]
fn write_value<O: Write>(
    text: &mut String,
    settings: &Settings<'_, '_>,
    row: &EntryRow<'_>,
    learned: &Learned,
    out: &mut O,
) -> Result<(), CmdFault>
    ensures { OnOk result (WritesLines (O.contents out.old) (O.contents out.new)
        (value_lines (comparison_view settings.now) learned.now (row_view row.now))) }
{
    let Some(width) = row.data_type.width() else {
        return Ok(());
    };
    let Some(number) = learned.number(row.key) else {
        return Ok(());
    };
    if width > 4 {
        return Ok(());
    }
    let value_type = ValueType::of(settings.originals.at(row.line), row.data_type);
    let sheet = number_of(settings.subject.node, row.default);
    let name = shown_name(row);
    attempt_in_memory!(set_learned_line(text, name, row.key, value_type, width, number, sheet));
    hand_over(text.as_bytes(), out)
}

// writes the lines of the entries of which the recording showed a number
fn write_values<O: Write>(
    text: &mut String,
    settings: &Settings<'_, '_>,
    learned: &Learned,
    out: &mut O,
) -> Result<(), CmdFault>
    ensures { OnOk result (WritesLines (O.contents out.old) (O.contents out.new)
        (values_lines (comparison_view settings.now) learned.now
        (map row_view settings.now.rows.now))) }
{
    for row in settings.rows {
        attempt!(write_value(text, settings, row, learned, out));
    }
    Ok(())
}

// writes the line that counts the frames, then, if that is asked for, the values that the recording
// showed
#[tactic(auto, using(crate::proofs::WriteLemmas::with_more, crate::proofs::WriteLemmas::without_more))]
fn write_sums<O: Write>(
    text: &mut String,
    settings: &Settings<'_, '_>,
    comparing: &Comparing,
    out: &mut O,
) -> Result<(), CmdFault>
    ensures { OnOk result (WritesLines (O.contents out.old) (O.contents out.new)
        (sum_lines (comparison_view settings.now) comparing.now)) }
{
    attempt!(write_summary(text, settings, comparing, out));
    if settings.learned {
        attempt!(write_values(text, settings, &comparing.notes.learned, out));
    }
    Ok(())
}

/// Writes of which services the unjudged frames are, then how many frames have which verdict, then,
/// if that is asked for, the values that the recording showed.
///
/// * `Write`: `out` failed. `Memory`: memory ran out.
#[tactic(auto, using(conode_io::proofs::WriteLemmas::lines_after))]
pub(crate) fn write_last_lines<O: Write>(
    alloc: Global,
    settings: &Settings<'_, '_>,
    comparing: &Comparing,
    out: &mut O,
) -> Result<(), CmdFault>
    ensures { OnOk result (WritesLines (O.contents out.old) (O.contents out.new)
        (last_lines (comparison_view settings.now) comparing.now)) }
{
    let mut text = String::new(alloc);
    attempt!(write_unjudged(&mut text, comparing.tally, out));
    write_sums(&mut text, settings, comparing, out)
}
