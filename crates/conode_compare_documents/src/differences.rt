//! The differences, each with the lines of the recording around it. Each function appends a text.
//! `Err`: out of memory; a part of it may be there.

ghost use Rattle.std.specs.Prelude.{◌≡◌};
ghost use Rattle.std.specs.List.{flat_map};
ghost use Rattle.conode_json.specs.Appended.{Appended};
ghost use Rattle.conode_compare_documents.specs.Indexed.{indexed};
ghost use Rattle.conode_compare_documents.specs.Differences.{
  after_name,
  context_line,
  difference,
  difference_row,
  difference_table,
  differences,
  list_end,
  row_cells,
};

use crate::words::finding_words;
use conode_compare_report::{ContextLine, Kind, Noted, Report};
use conode_json::{Markup, Value};
use std::alloc::Global;

/// The section up to the rows of its table.
const OPENING: &str = "<section>\n\
    <h2>Differences</h2>\n\
    <table class=\"differences\">\n\
    <thead><tr><th class=\"n\">Line</th><th class=\"n\">Seconds</th>\
    <th>Difference</th><th>Prescribed</th></tr></thead>\n";

/// The section of a comparison without a difference.
const NONE: &str = "<section>\n<h2>Differences</h2>\n<p>None was found.</p>\n</section>\n";

// a text without the name that it begins with
fn after_name<'t>(name: &str, text: &'t [u8]) -> &'t [u8]
    ensures { result.now ≡ after_name name.now text.now }
{
    let begin = (name.len() + 2).min(text.len());
    &text[begin..]
}

// a line of the recording with its number, marked if it has the number of the difference's
#[tactic(auto, unfolding(crate::specs::Differences::context_line))]
fn push_context_line(page: &mut Markup, number: u64, line: &ContextLine)
    ensures { Appended page.old (context_line number line.now) page.new }
{
    let marked = line.number == number;
    page.put(
        "%%: %%",
        &[
            Value::Either(marked, "<mark>", ""),
            Value::Number(line.number),
            Value::Text(line.bytes.as_slice()),
            Value::Either(marked, "\n</mark>", "\n"),
        ],
    );
}

fn push_context(page: &mut Markup, number: u64, lines: &[ContextLine])
    ensures { Appended page.old (flat_map (context_line number) lines.now) page.new }
{
    for line in lines {
        push_context_line(page, number, line);
    }
}

fn push_cells(page: &mut Markup, begin: u64, at: usize, noted: &Noted, said: &[u8])
    ensures { Appended page.old (row_cells begin at noted.now said.now) page.new }
{
    let kind = Kind::of(noted.finding);
    page.put(
        "<tbody class=\"one\" id=\"d%\">\n<tr><td class=\"n\" data-is=\"Line\">%</td>\
        <td class=\"n\" data-is=\"Seconds\">%</td><td><span class=\"found\">%</span> %</td>\
        <td data-is=\"Prescribed:\">%</td></tr>\n<tr class=\"around\"><td colspan=\"4\"><pre>",
        &[
            Value::Number(at as u64),
            Value::Number(noted.line),
            Value::Seconds(noted.micros.saturating_sub(begin)),
            Value::Words(kind.name()),
            Value::Text(said),
            Value::Words(kind.rule()),
        ],
    );
}

// the row of a difference, up to the lines around it
fn push_row(alloc: Global, page: &mut Markup, report: &Report, at: usize, noted: &Noted)
    ensures { Appended page.old (difference_row report.now at noted.now) page.new }
{
    match finding_words(alloc, noted) {
        Ok(whole) => {
            let said = after_name(Kind::of(noted.finding).name(), whole.as_bytes());
            push_cells(page, report.lanes.begin, at, noted, said);
        }
        Err(_) => page.fail(),
    }
}

fn push_difference(alloc: Global, page: &mut Markup, report: &Report, at: usize, noted: &Noted)
    ensures { Appended page.old (difference report.now at noted.now) page.new }
{
    push_row(alloc, page, report, at, noted);
    push_context(page, noted.line, report.around(noted));
    page.put_words("</pre></td></tr>\n</tbody>\n");
}

// the end of the table, and how many differences aren't in it
fn push_end(page: &mut Markup, unlisted: u64)
    ensures { Appended page.old (list_end unlisted) page.new }
{
    if unlisted == 0 {
        return page.put_words("</table>\n</section>\n");
    }
    page.put(
        "</table>\n<p>% more came after these, and aren't listed.</p>\n</section>\n",
        &[Value::Number(unlisted)],
    )
}

fn push_rows(alloc: Global, page: &mut Markup, report: &Report, noted: &[Noted])
    ensures { Appended page.old (indexed (difference report.now) 0 noted.now) page.new }
{
    for (at, one) in noted.iter().enumerate() {
        push_difference(alloc, page, report, at, one);
    }
}

fn push_table(alloc: Global, page: &mut Markup, report: &Report)
    ensures { Appended page.old (difference_table report.now) page.new }
{
    page.put_words(OPENING);
    push_rows(alloc, page, report, report.noted.as_slice());
    push_end(page, report.unlisted);
}

/// Appends the differences.
pub(crate) fn push_differences(alloc: Global, page: &mut Markup, report: &Report)
    ensures { Appended page.old (differences report.now) page.new }
{
    if report.noted.is_empty() {
        page.put_words(NONE);
    } else {
        push_table(alloc, page, report);
    }
}
