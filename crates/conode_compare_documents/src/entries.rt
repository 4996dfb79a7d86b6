//! Which entries of the data sheet a recording transfers. Each function appends a text. `Err`: out
//! of memory; a part of it may be there.

ghost use Rattle.std.specs.Prelude.{◌≡◌, map};
ghost use Rattle.co_sheet.specs.SheetViews.{row_view};
ghost use Rattle.conode_json.specs.Appended.{Appended};
ghost use Rattle.conode_compare_documents.specs.Coverage.{
  covered_at,
  entries_text,
  entry_end,
  entry_item,
  entry_items,
  entry_text,
  is_listed,
  is_transferred,
  transferred_count,
};

use co_sheet::EntryRow;
use conode_compare_report::Covered;
use conode_json::{Markup, Value};

// the end of an entry's item: which transfers came, in words
fn entry_end(covered: Covered) -> &'static str
    ensures { result.now ≡ entry_end covered }
{
    if covered.read {
        if covered.written {
            if covered.refused {
                "<b>read, written, refused</b></li>\n"
            } else {
                "<b>read, written</b></li>\n"
            }
        } else if covered.refused {
            "<b>read, refused</b></li>\n"
        } else {
            "<b>read</b></li>\n"
        }
    } else if covered.written {
        if covered.refused {
            "<b>written, refused</b></li>\n"
        } else {
            "<b>written</b></li>\n"
        }
    } else if covered.refused {
        "<b>refused</b></li>\n"
    } else {
        "</li>\n"
    }
}

fn is_transferred(covered: Covered) -> bool
    ensures { result ≡ is_transferred covered }
{
    covered.read || covered.written || covered.refused
}

// whether an entry is in the list of those that were transferred, or in that of the others
fn is_listed(transferred: bool, covered: Covered) -> bool
    ensures { result ≡ is_listed transferred covered }
{
    if transferred {
        is_transferred(covered)
    } else {
        !is_transferred(covered)
    }
}

fn covered_at(entries: &[Covered], at: usize) -> Covered
    ensures { result ≡ covered_at entries.now at }
{
    match entries.get(at) {
        Some(covered) => *covered,
        None => Covered {
            read: false,
            written: false,
            refused: false,
        },
    }
}

fn transferred_count(entries: &[Covered]) -> usize
    ensures { result ≡ transferred_count entries.now }
{
    let mut count = 0;
    for covered in entries {
        if is_transferred(*covered) {
            count += 1;
        }
    }
    count
}

#[tactic(auto, unfolding(crate::specs::Coverage::entry_text))]
fn push_entry(page: &mut Markup, covered: Covered, row: &EntryRow<'_>)
    ensures { Appended page.old (entry_text covered (row_view row.now)) page.new }
{
    page.put(
        "<li><code>%</code>%%",
        &[
            Value::Key(row.key),
            Value::AnyText("", row.name, ""),
            Value::Words(entry_end(covered)),
        ],
    );
}

fn push_item(
    page: &mut Markup,
    transferred: bool,
    entries: &[Covered],
    at: usize,
    row: &EntryRow<'_>,
)
    ensures { Appended page.old
        (entry_item transferred entries.now at (row_view row.now)) page.new }
{
    let covered = covered_at(entries, at);
    if is_listed(transferred, covered) {
        push_entry(page, covered, row);
    }
}

fn push_items(page: &mut Markup, transferred: bool, rows: &[EntryRow<'_>], entries: &[Covered])
    ensures { Appended page.old
        (entry_items transferred (map row_view rows.now) entries.now) page.new }
{
    for (at, row) in rows.iter().enumerate() {
        push_item(page, transferred, entries, at, row);
    }
}

/// Appends the entries: those that were transferred, and the others.
pub(crate) fn push_entries(page: &mut Markup, rows: &[EntryRow<'_>], entries: &[Covered])
    ensures { Appended page.old (entries_text (map row_view rows.now) entries.now) page.new }
{
    page.put(
        "<h3>Entries that were transferred by SDO: % of %</h3>\n<ul>\n",
        &[
            Value::Number(transferred_count(entries) as u64),
            Value::Number(rows.len() as u64),
        ],
    );
    push_items(page, true, rows, entries);
    page.put_words("</ul>\n<h3>Entries that weren't</h3>\n<ul class=\"not\">\n");
    push_items(page, false, rows, entries);
    page.put_words("</ul>\n");
}
