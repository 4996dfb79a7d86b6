//! What a recording tested, and what it didn't. Each function appends a text. `Err`: out of memory;
//! a part of it may be there.

ghost use Rattle.conode_json.specs.Appended.{Appended};
ghost use Rattle.conode_compare_report.specs.Abouts.{about_view};
ghost use Rattle.conode_compare_documents.specs.Coverage.{
  numbered_item,
  numbers_text,
  seen_text,
  services_text,
  states_text,
  tested,
};

use crate::entries::push_entries;
use crate::kinds::push_kinds;
use conode_compare_report::{About, Coverage, Numbered, Report, Served, States};
use conode_json::{Markup, Value};

/// What a list of numbers has.
#[derive(Clone, Copy)]
pub(crate) enum Listed {
    TransmissionTypes,
    AbortCodes,
}

/// The heads of these lists, and what stands in place of an empty one.
const TYPES: &str = "<h3>Transmission types of the TPDOs that were sent</h3>\n<ul>\n";

const NO_TYPES: &str = "<h3>Transmission types</h3>\n<p class=\"not\">No TPDO was sent.</p>\n";

const ABORTS: &str = "<h3>SDO abort codes</h3>\n<ul>\n";

const NO_ABORTS: &str = "<h3>SDO abort codes</h3>\n<p class=\"not\">No transfer was aborted.</p>\n";

/// The beginning of an item of what wasn't seen.
const SOFT: &str = "<li class=\"not\">";

/// The ends of the items of the states.
const SEEN: &str = "<b>seen</b></li>\n";

const NOT_SEEN: &str = "<b>not seen</b></li>\n";

fn push_services(page: &mut Markup, services: &[Served])
    ensures { Appended page.old (services_text services.now) page.new }
{
    page.put_words("<h3>Services</h3>\n<ul>\n");
    for served in services {
        page.put(
            "%%<b>%</b></li>\n",
            &[
                Value::Either(served.count == 0, SOFT, "<li>"),
                Value::Words(served.service.name()),
                Value::Count(served.count, "not seen"),
            ],
        );
    }
    page.put_words("</ul>\n");
}

fn push_states(page: &mut Markup, states: States)
    ensures { Appended page.old (states_text states) page.new }
{
    page.put(
        "<h3>NMT states</h3>\n<ul>\n%initialising%%pre-operational%%operational%%stopped%</ul>\n",
        &[
            Value::Either(states.initialising, "<li>", SOFT),
            Value::Either(states.initialising, SEEN, NOT_SEEN),
            Value::Either(states.pre_operational, "<li>", SOFT),
            Value::Either(states.pre_operational, SEEN, NOT_SEEN),
            Value::Either(states.operational, "<li>", SOFT),
            Value::Either(states.operational, SEEN, NOT_SEEN),
            Value::Either(states.stopped, "<li>", SOFT),
            Value::Either(states.stopped, SEEN, NOT_SEEN),
        ],
    );
}

fn push_numbered(page: &mut Markup, listed: Listed, numbered: &Numbered)
    ensures { Appended page.old (numbered_item listed numbered.now) page.new }
{
    match listed {
        Listed::TransmissionTypes => page.put(
            "<li>type %<b>%</b></li>\n",
            &[
                Value::Number(numbered.number as u64),
                Value::Number(numbered.count),
            ],
        ),
        Listed::AbortCodes => page.put(
            "<li><code>%</code><b>%</b></li>\n",
            &[
                Value::Code(Some(numbered.number as u64), ""),
                Value::Number(numbered.count),
            ],
        ),
    }
}

// a list under its head; of no number other words
fn push_numbers(page: &mut Markup, listed: Listed, head: &str, none: &str, numbers: &[Numbered])
    ensures { Appended page.old (numbers_text listed head.now none.now numbers.now) page.new }
{
    if numbers.is_empty() {
        return page.put_words(none);
    }
    page.put_words(head);
    for numbered in numbers {
        push_numbered(page, listed, numbered);
    }
    page.put_words("</ul>\n");
}

fn push_seen(page: &mut Markup, coverage: &Coverage)
    ensures { Appended page.old (seen_text coverage.now) page.new }
{
    push_services(page, coverage.services.as_slice());
    push_states(page, coverage.states);
    let types = coverage.types.as_slice();
    push_numbers(page, Listed::TransmissionTypes, TYPES, NO_TYPES, types);
    let aborts = coverage.aborts.as_slice();
    push_numbers(page, Listed::AbortCodes, ABORTS, NO_ABORTS, aborts);
}

/// Appends what the recording tested, without the end of the section.
pub(crate) fn push_coverage(page: &mut Markup, about: &About<'_, '_>, report: &Report)
    ensures { Appended page.old (tested (about_view about.now) report.now) page.new }
{
    push_kinds(page, report.kinds.as_slice());
    push_entries(page, about.rows, report.coverage.entries.as_slice());
    push_seen(page, &report.coverage);
}
