//! Which kinds of differences a recording could show.

ghost use Rattle.conode_json.specs.Appended.{Appended};
ghost use Rattle.conode_compare_documents.specs.Coverage.{kinds_table};

use conode_compare_report::Counted;
use conode_json::{Markup, Value};

/// The section up to the rows of its table.
const OPENING: &str = "<section>\n\
    <h2>What this recording tested</h2>\n\
    <h3>Kinds of differences</h3>\n\
    <p>An occasion is a frame at which such a difference could have shown. \
    Without one the recording says nothing about the kind.</p>\n\
    <table>\n\
    <thead><tr><th>Kind</th><th>Prescribed</th>\
    <th class=\"n\">Occasions</th><th class=\"n\">Found</th></tr></thead>\n\
    <tbody>\n";

/// Begins the section, and appends the table of the kinds.
pub(crate) fn push_kinds(page: &mut Markup, kinds: &[Counted])
    ensures { Appended page.old (kinds_table kinds.now) page.new }
{
    page.put_words(OPENING);
    for counted in kinds {
        page.put(
            "%%</td><td>%</td><td class=\"n\" data-is=\"Occasions\">%%%</td></tr>\n",
            &[
                Value::Either(counted.occasions == 0, "<tr class=\"not\"><td>", "<tr><td>"),
                Value::Words(counted.kind.name()),
                Value::Words(counted.kind.rule()),
                Value::Count(counted.occasions, "none"),
                Value::Either(
                    counted.found == 0,
                    "</td><td class=\"n\" data-is=\"Found\">",
                    "</td><td class=\"n found\" data-is=\"Found\">",
                ),
                Value::Number(counted.found),
            ],
        );
    }
    page.put_words("</tbody>\n</table>\n");
}
