//! What was compared, and how the page was made.

ghost use Rattle.conode_json.specs.Appended.{Appended};
ghost use Rattle.conode_compare_report.specs.Abouts.{about_view};
ghost use Rattle.conode_compare_documents.specs.Device.{device, device_rows, foot, stamps_row};

use conode_compare_report::{About, Identity, Report};
use conode_json::{Markup, Value};

/// The page from its last word on.
const CLOSING: &str = "</code>. Its page docs/COMPARE.md says what each kind of difference is, \
    and what is unjudged.</footer>\n\
    </body>\n\
    </html>\n";

/// The end of a row.
const END: &str = "</dd>\n";

/// What stands for a number of the identity that the data sheet lacks.
const LACKING: &str = "not in the data sheet";

// the names of vendor and product, the identity by the sheet and by the recording, the node-ID, the
// data sheet with so many entries, the recording with its lines, and the interface
fn push_rows(
    page: &mut Markup,
    about: &About<'_, '_>,
    shown: Identity,
    entries: usize,
    lines: u64,
    bad: u64,
)
    ensures { Appended page.old
        (device_rows (about_view about.now) shown entries lines bad) page.new }
{
    page.put(
        "<section>\n<h2>Device</h2>\n<dl>\n%%<dt>Vendor-ID</dt><dd>%</dd>\n\
        <dt>Product code</dt><dd>%</dd>\n<dt>Revision number</dt><dd>%</dd>\n%%\
        <dt>Node-ID</dt><dd>%</dd>\n<dt>Data sheet</dt><dd>%, % entries</dd>\n\
        <dt>Recording</dt><dd>%, % lines, % of them bad</dd>\n%",
        &[
            Value::AnyText("<dt>Vendor</dt><dd>", about.names.vendor, END),
            Value::AnyText("<dt>Product</dt><dd>", about.names.product, END),
            Value::Code(about.vendor, LACKING),
            Value::Code(about.product, LACKING),
            Value::Code(about.revision, LACKING),
            Value::AnyCode(
                "<dt>Revision number, as recorded</dt><dd>",
                shown.revision,
                END,
            ),
            Value::AnyCode("<dt>Serial number, as recorded</dt><dd>", shown.serial, END),
            Value::Number(about.node as u64),
            Value::Name(about.sheet),
            Value::Number(entries as u64),
            Value::Name(about.recording),
            Value::Number(lines),
            Value::Number(bad),
            Value::AnyText("<dt>Interface</dt><dd>", about.interface, END),
        ],
    );
}

// the stamps of the first and of the newest frame, if there is one, and the end of the section
fn push_stamps(page: &mut Markup, begin: Option<u64>, end: u64)
    ensures { Appended page.old (stamps_row begin end) page.new }
{
    match begin {
        None => page.put_words("</dl>\n</section>\n"),
        Some(begin) => page.put(
            "<dt>Stamps</dt><dd>% to % s</dd>\n</dl>\n</section>\n",
            &[Value::Seconds(begin), Value::Seconds(end)],
        ),
    }
}

/// Appends what was compared.
pub(crate) fn push_device(page: &mut Markup, about: &About<'_, '_>, report: &Report)
    ensures { Appended page.old (device (about_view about.now) report.now) page.new }
{
    push_rows(
        page,
        about,
        report.coverage.identity,
        about.rows.len(),
        report.lines,
        report.bad_lines,
    );
    push_stamps(page, report.begin, report.end);
}

/// Ends the last section, and appends how the page was made.
pub(crate) fn push_foot(page: &mut Markup, about: &About<'_, '_>)
    ensures { Appended page.old (foot (about_view about.now)) page.new }
{
    page.put(
        "</section>\n<footer>Made by conode %, as <code>conode compare --format html \
        --tolerance % --drift % --answer % --boot %%",
        &[
            Value::Name(about.version),
            Value::Number(about.limits.tolerance as u64),
            Value::Number(about.limits.drift as u64),
            Value::Number(about.limits.answer as u64),
            Value::Number(about.limits.boot as u64),
            Value::Words(CLOSING),
        ],
    );
}
