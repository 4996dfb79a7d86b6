//! The document of a comparison.

ghost use Rattle.std.specs.Prelude.{◌≡◌, IfOk, OnOk, true, map};
ghost use Rattle.std.specs.List.{AllPairs};
ghost use Rattle.std.specs.Io.KnownBytes.{Appends};
ghost use Rattle.co_sheet.specs.SheetViews.{row_view};
ghost use Rattle.co_value.specs.Keys.{is_key_before};
ghost use Rattle.conode_compare_report.specs.Abouts.{about_view};
ghost use Rattle.conode_compare.specs.Documents.{described, document, identity_at, kept_for};
ghost use Rattle.conode_compare.specs.Views.{comparison_view};

use crate::comparing::Comparing;
use crate::writes::Settings;
use co_profile::IDENTITY;
use co_value::Key;
use conode_compare_documents::{json_document, junit_document, page};
use conode_compare_pdos::preset_at;
use conode_compare_report::{About, Report};
use conode_io::{CmdFault, hand_over};
use std::alloc::{AllocError, Global};
use std::io::Write;

/// How a comparison is written.
#[derive(Clone, Copy, Debug, PartialEq, Eq)]
pub enum Format {
    /// A line for each difference, while the recording is read, and a last line that counts.
    Text,
    /// One document of JSON.
    Json,
    /// A document of JUnit, with a test case for each kind of difference.
    JUnit,
    /// One page of HTML.
    Html,
}

/// How a comparison is written, and what a document says of it.
#[derive(Clone, Copy)]
pub(crate) struct Wanted<'s> {
    pub(crate) format: Format,
    /// The version of the program.
    pub(crate) version: &'s str,
    /// The path of the data sheet.
    pub(crate) sheet: &'s str,
}

/// What is kept for a document, if one is wanted. `Err`: out of memory.
pub(crate) fn new_report(
    alloc: Global,
    settings: &Settings<'_, '_>,
    format: Format,
) -> Result<Option<Report>, AllocError>
    requires { AllPairs (λ e f. is_key_before e.key f.key ≡ true) settings.now.rows.now }
    ensures { IfOk result (λ report. report ≡ kept_for format (comparison_view settings.now)) }
{
    match format {
        Format::Text => Ok(None),
        Format::Json | Format::JUnit | Format::Html => {
            let report = attempt!(Report::new(alloc, settings.rows, settings.subject.node));
            Ok(Some(report))
        }
    }
}

// the number that the sheet has at a sub-index of the identity object
fn identity_at(settings: &Settings<'_, '_>, sub: u8) -> Option<u64>
    requires { AllPairs (λ e f. is_key_before e.key f.key ≡ true) settings.now.rows.now }
    ensures { result ≡ identity_at (comparison_view settings.now) sub }
{
    let key = Key {
        index: IDENTITY,
        sub,
    };
    preset_at(settings.rows, settings.subject.node, key)
}

/// What a document says of a comparison that ended.
#[tactic(auto, unfolding(crate::specs::Documents::described))]
pub(crate) fn about_of<'s, 'a>(
    settings: &Settings<'s, 'a>,
    wanted: &Wanted<'s>,
    comparing: &Comparing,
) -> About<'s, 'a>
    requires { AllPairs (λ e f. is_key_before e.key f.key ≡ true) settings.now.rows.now }
    ensures { about_view result ≡ described (comparison_view settings.now)
        wanted.now.version.now wanted.now.sheet.now comparing.now }
{
    About {
        version: wanted.version,
        sheet: wanted.sheet,
        recording: settings.recording,
        interface: settings.interface,
        node: settings.subject.node,
        limits: settings.subject.limits,
        rows: settings.rows,
        names: settings.names,
        vendor: identity_at(settings, 1),
        product: identity_at(settings, 2),
        revision: identity_at(settings, 3),
        tally: comparing.tally,
        several: comparing.several,
    }
}

/// Writes the document in a format; `Text` has none.
///
/// * `Write`: `out` failed. `Memory`: memory ran out.
pub(crate) fn write_document<O: Write>(
    alloc: Global,
    format: Format,
    about: &About<'_, '_>,
    report: &Report,
    out: &mut O,
) -> Result<(), CmdFault>
    ensures { OnOk result (Appends (O.contents out.old) (O.contents out.new)
        (document format (about_view about.now) report.now)) }
{
    match format {
        Format::Text => Ok(()),
        Format::Json => {
            let text = attempt_in_memory!(json_document(alloc, about, report));
            hand_over(text.as_slice(), out)
        }
        Format::JUnit => {
            let text = attempt_in_memory!(junit_document(alloc, about, report));
            hand_over(text.as_bytes(), out)
        }
        Format::Html => {
            let text = attempt_in_memory!(page(alloc, about, report));
            hand_over(text.as_bytes(), out)
        }
    }
}
