//! The file of a data sheet, shown.

ghost use Rattle.std.specs.Prelude.{
  ℕ,
  ◌≡◌,
  ◌⊎◌,
  ◌≤◌,
  List,
  length,
  map,
  None,
  Some,
  IfOk,
  IfErr,
  OnOk,
  Ok,
  Err,
};
ghost use Rattle.std.specs.Option.{option_copied};
ghost use Rattle.std.specs.Io.KnownBytes.{Appends, Keeps};
ghost use Rattle.std.specs.Process.{exit_status};
ghost use Rattle.co_sheet_text.specs.Views.{section_view};
ghost use Rattle.co_sheet_adapt.specs.Expanded.{expanded};
ghost use Rattle.conode_io.specs.Written.{AppendsFront};
ghost use Rattle.co_sheet_text.specs.LinesAtFault.{sections_read};
ghost use Rattle.co_sheet_text.specs.Text.{lines_of};
ghost use Rattle.conode_show_text.specs.Document.{ordered};
ghost use Rattle.conode_show.specs.Retyped.{retyped_view};
ghost use Rattle.conode_show.specs.Shown.{
  IsShown,
  document_in,
  document_of,
  empty_reason,
  has_object,
  is_of_object,
  large_reason,
  reason,
  reason_in,
  sections_of,
  shown,
  shown_unless,
  unless_object,
  unless_whole,
  whole_text,
};

use crate::form::Form;
use crate::json_form::{json_document, json_reason};
use crate::retyped::{Retyped, all_retyped, sections_in as retyped_sections};
use co_sheet::GREATEST_SIZE;
use co_sheet_adapt::expanded;
use co_sheet_changes::Originals;
use co_sheet_faults::read_sections;
use co_sheet_text::{ParsedText, SectionKind, TextSection};
use conode_io::{CmdFault, flushed, hand_over, no_text, out_of_memory, stopped};
use conode_lint::{OtherFormat, format_meaning, text_format, text_of};
use conode_show_text::{document, node_for, order};
use std::alloc::{AllocError, Global};
use std::io::{Input, Write};
use std::process::ExitCode;
use std::rt::Files;

// the document of sections in order
fn document_in(
    alloc: Global,
    form: Form,
    node: Option<u8>,
    sections: &[TextSection],
) -> Result<Vec<u8>, AllocError>
    ensures { IfOk result
        (λ text. text.items ≡ document_in form node (map section_view sections.now)) }
{
    match form {
        Form::Lines(format) => document(alloc, format, node, sections),
        Form::Json => json_document(alloc, node, sections),
    }
}

// the document of sections, which it puts in order
fn ordered_document(
    alloc: Global,
    form: Form,
    node: Option<u8>,
    sections: &mut [TextSection],
) -> Result<Vec<u8>, AllocError>
    ensures { IfOk result (λ text. text.items
        ≡ document_in form node (ordered (map section_view sections.old))) }
{
    attempt!(order(alloc, sections));
    document_in(alloc, form, node, sections)
}

// the sections of a text, with their original types if the sheet was adapted
fn retyped_in<'a>(
    alloc: Global,
    text: &[u8],
    parsed: &ParsedText<'a>,
) -> Result<Vec<Retyped<'a>>, AllocError>
    requires size { length text.now ≤ 1048576 }
    requires parsed { parsed.now ≡ sections_read (lines_of text.now) }
    ensures { IfOk result (λ made. map retyped_view made.items ≡ sections_of text.now) }
{
    match parsed.sections(alloc) {
        Ok(given) => match Originals::in_text(alloc, text) {
            Ok(originals) => all_retyped(alloc, &originals, given.as_slice()),
            Err(fault) => Err(fault),
        },
        Err(fault) => Err(fault),
    }
}

// the document of a parsed text's sections
fn document_parsed(
    alloc: Global,
    form: Form,
    node: Option<u8>,
    text: &[u8],
    parsed: &ParsedText<'_>,
) -> Result<Vec<u8>, AllocError>
    requires size { length text.now ≤ 1048576 }
    requires parsed { parsed.now ≡ sections_read (lines_of text.now) }
    ensures { IfOk result (λ made. made.items ≡ document_of form node (sections_of text.now)) }
{
    match retyped_in(alloc, text, parsed) {
        Ok(retyped) => match retyped_sections(alloc, retyped.as_slice()) {
            Ok(mut sections) => {
                let node = node_for(node, sections.as_slice());
                ordered_document(alloc, form, node, sections.as_mut_slice())
            }
            Err(fault) => Err(fault),
        },
        Err(fault) => Err(fault),
    }
}

fn is_of_object(kind: SectionKind) -> bool
    ensures { result ≡ is_of_object kind }
{
    matches!(kind, SectionKind::Object(_) | SectionKind::SubIndex(_))
}

fn has_object_among(sections: &[TextSection]) -> bool
    ensures { result ≡ has_object (map section_view sections.now) }
{
    for section in sections {
        if is_of_object(section.kind) {
            return true;
        }
    }
    false
}

fn has_object_in(alloc: Global, parsed: &ParsedText) -> Result<bool, AllocError>
    ensures { IfOk result (λ has. has ≡ has_object parsed.now) }
{
    match parsed.sections(alloc) {
        Ok(sections) => Ok(has_object_among(sections.as_slice())),
        Err(fault) => Err(fault),
    }
}

// why a text that is too large isn't shown
fn large_reason(format: Option<OtherFormat>) -> &'static str
    ensures { result.now ≡ large_reason format }
{
    match format {
        Some(format) => format_meaning(format),
        None => "fault 1 TooLarge line 0",
    }
}

// why a text without an object isn't shown
fn empty_reason(format: Option<OtherFormat>) -> &'static str
    ensures { result.now ≡ empty_reason format }
{
    match format {
        Some(format) => format_meaning(format),
        None => "this is no EDS: it has no section of an object, as [1000]",
    }
}

fn reason_in(alloc: Global, form: Form, words: &str) -> Result<Vec<u8>, AllocError>
    ensures { IfOk result (λ text. text.items ≡ reason_in form words.now) }
{
    match form {
        Form::Lines(_) => Ok(Vec::new(alloc)),
        Form::Json => json_reason(alloc, words),
    }
}

// What is written of a text, and why it isn't shown.
#[derive(Drop)]
struct Written {
    text: Vec<u8>,
    why: Option<&'static str>,
}

// a text that isn't shown
fn not_shown(alloc: Global, form: Form, why: &'static str) -> Result<Written, AllocError>
    ensures text { IfOk result (λ made. made.text.items ≡ reason_in form why.now) }
    ensures why { IfOk result (λ made. option_copied made.why ≡ Some why.now) }
{
    match reason_in(alloc, form, why) {
        Ok(text) => Ok(Written {
            text,
            why: Some(why),
        }),
        Err(fault) => Err(fault),
    }
}

// a parsed text, if it has an object
fn shown_parsed(
    alloc: Global,
    form: Form,
    node: Option<u8>,
    format: Option<OtherFormat>,
    text: &[u8],
    parsed: &ParsedText<'_>,
) -> Result<Written, AllocError>
    requires size { length text.now ≤ 1048576 }
    requires parsed { parsed.now ≡ sections_read (lines_of text.now) }
    ensures text { IfOk result (λ made. made.text.items
        ≡ shown_unless form node (unless_object format parsed.now) text.now) }
    ensures why { IfOk result (λ made.
        option_copied made.why ≡ unless_object format parsed.now) }
{
    match has_object_in(alloc, parsed) {
        Ok(true) => match document_parsed(alloc, form, node, text, parsed) {
            Ok(text) => Ok(Written { text, why: None }),
            Err(fault) => Err(fault),
        },
        Ok(false) => not_shown(alloc, form, empty_reason(format)),
        Err(fault) => Err(fault),
    }
}

// a text with the sections of its compact forms
fn shown_read(
    alloc: Global,
    form: Form,
    node: Option<u8>,
    format: Option<OtherFormat>,
    text: &[u8],
) -> Result<Written, AllocError>
    requires { length text.now ≤ 1048576 }
    ensures text { IfOk result (λ made. made.text.items ≡ shown_unless form node
        (unless_object format (sections_read (lines_of text.now))) text.now) }
    ensures why { IfOk result (λ made. option_copied made.why
        ≡ unless_object format (sections_read (lines_of text.now))) }
{
    match read_sections(alloc, text) {
        Ok(parsed) => shown_parsed(alloc, form, node, format, text, &parsed),
        Err(fault) => Err(fault),
    }
}

// a text with the sections of its compact forms, or without them, if it is too large with them
fn shown_whole(
    alloc: Global,
    form: Form,
    node: Option<u8>,
    format: Option<OtherFormat>,
    text: &[u8],
) -> Result<Written, AllocError>
    requires { length text.now ≤ 1048576 }
    ensures text { IfOk result (λ made. made.text.items ≡ shown_unless form node
        (unless_whole format text.now) (whole_text text.now (expanded text.now))) }
    ensures why { IfOk result (λ made. option_copied made.why ≡ unless_whole format text.now) }
{
    match attempt!(expanded(alloc, text)) {
        Some(whole) => shown_read(alloc, form, node, format, whole.as_slice()),
        None => shown_read(alloc, form, node, format, text),
    }
}

// what is written of a text, and why it isn't shown
#[tactic(auto, unfolding(crate::specs::Shown::shown, crate::specs::Shown::reason))]
fn shown(alloc: Global, form: Form, node: Option<u8>, text: &[u8]) -> Result<Written, AllocError>
    ensures text { IfOk result (λ made. made.text.items ≡ shown form node text.now) }
    ensures why { IfOk result (λ made. option_copied made.why ≡ reason text.now) }
{
    let format = attempt!(text_format(alloc, text));
    if text.len() > GREATEST_SIZE {
        return not_shown(alloc, form, large_reason(format));
    }
    shown_whole(alloc, form, node, format, text)
}

/// Shows the object dictionary of a data sheet (CiA 306): its entries by index and sub-index, then
/// its PDOs and the other services of the communication profile in words. A faulty line is left
/// out, and the others are shown, also those that compact forms give, if the text has at most
/// 1,048,576 bytes with these. A text that has more without them isn't read, and one without an
/// object isn't shown, so none that is no sheet. Returns why it isn't shown, in words. As JSON a
/// document has them too; else nothing is written then.
///
/// All is written at once. `Memory`: memory ran out, and nothing has been written. `Write`: the
/// writer failed, and at most a part has been written.
pub fn show<W: Write>(
    alloc: Global,
    text: &[u8],
    form: Form,
    node: Option<u8>,
    writer: &mut W,
) -> Result<Option<&'static str>, CmdFault>
    ensures why { IfOk result (λ why. option_copied why ≡ reason text.now) }
    ensures text { OnOk result (Appends (W.contents writer.old) (W.contents writer.new)
        (shown form node text.now)) }
    ensures write { result ≡ Err CmdFault.Write →
        AppendsFront (W.contents writer.old) (W.contents writer.new)
        (shown form node text.now) }
    ensures memory { result ≡ Err CmdFault.Memory →
        Keeps (W.contents writer.old) (W.contents writer.new) }
    ensures err { IfErr result (λ fault. (fault ≡ CmdFault.Write) ⊎ (fault ≡ CmdFault.Memory)) }
{
    match shown(alloc, form, node, text) {
        Ok(made) => match hand_over(made.text.as_slice(), writer) {
            Ok(()) => Ok(made.why),
            Err(fault) => Err(fault),
        },
        Err(_) => Err(CmdFault::Memory),
    }
}

// Says why a text isn't shown, where its document doesn't. If even this can't be written, only the
// status shows it.
fn say_why<E: Write>(form: Form, why: &str, err: &mut E) {
    if let Form::Lines(_) = form {
        let _ = writeln!(err, "{why}");
    }
}

// the status of what was shown; if not all of it could be written, `out` has why, or `err`
fn status_of<O: Write, E: Write>(
    form: Form,
    outcome: Result<Option<&'static str>, CmdFault>,
    out: &mut O,
    err: &mut E,
) -> ExitCode
    ensures status { (exit_status result ≡ 0) ⊎ (exit_status result ≡ 1) }
    // The status is 0 only if the dictionary was shown.
    ensures shown { exit_status result ≡ 0 → outcome.entry ≡ Ok None }
    // After a document nothing more is written, also after that of a text that isn't shown.
    ensures kept { OnOk outcome.entry (Keeps (O.contents out.old) (O.contents out.new)) }
{
    match flushed(out, outcome) {
        Ok(None) => ExitCode::SUCCESS,
        Ok(Some(why)) => {
            say_why(form, why, err);
            ExitCode::FAILURE
        }
        Err(CmdFault::Memory) => out_of_memory(out),
        Err(fault) => stopped(fault, out, err).status(),
    }
}

/// Shows the data sheet of a path, or of standard input for `-`, as `show` does; `err` has why it
/// isn't shown, or as JSON `out`. If not all of it could be written, `out` has why, or `err` if
/// `out` can't be written. A file that can't be read is named on `err`. The status is 0 if the
/// dictionary is shown, else 1.
pub fn show_file<R: Files + AllocGlobal + Input, O: Write, E: Write>(
    rt: &R,
    path: &str,
    form: Form,
    node: Option<u8>,
    out: &mut O,
    err: &mut E,
) -> ExitCode
    ensures status { (exit_status result ≡ 0) ⊎ (exit_status result ≡ 1) }
    // The dictionary of a text is shown, for this node-ID and in this form, and nothing else is
    // written.
    ensures shown { exit_status result ≡ 0 → (text : List ℕ) ×
        IsShown form node (O.contents out.old) (O.contents out.new) text }
{
    match text_of(rt, path) {
        Ok(text) => {
            let outcome = show(rt.alloc(), text.as_slice(), form, node, out);
            status_of(form, outcome, out, err)
        }
        Err(fault) => no_text(fault, path, out, err),
    }
}
