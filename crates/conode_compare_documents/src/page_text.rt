//! The page.

ghost use Rattle.std.specs.Prelude.{◌≡◌, IfOk, string_bytes};
ghost use Rattle.conode_compare_report.specs.Abouts.{about_view};
ghost use Rattle.conode_compare_documents.specs.Page.{page};

use crate::coverage::push_coverage;
use crate::device::{push_device, push_foot};
use crate::differences::push_differences;
use crate::head::{
    difference_count, headline_number, headline_words, outcome_class, push_head, reason,
};
use crate::picture::push_picture;
use conode_compare_report::{About, Outcome, Report};
use conode_json::Markup;
use std::alloc::{AllocError, Global};

/// A comparison as one page of HTML, which is XML too: the verdict, the device, the differences,
/// the bus over time, what the recording tested, how the page was made. It has no script and needs
/// no other file. `Err`: out of memory.
pub fn page(alloc: Global, about: &About<'_, '_>, report: &Report) -> Result<String, AllocError>
    ensures { IfOk result (λ text. string_bytes text ≡ page (about_view about.now) report.now) }
{
    let mut markup = Markup::new(alloc);
    let outcome = Outcome::of(about);
    let count = difference_count(report);
    push_head(
        &mut markup,
        about,
        headline_number(outcome, count),
        headline_words(outcome, count),
        outcome_class(outcome),
        reason(outcome),
    );
    push_device(&mut markup, about, report);
    push_differences(alloc, &mut markup, report);
    push_picture(&mut markup, report);
    push_coverage(&mut markup, about, report);
    push_foot(&mut markup, about);
    markup.into_text()
}
