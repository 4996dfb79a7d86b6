//! What differs, in words.

ghost use Rattle.std.specs.Prelude.{◌≡◌, IfOk, string_bytes};
ghost use Rattle.conode_compare_text.specs.FindingTexts.{finding_text};

use conode_compare_report::Noted;
use conode_compare_text::push_finding;
use std::alloc::{AllocError, Global};

/// What differs, in words. `Err`: out of memory.
pub(crate) fn finding_words(alloc: Global, noted: &Noted) -> Result<String, AllocError>
    ensures { IfOk result (λ text.
        string_bytes text ≡ finding_text noted.now.details noted.now.finding) }
{
    let mut text = String::new(alloc);
    push_finding(&mut text, noted.details, noted.finding)?;
    Ok(text)
}
