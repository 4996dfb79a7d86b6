//! The text by which a data sheet that isn't accepted is read all the same.

ghost use Rattle.std.specs.Prelude.{◌≡◌, ◌≤◌, length, option_map, IfOk};
ghost use Rattle.co_sheet_mend.specs.ReadableTexts.{
  is_accepted,
  mended_in,
  readable,
  rewritten,
  rewritten_view,
};

use crate::mended::mended;
use co_sheet::{FaultKind, GREATEST_SIZE, read};
use co_sheet_adapt::adapt;
use co_sheet_changes::AdaptFault;
use std::alloc::{AllocError, Global};

/// How often a text is mended at most.
const ROUNDS: u8 = 8;

/// A text that is accepted, in place of one that isn't.
#[derive(Drop)]
pub struct Rewritten {
    pub text: Vec<u8>,
    /// Whether something that was at fault is left out of it; else it is as `adapt` rewrites it.
    pub is_mended: bool,
}

// whether a text is a data sheet, by reading it
fn is_accepted(alloc: Global, text: &[u8]) -> Result<bool, AllocError>
    ensures { IfOk result (λ is. is ≡ is_accepted text.now) }
{
    match read(alloc, text) {
        Ok(_) => Ok(true),
        Err(fault) if fault.kind == FaultKind::Memory => Err(AllocError),
        Err(_) => Ok(false),
    }
}

// mends a text until it is accepted; `None` where it never is
fn mended_in(alloc: Global, text: Vec<u8>) -> Result<Option<Vec<u8>>, AllocError>
    ensures { IfOk result (λ made. option_map (λ m. m.items) made
        ≡ mended_in 8 text.items) }
{
    let mut before = text;
    let mut rounds = ROUNDS;
    while rounds > 0 {
        if before.len() > GREATEST_SIZE {
            return Ok(None);
        }
        let after = mended(alloc, before.as_slice())?;
        if is_accepted(alloc, after.as_slice())? {
            return Ok(Some(after));
        }
        before = after;
        rounds -= 1;
    }
    Ok(None)
}

/// A text without what is at fault in it, mended as often as is needed; `None`: it has more than
/// 1,048,576 bytes, or isn't accepted even so. `Err`: out of memory.
pub fn mended_text(alloc: Global, text: &[u8]) -> Result<Option<Vec<u8>>, AllocError>
    ensures { IfOk result (λ made. option_map (λ m. m.items) made ≡ mended_in 8 text.now) }
{
    let copy = Vec::from_slice(alloc, text)?;
    mended_in(alloc, copy)
}

// a text as `adapt` rewrites it, or mended
#[tactic(auto, unfolding(crate::specs::ReadableTexts::rewritten))]
fn rewrite(alloc: Global, text: &[u8]) -> Result<Option<Rewritten>, AdaptFault>
    requires { length text.now ≤ 1048576 }
    ensures { IfOk result (λ made. option_map rewritten_view made ≡ rewritten text.now) }
{
    let adapted = adapt(alloc, text, b"")?;
    if adapted.is_accepted {
        return Ok(Some(Rewritten {
            text: adapted.text,
            is_mended: false,
        }));
    }
    match mended_in(alloc, adapted.text)? {
        Some(text) => Ok(Some(Rewritten {
            text,
            is_mended: true,
        })),
        None => Ok(None),
    }
}

/// The text by which a data sheet (CiA 306) that isn't accepted is read all the same: as
/// `co_sheet_adapt` rewrites it; where that isn't accepted, without the lines at fault, so that an
/// entry at fault keeps its name, and one whose type can't be read has values that are bytes.
/// `None`: the text is accepted as it is, or it can't be read so either. `TooLarge`: what `adapt`
/// would add has more than 1,048,576 bytes. `Memory`: out of memory.
pub fn readable(alloc: Global, text: &[u8]) -> Result<Option<Rewritten>, AdaptFault>
    ensures { IfOk result (λ made. option_map rewritten_view made ≡ readable text.now) }
{
    if text.len() > GREATEST_SIZE || is_accepted(alloc, text)? {
        return Ok(None);
    }
    rewrite(alloc, text)
}
