//! Data sheets with faults, read all the same.

ghost use Rattle.std.specs.Prelude.{◌≡◌, ◌⊎◌, IfErr, OnOk};
ghost use Rattle.std.specs.Process.{exit_status};

use crate::sheet_text::{SheetText, bad_sheet_word, texts_of};
use crate::sheet_word::sheet_words;
use co_sheet_changes::AdaptFault;
use co_sheet_mend::readable;
use conode_io::{CmdFault, stopped};
use std::alloc::{AllocError, Global};
use std::io::Write;
use std::process::ExitCode;
use std::rt::Files;

// Replaces the texts of data sheets that aren't accepted by those by which they are read all the
// same, and says of which something is left out. On an `Err` memory ran out.
fn make_readable<E: Write>(
    alloc: Global,
    texts: &mut [SheetText<'_>],
    err: &mut E,
) -> Result<(), AllocError> {
    for text in texts.iter_mut() {
        let made = match readable(alloc, text.text.as_slice()) {
            Ok(Some(made)) => made,
            Ok(None) | Err(AdaptFault::TooLarge) => continue,
            Err(AdaptFault::Memory) => return Err(AllocError),
        };
        if made.is_mended {
            let path = text.word.path;
            let _ = writeln!(err, "{path}: what is at fault is left out; see conode lint");
        }
        text.text = made.text;
    }
    Ok(())
}

/// The texts of the data sheets that the words of a command line name, in UTF-8: a line that isn't
/// is read as Windows-1252. A text that isn't accepted (CiA 306) is as `readable` of `co_sheet_mend`
/// has it, so that entries without a fault keep what they have; where something is left out, `err`
/// names the file. On an `Err` a word names no sheet (status 2), or a file can't be read or memory
/// ran out (status 1), and it is said; else nothing is written to `out`.
pub fn readable_texts<'a, R: Files + AllocGlobal, O: Write, E: Write>(
    rt: &R,
    words: &[&'a str],
    out: &mut O,
    err: &mut E,
) -> Result<Vec<SheetText<'a>>, ExitCode>
    ensures kept { OnOk result (O.contents out.new ≡ O.contents out.old) }
    ensures err { IfErr result (λ status. (exit_status status ≡ 1) ⊎ (exit_status status ≡ 2)) }
{
    let named = match sheet_words(rt.alloc(), words) {
        Ok(named) => named,
        Err(fault) => return Err(bad_sheet_word(fault, out, err)),
    };
    let mut texts = match texts_of(rt, named.as_slice(), out, err) {
        Ok(texts) => texts,
        Err(status) => return Err(status),
    };
    match make_readable(rt.alloc(), texts.as_mut_slice(), err) {
        Ok(()) => Ok(texts),
        Err(_) => Err(stopped(CmdFault::Memory, out, err).status()),
    }
}
