//! `adapt`.

use crate::version::version;
use conode_adapt::{AdaptWords as Asked, LeadingZeros as ZerosRead, adapt_file};
use conode_words::{AdaptWords, LeadingZeros};
use std::io::Write;
use std::process::ExitCode;

/// How a number with a leading zero is read.
fn zeros_read(zeros: Option<LeadingZeros>) -> Option<ZerosRead> {
    match zeros {
        Some(LeadingZeros::Octal) => Some(ZerosRead::Octal),
        Some(LeadingZeros::Decimal) => Some(ZerosRead::Decimal),
        None => None,
    }
}

/// Rewrites a vendor's data sheet to one that is accepted.
pub(crate) fn adapt<O: Write, E: Write>(
    rt: &HostRuntime,
    words: &AdaptWords<'_>,
    out: &mut O,
    err: &mut E,
) -> ExitCode {
    let asked = Asked {
        leading_zeros: zeros_read(words.leading_zeros),
        force: words.force,
    };
    adapt_file(rt, words.sheet, version(), asked, out, err)
}
