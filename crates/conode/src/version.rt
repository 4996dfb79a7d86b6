//! The version, as documents name it.

use conode_words::VERSION;

/// The version of the program.
pub(crate) fn version() -> &'static str {
    match VERSION.split_once(", ") {
        Some((version, _)) => version,
        None => VERSION,
    }
}
