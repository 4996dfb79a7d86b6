//! How much room strings and domains have.

use co_value::Key;

/// The room of the entries whose values have no fixed length, in bytes, 0 to 65,535.
#[derive(Clone, Copy)]
pub struct Limits<'a> {
    /// Of each string that may be written. A longer default makes more room; one that is read only
    /// has its default's length.
    pub strings: u16,
    /// Of each domain.
    pub domains: u16,
    /// Of single entries, in place of the other two. Of equal keys the first counts; the key of an
    /// entry that is neither a string nor a domain is passed over.
    pub own: &'a [(Key, u16)],
}
