//! The identifiers of an SDO channel.

/// The identifiers of an SDO channel, each 0 to 7FFh (CiA 301, 7.5.2.33).
#[derive(Clone, Copy, PartialEq, Eq)]
pub struct Ids {
    /// That of the client's requests.
    pub request: u16,
    /// That of the server's responses.
    pub answer: u16,
}
