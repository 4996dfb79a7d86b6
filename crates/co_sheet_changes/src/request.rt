//! What is requested.

/// How a number with a leading zero is to be read.
#[derive(Clone, Copy)]
pub enum LeadingZeros {
    Octal,
    Decimal,
}

/// What is requested.
#[derive(Clone, Copy)]
pub enum Request<'m> {
    /// To write numbers with a leading zero anew, read in this base.
    LeadingZeros(LeadingZeros),
    /// To change by force: limits that are no numbers of their type, bit 30 of 1005h, and the
    /// mapping objects with these indices, which are at fault.
    Force(&'m [u16]),
}
