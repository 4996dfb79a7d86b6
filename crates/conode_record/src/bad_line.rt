//! Why a line isn't one of a recording.

/// What is wrong with a line: its first wrong part.
#[derive(Clone, Copy)]
pub enum BadLine {
    /// It doesn't begin with a stamp, as `(1700000000.250000)`: seconds in 1 to 12 digits and
    /// microseconds in 6.
    Stamp,
    /// After the stamp there is no interface, as ` can0 `: 1 to 15 bytes between blanks.
    Interface,
    /// After the interface there is no identifier, as `185#`: three hexadecimal digits up to 7FF,
    /// or eight up to 3FFFFFFF, and a number sign.
    Identifier,
    /// After the second number sign of a CAN FD frame there is no hexadecimal digit for its flags.
    Flags,
    /// The length of a remote frame is greater than 8.
    Length,
    /// The data aren't pairs of hexadecimal digits.
    Data,
    /// There are more than 8 data bytes, or in a CAN FD frame more than 64.
    TooManyBytes,
    /// The data are followed by something other than blanks and an `R` (received) or `T` (sent).
    Ending,
}
