//! Stamps in microseconds, and limits in milliseconds.

ghost use Rattle.std.specs.Prelude.{◌≡◌};
ghost use Rattle.conode_compare_transfers.specs.Times.{is_past, micros_of};

/// Milliseconds in microseconds.
pub fn micros_of(millis: u32) -> u64
    ensures { result ≡ micros_of millis }
{
    millis as u64 * 1000
}

/// Whether a stamp is more than so many ms after another one.
pub fn is_past(from: u64, millis: u32, micros: u64) -> bool
    ensures { result ≡ is_past from millis micros }
{
    micros.saturating_sub(from) > micros_of(millis)
}
