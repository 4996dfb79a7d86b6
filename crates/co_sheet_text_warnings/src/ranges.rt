//! Ranges of indices.

ghost use Rattle.std.specs.Prelude.{◌≡◌};
ghost use Rattle.co_sheet_text_warnings.specs.Ranges.{is_within};

/// Whether an index is in a range with both its ends. Conditions call it, so that the order of
/// numbers is proved once.
pub fn is_within(low: u16, high: u16, index: u16) -> bool
    ensures { result ≡ is_within low high index }
{
    low <= index && index <= high
}
