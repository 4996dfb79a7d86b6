//! Figures derived from the counts.

ghost use Rattle.std.specs.Prelude.{◌≡◌, ◌≤◌};
ghost use Rattle.conode_stats_text.specs.Figures.{gap_of, mean, ratio, room_in};

use conode_stats_counts::Tally;

/// number * scale / whole, rounded down; `None` if `whole` is 0, or the product needs more than 64
/// bits.
#[tactic(auto, unfolding(crate::specs::Figures::ratio))]
pub(crate) fn ratio(number: u64, scale: u64, whole: u64) -> Option<u64>
    ensures { result ≡ ratio number scale whole }
{
    if whole == 0 {
        return None;
    }
    match number.checked_mul(scale) {
        Some(product) => Some(product / whole),
        None => None,
    }
}

/// This gap; `None` if there are no gaps, or the log has no stamps.
pub fn gap_of(tally: &Tally, gap: u64) -> Option<u64>
    ensures { result ≡ gap_of tally.now gap }
{
    if tally.gaps == 0 || tally.last == 0 {
        None
    } else {
        Some(gap)
    }
}

/// The mean gap, in microseconds; `None` if there are no gaps, or the log has no stamps.
pub(crate) fn mean(tally: &Tally) -> Option<u64>
    ensures { result ≡ mean tally.now }
{
    if tally.gaps == 0 {
        return None;
    }
    gap_of(tally, tally.total / tally.gaps)
}

/// How many bits fit on a bus with this bit rate, in a time in microseconds.
#[tactic(auto, unfolding(crate::specs::Figures::room_in))]
pub(crate) fn room_in(bit_rate: u32, micros: u64) -> u64
    requires { bit_rate ≤ 1000000 }
    ensures { result ≡ room_in bit_rate micros }
{
    let rate = bit_rate as u64;
    micros / 1_000_000 * rate + micros % 1_000_000 * rate / 1_000_000
}
