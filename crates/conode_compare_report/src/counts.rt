//! Numbers that are counted in lists.

ghost use Rattle.std.specs.Prelude.{◌≡◌, ◌<◌, OnOk, IfSome, length, position};
ghost use Rattle.conode_compare_report.specs.Counts.{is_number, numbered_with};

use crate::coverage::Numbered;
use std::alloc::AllocError;

// the place of a number
fn place_of(numbers: &[Numbered], number: u32) -> Option<usize>
    ensures place { result ≡ position (is_number number) numbers.now }
    ensures within { IfSome result (λ place. place < length numbers.now) }
{
    numbers.iter().position(|counted| counted.number == number)
}

/// Counts a number. A new one is appended if fewer than `most` are there.
#[tactic(auto, unfolding(crate::specs::Counts::numbered_with))]
pub(crate) fn count_number(
    numbers: &mut Vec<Numbered>,
    most: usize,
    number: u32,
) -> Result<(), AllocError>
    ensures { OnOk result (numbers.new.items ≡ numbered_with most number numbers.old.items) }
{
    match place_of(numbers.as_slice(), number) {
        Some(place) => {
            let counted = &mut numbers[place];
            counted.count = counted.count.saturating_add(1);
            Ok(())
        }
        None => {
            if numbers.len() < most {
                return match numbers.push(Numbered { number, count: 1 }) {
                    Ok(()) => Ok(()),
                    Err(_) => Err(AllocError),
                };
            }
            Ok(())
        }
    }
}
