//! Numbers in hexadecimal digits.

ghost use Rattle.std.specs.Prelude.{◌≡◌, ◌++◌, OnOk, IfOk, string_bytes, codes, decimal};
ghost use Rattle.co_text.specs.Printed.{digits_text};

use co_text::{push_decimal, push_digit};
use std::alloc::{AllocError, Global};

// appends the last digits of a number, as many as are asked for
#[tactic(auto, unfolding(co_text::specs::Printed::digits_text))]
fn push_hexadecimal(text: &mut String, count: u8, number: u64) -> Result<(), AllocError>
    ensures { OnOk result
        (string_bytes text.new ≡ string_bytes text.old ++ digits_text 16 count number) }
{
    if count == 0 {
        return Ok(());
    }
    attempt!(push_hexadecimal(text, count - 1, number / 16));
    push_digit(text, (number % 16) as u8)
}

/// `0x` and the last `count` hexadecimal digits of a number. `Err`: out of memory.
pub fn hexadecimal(alloc: Global, count: u8, number: u64) -> Result<Vec<u8>, AllocError>
    ensures { IfOk result (λ made. made.items ≡ codes "0x" ++ digits_text 16 count number) }
{
    let mut text = String::new(alloc);
    attempt!(text.push_str("0x"));
    attempt!(push_hexadecimal(&mut text, count, number));
    Ok(text.into_bytes())
}

/// Appends a number in decimal digits. `Err`: out of memory.
pub fn push_number(alloc: Global, text: &mut Vec<u8>, number: u64) -> Result<(), AllocError>
    ensures { OnOk result (text.new.items ≡ text.old.items ++ decimal number) }
{
    let mut digits = String::new(alloc);
    attempt!(push_decimal(&mut digits, number));
    text.extend_from_slice(digits.as_bytes())
}
