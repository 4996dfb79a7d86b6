//! The error register in words (CiA 301, 7.5.2.2, object 1001h).

ghost use Rattle.std.specs.Prelude.{◌≡◌, ◌++◌, OnOk, string_bytes};
ghost use Rattle.std.specs.List.{flat_map};
ghost use Rattle.conode_explain_services.specs.Registers.{
  bit_word,
  bits_text,
  changed_text,
  changes_text,
  errors_text,
  register_text,
  text_of_bit,
};

use crate::texts::{Row, words_in};
use conode_text::HasText;
use std::alloc::AllocError;

/// The bits of the register, each by its place.
const BITS: [Row; 8] = [
    Row(0x01, "generic"),
    Row(0x02, "current"),
    Row(0x04, "voltage"),
    Row(0x08, "temperature"),
    Row(0x10, "communication"),
    Row(0x20, "device profile"),
    Row(0x40, "reserved bit 6"),
    Row(0x80, "manufacturer"),
];

// the word of a bit by its place: 1, 2, 4, ..
#[tactic(auto, unfolding(crate::specs::Registers::bit_word))]
fn bit_word(place: u8) -> &'static str
    ensures { result.now ≡ bit_word place }
{
    words_in(&BITS, place as u16)
}

/// A register, and the place of a bit in it.
#[derive(Clone, Copy)]
struct Bit(u8, u8);

impl HasText for Bit {
    ghost text_of = { text_of_bit };

    #[tactic(auto, unfolding(crate::specs::Registers::bit_text, conode_text::specs::Filled::filled))]
    fn push(&self, text: &mut String) -> Result<(), AllocError> {
        if self.0 & self.1 == 0 {
            return Ok(());
        }
        let word = bit_word(self.1);
        if self.0 & self.1.saturating_sub(1) == 0 {
            text.push_str(word)
        } else {
            attempt!(text.push_str(", "));
            text.push_str(word)
        }
    }
}

fn push_each(text: &mut String, bits: &[Bit]) -> Result<(), AllocError>
    ensures { OnOk result
        (string_bytes text.new ≡ string_bytes text.old ++ flat_map text_of_bit bits.now) }
{
    for bit in bits {
        attempt!(bit.push(text));
    }
    Ok(())
}

// (one text with eight places would be searched eight times, for one or two bits that are set)
#[tactic(auto, unfolding(crate::specs::Registers::bits_text, conode_text::specs::Filled::filled))]
fn push_bits(text: &mut String, register: u8) -> Result<(), AllocError>
    ensures { OnOk result (string_bytes text.new ≡ string_bytes text.old ++ bits_text register) }
{
    push_each(
        text,
        &[
            Bit(register, 0x01),
            Bit(register, 0x02),
            Bit(register, 0x04),
            Bit(register, 0x08),
            Bit(register, 0x10),
            Bit(register, 0x20),
            Bit(register, 0x40),
            Bit(register, 0x80),
        ],
    )
}

fn push_errors(text: &mut String, register: u8) -> Result<(), AllocError>
    ensures { OnOk result (string_bytes text.new ≡ string_bytes text.old ++ errors_text register) }
{
    if register == 0 {
        text.push_str("no error")
    } else {
        push_bits(text, register)
    }
}

fn push_changed(text: &mut String, word: &str, bits: u8) -> Result<(), AllocError>
    ensures { OnOk result
        (string_bytes text.new ≡ string_bytes text.old ++ changed_text word.now bits) }
{
    if bits == 0 {
        return Ok(());
    }
    attempt!(text.push_str(word));
    push_bits(text, bits)
}

fn push_changes(text: &mut String, last: Option<u8>, register: u8) -> Result<(), AllocError>
    ensures { OnOk result
        (string_bytes text.new ≡ string_bytes text.old ++ changes_text last register) }
{
    let Some(last) = last else {
        return Ok(());
    };
    attempt!(push_changed(text, "; came: ", register & (255 - last)));
    push_changed(text, "; went: ", last & (255 - register))
}

/// Appends what the error register of an emergency means, and what changed since the node's last
/// one: `generic, communication; came: communication`. On an `Err` memory ran out, and a part of it
/// may be there.
#[tactic(auto, unfolding(crate::specs::Registers::register_text))]
pub(crate) fn push_register(
    text: &mut String,
    last: Option<u8>,
    register: u8,
) -> Result<(), AllocError>
    ensures { OnOk result
        (string_bytes text.new ≡ string_bytes text.old ++ register_text last register) }
{
    attempt!(push_errors(text, register));
    push_changes(text, last, register)
}
