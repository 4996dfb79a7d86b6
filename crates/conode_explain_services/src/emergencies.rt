//! What an emergency says (CiA 301, 7.2.7).

ghost use Rattle.std.specs.Prelude.{◌≡◌, ◌++◌, OnOk, string_bytes};
ghost use Rattle.conode_explain_services.specs.Emergencies.{emergency_words, part_text};

use crate::codes::push_code_words;
use crate::registers::push_register;
use co_frame::Emergency;
use co_text::{push_byte, push_bytes, push_decimal, push_u16};
use conode_text::{HasText, push_filled};
use std::alloc::AllocError;

/// A part of what an emergency says.
#[derive(Clone, Copy)]
enum Part<'a> {
    /// The node-ID.
    Node(u8),
    /// The error code.
    Code(u16),
    /// What the error code means, in brackets; of a drive or not.
    CodeWords(bool, u16),
    /// The error register.
    Register(u8),
    /// What the error register means, after that of the node's last emergency.
    RegisterWords(Option<u8>, u8),
    /// The bytes that the manufacturer defines.
    Bytes(&'a [u8]),
}

impl HasText for Part<'_> {
    ghost text_of = { part_text };

    fn push(&self, text: &mut String) -> Result<(), AllocError> {
        match *self {
            Part::Node(node) => push_decimal(text, node as u64),
            Part::Code(code) => push_u16(text, code),
            Part::CodeWords(drive, code) => push_code_words(text, drive, code),
            Part::Register(register) => push_byte(text, register),
            Part::RegisterWords(last, register) => push_register(text, last, register),
            Part::Bytes(bytes) => push_bytes(text, bytes),
        }
    }
}

/// Appends what an emergency of a node says, which is a drive or isn't; `last` is the error register
/// of the node's last one. On an `Err` memory ran out, and a part of it may be there.
#[tactic(auto, unfolding(crate::specs::Emergencies::emergency_words))]
pub(crate) fn push_emergency(
    text: &mut String,
    drive: bool,
    node: u8,
    last: Option<u8>,
    emergency: &Emergency,
) -> Result<(), AllocError>
    ensures { OnOk result (string_bytes text.new
        ≡ string_bytes text.old ++ emergency_words drive node last emergency.now) }
{
    push_filled(
        text,
        "EMCY node % code %% register % (%) manufacturer %",
        &[
            Part::Node(node),
            Part::Code(emergency.code),
            Part::CodeWords(drive, emergency.code),
            Part::Register(emergency.register),
            Part::RegisterWords(last, emergency.register),
            Part::Bytes(&emergency.manufacturer),
        ],
    )
}
