//! The commands of LSS (CiA 305, 3.9).

ghost use Rattle.std.specs.Prelude.{◌≡◌};
ghost use Rattle.conode_explain_services.specs.Lss.{
  answer_parameter,
  answer_words,
  request_parameter,
  request_words,
};

use crate::texts::{Row, words_in};

/// What a command has after its specifier.
#[derive(Clone, Copy)]
pub(crate) enum Parameter {
    Nothing,
    /// The state that all slaves switch to.
    Mode,
    /// A node-ID.
    Node,
    /// A part of an LSS address.
    Number,
    /// A table of bit rates and an index.
    Timing,
    /// A delay in ms.
    Delay,
    /// What fastscan compares.
    Scan,
    /// Whether the slave did it.
    Outcome,
}

/// A master's commands.
const REQUESTS: [Row; 22] = [
    Row(0x04, "switch state global"),
    Row(0x11, "configure node-ID"),
    Row(0x13, "configure bit timing"),
    Row(0x15, "activate bit timing"),
    Row(0x17, "store configuration"),
    Row(0x40, "switch state selective vendor-ID"),
    Row(0x41, "switch state selective product code"),
    Row(0x42, "switch state selective revision number"),
    Row(0x43, "switch state selective serial number"),
    Row(0x46, "identify vendor-ID"),
    Row(0x47, "identify product code"),
    Row(0x48, "identify revision number from"),
    Row(0x49, "identify revision number to"),
    Row(0x4A, "identify serial number from"),
    Row(0x4B, "identify serial number to"),
    Row(0x4C, "identify non-configured slaves"),
    Row(0x51, "fastscan"),
    Row(0x5A, "inquire vendor-ID"),
    Row(0x5B, "inquire product code"),
    Row(0x5C, "inquire revision number"),
    Row(0x5D, "inquire serial number"),
    Row(0x5E, "inquire node-ID"),
];

/// The words for a master's command specifier; empty for one that the standard doesn't have.
#[tactic(auto, unfolding(crate::specs::Lss::request_words))]
pub(crate) fn request_words(specifier: u8) -> &'static str
    ensures { result.now ≡ request_words specifier }
{
    words_in(&REQUESTS, specifier as u16)
}

/// What a master's command has after its specifier.
#[tactic(auto, unfolding(crate::specs::Lss::request_parameter))]
pub(crate) fn request_parameter(specifier: u8) -> Parameter
    ensures { result ≡ request_parameter specifier }
{
    match specifier {
        0x04 => Parameter::Mode,
        0x11 => Parameter::Node,
        0x13 => Parameter::Timing,
        0x15 => Parameter::Delay,
        0x40..=0x43 | 0x46..=0x4B => Parameter::Number,
        0x51 => Parameter::Scan,
        _ => Parameter::Nothing,
    }
}

/// A slave's answers.
const ANSWERS: [Row; 11] = [
    Row(0x11, "configure node-ID"),
    Row(0x13, "configure bit timing"),
    Row(0x17, "store configuration"),
    Row(0x44, "switch state selective: in state configuration"),
    Row(0x4F, "identified"),
    Row(0x50, "non-configured slave identified"),
    Row(0x5A, "vendor-ID"),
    Row(0x5B, "product code"),
    Row(0x5C, "revision number"),
    Row(0x5D, "serial number"),
    Row(0x5E, "node-ID"),
];

/// The words for a slave's command specifier; empty for one that the standard doesn't have.
#[tactic(auto, unfolding(crate::specs::Lss::answer_words))]
pub(crate) fn answer_words(specifier: u8) -> &'static str
    ensures { result.now ≡ answer_words specifier }
{
    words_in(&ANSWERS, specifier as u16)
}

/// What a slave's answer has after its specifier.
#[tactic(auto, unfolding(crate::specs::Lss::answer_parameter))]
pub(crate) fn answer_parameter(specifier: u8) -> Parameter
    ensures { result ≡ answer_parameter specifier }
{
    match specifier {
        0x11 | 0x13 | 0x17 => Parameter::Outcome,
        0x5A..=0x5D => Parameter::Number,
        0x5E => Parameter::Node,
        _ => Parameter::Nothing,
    }
}
