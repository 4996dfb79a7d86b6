//! What the line of a difference says that the difference doesn't have.

ghost use Rattle.std.specs.Prelude.{◌≡◌};
ghost use Rattle.conode_compare_text.specs.Beside.{
  came_at,
  no_details,
  nothing_came,
  nothing_passed,
};

use co_value::{DataType, Key};
use conode_compare_rules::FrameKind;
use conode_compare_transfers::{byte_at, key_in};
use conode_explain_values::ValueType;

/// A frame of a device's default SDO channel.
#[derive(Clone, Copy)]
pub struct Came {
    /// How many bytes it has.
    pub length: u8,
    /// The first one, which has the command specifier.
    pub command: u8,
    /// The multiplexer.
    pub key: Key,
}

impl Came {
    /// None.
    pub fn none() -> Came
        ensures { result ≡ nothing_came }
    {
        Came {
            length: 0,
            command: 0,
            key: Key { index: 0, sub: 0 },
        }
    }

    /// A frame of this kind: none, where it isn't one of the channel.
    pub fn at(kind: &FrameKind) -> Came
        ensures { result ≡ came_at kind.now }
    {
        match kind {
            FrameKind::Sdo(_, frame) => Came {
                length: frame.bytes().len() as u8,
                command: byte_at(frame, 0),
                key: key_in(frame),
            },
            _ => Came::none(),
        }
    }
}

/// A number that is beyond a limit.
#[derive(Clone, Copy)]
pub struct Passed {
    pub number: i128,
    pub limit: i128,
}

impl Passed {
    /// None.
    pub fn none() -> Passed
        ensures { result ≡ nothing_passed }
    {
        Passed {
            number: 0,
            limit: 0,
        }
    }
}

/// What the line of a difference says that the difference doesn't have.
#[derive(Clone, Copy)]
pub struct Details {
    /// The data type of the values of its entry.
    pub value_type: ValueType,
    /// The frame.
    pub came: Came,
    /// Whether the initiate request right before the frame asks to write.
    pub writes: bool,
    /// The number that was written, and the limit that it is beyond.
    pub passed: Passed,
}

impl Details {
    /// Nothing.
    pub fn none() -> Details
        ensures { result ≡ no_details }
    {
        Details {
            value_type: ValueType::Plain(DataType::Unsigned32),
            came: Came::none(),
            writes: false,
            passed: Passed::none(),
        }
    }
}
