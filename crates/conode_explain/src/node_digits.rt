//! Node-IDs in decimal digits, in fewer steps than numbers of any size: most lines end with one.

ghost use Rattle.std.specs.Prelude.{◌≡◌, ◌<◌, ◌+◌, [], ◌∷◌, ◌++◌, OnOk, decimal, string_bytes};
ghost use Rattle.conode_explain.specs.NodeDigits.{node_digits};

use std::alloc::AllocError;

fn push_digit(text: &mut String, digit: u8) -> Result<(), AllocError>
    requires { digit < 10 }
    ensures { OnOk result (string_bytes text.new ≡ string_bytes text.old ++ (48 + digit) ∷ []) }
{
    text.push((b'0' + digit) as char)
}

#[tactic(auto, unfolding(crate::specs::NodeDigits::node_digits))]
fn push_digits(text: &mut String, node: u8) -> Result<(), AllocError>
    requires { node < 128 }
    ensures { OnOk result (string_bytes text.new ≡ string_bytes text.old ++ node_digits node) }
{
    if node > 99 {
        attempt!(text.push('1'));
    }
    if node > 9 {
        attempt!(push_digit(text, node / 10 % 10));
    }
    push_digit(text, node % 10)
}

/// Appends a node-ID, or 0, in decimal digits. On an `Err` memory ran out, and a part of it may be
/// there.
#[tactic(auto, using(crate::proofs::NodeDigitsTable::are_decimal))]
pub(crate) fn push_node(text: &mut String, node: u8) -> Result<(), AllocError>
    requires { node < 128 }
    ensures { OnOk result (string_bytes text.new ≡ string_bytes text.old ++ decimal node) }
{
    push_digits(text, node)
}
