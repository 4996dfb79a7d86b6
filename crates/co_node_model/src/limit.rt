//! The limit on rounds of a client and a node.

ghost use Rattle.std.specs.Prelude.{◌≡◌};
ghost use Rattle.co_node_model.specs.Loop.{most_rounds};

/// The most rounds that a client and a node run: 20,000.
pub fn most_rounds() -> u16
    ensures { result ≡ most_rounds }
{
    20_000
}
