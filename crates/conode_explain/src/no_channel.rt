//! What is said of a frame of no SDO channel, as most frames are: nothing.

ghost use Rattle.std.specs.Prelude.{◌≡◌, None};

use conode_explain_transfers::Told;
use std::marker::Model;

/// What is said of a frame of no SDO channel: nothing. One value serves all frames: it has the room
/// of all that can be said, and to make one for each frame takes longer than most else of it.
#[derive(Drop)]
pub(crate) struct NoChannel {
    said: Option<Told>,
}

impl Model for NoChannel {
    ghost use Rattle.std.specs.Prelude.{ℕ, ◌≡◌, None};

    ghost Value = { ℕ };

    ghost view = { λ nothing. 0 };

    // nothing is said
    ghost invariant = { λ nothing. nothing.said ≡ None };
}

impl NoChannel {
    pub(crate) fn new() -> NoChannel {
        NoChannel { said: None }
    }

    /// What is said of a frame.
    #[inline(always)]
    pub(crate) fn said(&self) -> &Option<Told>
        ensures { result.now ≡ None }
    {
        &self.said
    }
}
