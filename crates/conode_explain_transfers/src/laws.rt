//! Laws of every log of a channel.

ghost use Rattle.std.specs.Prelude.{◌≡◌, ℕ, List, IfSome};
ghost use Rattle.conode_explain_transfers.specs.declared.kinds.Side.{Side as End};
ghost use Rattle.conode_explain_transfers.specs.Data.{data_after, IfDone, IsDoneAfter};
ghost use Rattle.conode_explain_transfers.specs.Digests.{digest_of};
ghost use Rattle.conode_explain_transfers.specs.Followed.{Event, following_after, said};
ghost use Rattle.conode_explain_transfers.specs.HeardData.{
  heard_after,
  heard_data,
  heard_of,
  IsDoneHeard,
};

/// What is kept of the open transfer is the digest of all the data that its frames took. This is a
/// law: a call of it changes nothing.
pub fn kept_data()
    ensures { (log : List Event) → IfSome (following_after log).transfer
        (λ transfer. transfer.taken ≡ digest_of (data_after log)) }
{}

/// What `Done` says: the frame is the last confirmation in the transfer's protocol, no frame is
/// missing, the number of bytes is the indicated one, and the CRC, where both ends support it, is
/// that of the bytes. This is a law: a call of it changes nothing.
pub fn done_is_confirmed()
    ensures { (log : List Event) (micros : ℕ) (side : End) (frame : List ℕ)
        → IfSome (said log micros side frame).ended
        (λ ended. IfDone ended.ending (IsDoneAfter log micros side frame)) }
{}

/// The same of what is kept in a recording, by `Channel::hear`. This is a law: a call of it changes
/// nothing.
pub fn kept_in_recordings()
    ensures { (log : List Event) → IfSome (heard_after log).transfer
        (λ transfer. transfer.taken ≡ digest_of (heard_data log)) }
{}

/// The same of what is `Done` in a recording, by `Channel::hear`. This is a law: a call of it changes
/// nothing.
pub fn done_in_recordings()
    ensures { (log : List Event) (micros : ℕ) (side : End) (frame : List ℕ)
        → IfSome (heard_of log micros side frame).ended
        (λ ended. IfDone ended.ending (IsDoneHeard log micros side frame)) }
{}
