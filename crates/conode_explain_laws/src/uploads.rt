//! Uploads from the server's channel.

ghost use Rattle.std.specs.Prelude.{◌≡◌, ℕ, List};
ghost use Rattle.co_dict.specs.Stores.{Description};
ghost use Rattle.conode_explain_laws.specs.Recordings.{Input, AreInputs, recorded};
ghost use Rattle.conode_explain_laws.specs.Downloads.{AreSome, AreOrderly};
ghost use Rattle.conode_explain_laws.specs.Uploads.{uploads_done, uploads_served};

/// Uploads, expedited, segmented or in blocks (CiA 301, 7.2.4.3.6, 7.2.4.3.7 and 7.2.4.3.13 to
/// 7.2.4.3.15), whatever frames come, and whether transfers time out or are dropped.
/// `done_is_served`: each one that explain says is done, the channel has served whole; the frame
/// that it is done with is the channel's answer with the last of its bytes, in blocks the client's
/// end after that of the server; and the data of its frames are the bytes that the entry had when
/// the upload began. `served_is_done`: where frames are in order (`AreOrderly`), explain says so of
/// each one that the channel serves whole, and of no other. This is a law: a call of it changes
/// nothing.
pub fn all_uploads()
    ensures done_is_served { (stamp : ℕ → ℕ) (d : Description) (inputs : List Input) →
        AreInputs d inputs →
        AreSome (uploads_done (recorded stamp d inputs)) (uploads_served stamp d inputs) }
    ensures served_is_done { (stamp : ℕ → ℕ) (d : Description) (inputs : List Input) →
        AreInputs d inputs → AreOrderly d inputs →
        uploads_done (recorded stamp d inputs) ≡ uploads_served stamp d inputs }
{}
