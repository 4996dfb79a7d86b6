//! Downloads towards the server's channel.

ghost use Rattle.std.specs.Prelude.{◌≡◌, ℕ, List};
ghost use Rattle.co_dict.specs.Stores.{Description};
ghost use Rattle.conode_explain_laws.specs.Recordings.{Input, AreInputs, recorded};
ghost use Rattle.conode_explain_laws.specs.Downloads.{downloads_done, downloads_set, ArePlain, AreOrderly, AreSome};

/// Downloads, expedited, segmented or in blocks (CiA 301, 7.2.4.3.3, 7.2.4.3.4 and 7.2.4.3.9 to
/// 7.2.4.3.11), whatever frames come, and whether transfers time out or are dropped. `done_is_set`:
/// each one that explain says is done, with a CRC that was compared or without, the channel has set;
/// the frame that it is done with is the channel's answer, and the entry has these bytes.
/// `set_is_done`: where frames are in order (`AreOrderly`), explain says so of each one that the
/// channel sets, and of no other. `plain_is_orderly`: they are where each frame has eight bytes and
/// none begins a block download. This is a law: a call of it changes nothing.
pub fn all_downloads()
    ensures done_is_set { (stamp : ℕ → ℕ) (d : Description) (inputs : List Input) →
        AreInputs d inputs →
        AreSome (downloads_done d.rows (recorded stamp d inputs)) (downloads_set stamp d inputs) }
    ensures set_is_done { (stamp : ℕ → ℕ) (d : Description) (inputs : List Input) →
        AreInputs d inputs → AreOrderly d inputs →
        downloads_done d.rows (recorded stamp d inputs) ≡ downloads_set stamp d inputs }
    ensures plain_is_orderly { (d : Description) (inputs : List Input) →
        AreInputs d inputs → ArePlain inputs → AreOrderly d inputs }
{}
