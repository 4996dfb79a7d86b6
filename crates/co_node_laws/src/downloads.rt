//! Downloads over the default channel of a node complete. This is a law: a call of it changes
//! nothing.

ghost use Rattle.std.specs.Prelude.{◌≡◌, ℕ, true, List, length};
ghost use Rattle.co_value.specs.declared.key.Key.{Key};
ghost use Rattle.co_dict.specs.Rows.{written};
ghost use Rattle.co_sdo_client.specs.declared.mode.Mode.{Mode};
ghost use Rattle.co_sdo_client.specs.declared.state.ClientState.TheVariants.{Done};
ghost use Rattle.co_sdo_client.specs.Calls.{Download};
ghost use Rattle.co_sdo_client.specs.Segments.{requests_needed};
ghost use Rattle.co_sdo_laws.specs.Undisturbed.{is_segmented_download};
ghost use Rattle.co_node_model.specs.Inputs.{Inputs};
ghost use Rattle.co_node_model.specs.Moments.{Constants};
ghost use Rattle.co_node_model.specs.Device.{contents_of};
ghost use Rattle.co_node_model.specs.Loop.{download_of, last_ends, sent_of, state_at};
ghost use Rattle.co_node_laws.specs.Apart.{AreApart};
ghost use Rattle.co_node_laws.specs.Served.{IsServed};

/// A segmented download that a node serves completes, if SYNC and EMCY don't use the identifiers of
/// its default channel (CiA 301, 7.2.4.3.3 and 7.2.4.3.4). The mode is segmented, or plain with
/// none or more than four bytes. The client is done (`done`) after one request and one for each
/// seven bytes or fewer, at least one (`requests`). The entry has the bytes, and no other entry was
/// changed (`entry`).
pub fn segmented_download_ends()
    ensures done { (k : Constants) (before : Inputs) (key : Key) (bytes : List ℕ) (mode : Mode) →
        AreApart k.description.node (contents_of k before) →
        IsServed k before key bytes → is_segmented_download mode (Download bytes true) ≡ true →
        state_at (download_of k key bytes mode) (last_ends (download_of k key bytes mode) before)
        ≡ Done }
    ensures requests { (k : Constants) (before : Inputs) (key : Key) (bytes : List ℕ)
        (mode : Mode) → AreApart k.description.node (contents_of k before) →
        IsServed k before key bytes → is_segmented_download mode (Download bytes true) ≡ true →
        sent_of (download_of k key bytes mode) before ≡ requests_needed (length bytes) }
    ensures entry { (k : Constants) (before : Inputs) (key : Key) (bytes : List ℕ) (mode : Mode) →
        AreApart k.description.node (contents_of k before) →
        IsServed k before key bytes → is_segmented_download mode (Download bytes true) ≡ true →
        contents_of k (last_ends (download_of k key bytes mode) before).inputs
        ≡ written (contents_of k before) key bytes }
{}
