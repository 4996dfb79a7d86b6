//! Laws about a device that is built from a data sheet: a call of one changes nothing.

ghost use Rattle.std.specs.Prelude.{◌≡◌, ℕ, true, List, length};
ghost use Rattle.co_value.specs.declared.key.Key.{Key};
ghost use Rattle.co_dict.specs.Rows.{written};
ghost use Rattle.co_dict_build.specs.Built.{Plan};
ghost use Rattle.co_sdo_client.specs.declared.mode.Mode.{Mode};
ghost use Rattle.co_sdo_client.specs.declared.state.ClientState.TheVariants.{Done};
ghost use Rattle.co_sdo_client.specs.Calls.{Download};
ghost use Rattle.co_sdo_client.specs.Segments.{requests_needed};
ghost use Rattle.co_sdo_laws.specs.Undisturbed.{is_segmented_download};
ghost use Rattle.co_node_model.specs.Inputs.{Inputs};
ghost use Rattle.co_node_model.specs.Moments.{Constants};
ghost use Rattle.co_node_model.specs.Device.{contents_of};
ghost use Rattle.co_node_model.specs.Loop.{download_of, last_ends, sent_of, state_at};
ghost use Rattle.co_node.specs.Built.{IsBuilt};
ghost use Rattle.co_node_laws.specs.Served.{IsServed};
ghost use Rattle.co_node_laws.specs.Apart.{BeginsApart};
ghost use Rattle.co_node.specs.Served.{PermittedComplete, StandOnDictionaries};

use co_node_laws::{segmented_download_ends, stays_apart};

/// After any inputs, the entries of a device are those of a dictionary: its store keeps them so.
pub fn stands_on_dictionary()
    ensures { StandOnDictionaries }
{}

/// A device built from a data sheet, as by `Node::build`, begins with SYNC and EMCY apart from its
/// default SDO channel: else `build` reports `BadCobId` for 1005:00 or 1014:00 (CiA 301, 7.3.5).
pub fn begins_apart()
    ensures { (plan : Plan) (k : Constants) → IsBuilt plan k → BeginsApart k }
{}

/// A segmented download that a device built from a data sheet serves completes, after any inputs
/// (CiA 301, 7.2.4.3.3 and 7.2.4.3.4): the client is done (`done`) after one request and one for
/// each seven bytes or fewer, at least one (`requests`), the entry has the bytes, and no other
/// entry was changed (`entry`).
pub fn built_download_ends()
    ensures done { (plan : Plan) (k : Constants) (before : Inputs) (key : Key) (bytes : List ℕ)
        (mode : Mode) → IsBuilt plan k → IsServed k before key bytes →
        is_segmented_download mode (Download bytes true) ≡ true →
        state_at (download_of k key bytes mode) (last_ends (download_of k key bytes mode) before)
        ≡ Done }
    ensures requests { (plan : Plan) (k : Constants) (before : Inputs) (key : Key)
        (bytes : List ℕ) (mode : Mode) → IsBuilt plan k → IsServed k before key bytes →
        is_segmented_download mode (Download bytes true) ≡ true →
        sent_of (download_of k key bytes mode) before ≡ requests_needed (length bytes) }
    ensures entry { (plan : Plan) (k : Constants) (before : Inputs) (key : Key) (bytes : List ℕ)
        (mode : Mode) → IsBuilt plan k → IsServed k before key bytes →
        is_segmented_download mode (Download bytes true) ≡ true →
        contents_of k (last_ends (download_of k key bytes mode) before).inputs
        ≡ written (contents_of k before) key bytes }
{
    begins_apart();
    stays_apart();
    segmented_download_ends();
}

/// The same for each segmented download that such a device permits, without a condition on its
/// entries: they are those of a dictionary.
pub fn permitted_download_completes()
    ensures { PermittedComplete }
{
    stands_on_dictionary();
    built_download_ends();
}
