//! Laws of the definitions, for the crates above.

ghost use Rattle.std.specs.Prelude.{◌≡◌, ℕ, ◌&&◌, Bool, List, Some, None, option_map};
ghost use Rattle.std.specs.List.{find, range_with_len};
ghost use Rattle.co_frame.specs.FrameContent.{FrameContent};
ghost use Rattle.co_dict.specs.Rows.{Contents};
ghost use Rattle.co_dict.specs.SdoChannels.{is_channel};
ghost use Rattle.co_dict.specs.Stores.{Description};
ghost use Rattle.co_sdo.specs.Downloads.{Download};
ghost use Rattle.co_sdo.specs.Log.{Log};
ghost use Rattle.co_sdo.specs.Refused.{completion_refusal};
ghost use Rattle.co_sdo.specs.Channels.{ChannelSettings, channels_of, settings_for};
ghost use Rattle.co_sdo.specs.Events.{set_of};

use crate::Channel;
use crate::bank::Bank;

impl Bank {
    /// The first channel in the list that passes a test is the one with the lowest number, 0 to
    /// 127, that exists and passes it: the one that takes a frame, has timed out, or has a number.
    /// This is a law: a call of it changes nothing.
    #[tactic(auto, using(crate::proofs::Numbers::lowest_found))]
    pub fn first_is_lowest()
        ensures { (d : Description) (contents : Contents) (greatest time : ℕ)
            (passes : ChannelSettings → Bool) →
            find passes (channels_of d contents greatest time) ≡
            option_map (settings_for d contents greatest time) (find (λ n. is_channel contents n
            && passes (settings_for d contents greatest time n)) (range_with_len 0 128)) }
    {}

    /// An entry is set only by a download that the dictionary permits. This is a law: a call of it
    /// changes nothing.
    pub fn set_is_permitted()
        ensures { (channels : List ChannelSettings) (d : Description) (contents : Contents)
            (logs : ℕ → Log) (frame : FrameContent) (download : Download) →
            set_of channels d contents logs frame ≡ Some download →
            completion_refusal d contents download.key download.indicated download.bytes ≡ None }
    {
        Channel::set_is_permitted();
    }
}
