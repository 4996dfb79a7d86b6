//! A transfer that its client reports as done has moved exactly the bytes, whatever disturbed it.

ghost use Rattle.std.specs.Prelude.{◌≡◌, true, false, List, Some};
ghost use Rattle.std.specs.List.{list_any};
ghost use Rattle.co_sdo_client.specs.declared.state.ClientState.TheVariants.{Done};
ghost use Rattle.co_sdo_client.specs.Segments.{bytes_of};
ghost use Rattle.co_sdo_client.specs.Outcomes.{outcome, result as given};
ghost use Rattle.co_sdo.specs.Uploads.{value_at};
ghost use Rattle.co_sdo_laws.specs.World.{Setup, WorldEvent, world_after};
ghost use Rattle.co_sdo_laws.specs.Undisturbed.{is_plain_upload, is_block_download, is_block_upload};
ghost use Rattle.co_sdo_loss_laws.specs.Disturbed.{IsAlone, is_plain_download, is_repeat};

/// A download, expedited or segmented (CiA 301, 7.2.4.3.3 and 7.2.4.3.4), in which frames may be
/// lost or repeated, and either end may time out. If the client is done, the entry has exactly its
/// bytes. This is a law: a call of it changes nothing.
pub fn download()
    ensures entry { (s : Setup) (events : List WorldEvent) → IsAlone s →
        is_plain_download s.call.mode s.call.job ≡ true →
        outcome s.call (world_after s events).events ≡ Done →
        (world_after s events).contents s.call.key ≡ Some (bytes_of s.call.job) }
{}

/// An upload, expedited or segmented (CiA 301, 7.2.4.3.6 and 7.2.4.3.7), in which frames may be
/// lost or repeated, and either end may time out. If the client is done, it returns exactly the
/// bytes that the entry had when it began. This is a law: a call of it changes nothing.
pub fn upload()
    ensures value { (s : Setup) (events : List WorldEvent) → IsAlone s →
        is_plain_upload s.call.mode s.call.job ≡ true →
        outcome s.call (world_after s events).events ≡ Done →
        given s.call (world_after s events).events ≡ value_at s.contents s.call.key }
{}

/// A block upload (CiA 301, 7.2.4.3.13 to 7.2.4.3.15) in which no frame is repeated; frames may be
/// lost, and either end may time out. If the client is done, it returns exactly the bytes that the
/// entry had when it began. This is a law: a call of it changes nothing.
pub fn block_upload()
    ensures value { (s : Setup) (events : List WorldEvent) → IsAlone s →
        is_block_upload s.call.mode s.call.job ≡ true → list_any is_repeat events ≡ false →
        outcome s.call (world_after s events).events ≡ Done →
        given s.call (world_after s events).events ≡ value_at s.contents s.call.key }
{}

/// A block download (CiA 301, 7.2.4.3.9 to 7.2.4.3.11) in which no frame is repeated; frames may be
/// lost, and either end may time out. If the client is done, the entry has exactly its bytes. This
/// is a law: a call of it changes nothing.
pub fn block_download()
    ensures entry { (s : Setup) (events : List WorldEvent) → IsAlone s →
        is_block_download s.call.mode s.call.job ≡ true → list_any is_repeat events ≡ false →
        outcome s.call (world_after s events).events ≡ Done →
        (world_after s events).contents s.call.key ≡ Some (bytes_of s.call.job) }
{}
