//! Undisturbed transfers: each frame arrives once and in order, and neither end times out. The
//! channel may have had transfers before; none of them is open when the client begins.
//!
//! Each law states the progress of the transfer after any such events, what it sets or returns, and
//! how many frames each end sends. When no frame is on its way the transfer is over, and another
//! client may begin (`over`). The laws also state how many rounds are enough for that (`ends`,
//! `rests`).

ghost use Rattle.std.specs.Prelude.{◌≡◌, ◌*◌, ◌≤◌, true, List, length};
ghost use Rattle.co_value.specs.Numbers.{AreBytes};
ghost use Rattle.co_dict.specs.Rows.{written};
ghost use Rattle.co_sdo_client.specs.declared.state.ClientState.TheVariants.{Done};
ghost use Rattle.co_sdo_client.specs.Segments.{bytes_of, cap_of, requests_needed};
ghost use Rattle.co_sdo_client.specs.Outcomes.{outcome, result as given};
ghost use Rattle.co_sdo.specs.Uploads.{value_at};
ghost use Rattle.co_sdo_laws.specs.World.{Setup, WorldEvent, world_after};
ghost use Rattle.co_sdo_laws.specs.Undisturbed.{
  IsUndisturbed,
  GoesInTurns,
  rounds_after,
  is_expedited_download,
  is_segmented_download,
  is_plain_upload,
  is_block_download,
  is_block_upload,
  upload_requests,
  on_their_way,
  IsOver,
  GoesInBlocks,
  block_frames,
  block_upload_frames,
  HaveSent,
  block_download_requests,
  block_download_answers,
  block_upload_requests,
  block_upload_answers,
};

/// A permitted, undisturbed expedited download (CiA 301, 7.2.4.3.3): 1 to 4 bytes in one request.
/// The client is done exactly when the request and its answer have arrived, and it never aborts.
/// When it is done the entry has the bytes, and no other entry was changed. This is a law: a call
/// of it changes nothing.
pub fn expedited_download()
    ensures turns { (s : Setup) (events : List WorldEvent) → IsUndisturbed s events →
        is_expedited_download s.call.mode s.call.job ≡ true →
        GoesInTurns s.call 1 (world_after s events) }
    ensures entry { (s : Setup) (events : List WorldEvent) → IsUndisturbed s events →
        is_expedited_download s.call.mode s.call.job ≡ true →
        outcome s.call (world_after s events).events ≡ Done →
        (world_after s events).contents ≡ written s.contents s.call.key (bytes_of s.call.job) }
    ensures frames { (s : Setup) (events : List WorldEvent) → IsUndisturbed s events →
        is_expedited_download s.call.mode s.call.job ≡ true →
        outcome s.call (world_after s events).events ≡ Done →
        HaveSent s 1 1 (world_after s events) }
    ensures over { (s : Setup) (events : List WorldEvent) → IsUndisturbed s events →
        is_expedited_download s.call.mode s.call.job ≡ true →
        AreBytes (bytes_of s.call.job) →
        on_their_way (world_after s events) ≡ 0 →
        IsOver s (world_after s events) }
    ensures ends { (s : Setup) (events : List WorldEvent) → IsUndisturbed s events →
        is_expedited_download s.call.mode s.call.job ≡ true →
        outcome s.call (world_after s (rounds_after 2 events)).events ≡ Done }
    ensures rests { (s : Setup) (events : List WorldEvent) → IsUndisturbed s events →
        is_expedited_download s.call.mode s.call.job ≡ true →
        on_their_way (world_after s (rounds_after 2 events)) ≡ 0 }
{}

/// A permitted, undisturbed segmented download (CiA 301, 7.2.4.3.3 and 7.2.4.3.4). The client is
/// done exactly when each request and its answer have arrived, and it never aborts. Until then one
/// frame is on its way, so that the transfer can go on. It needs one request, and one for each
/// seven bytes or fewer, at least one. When it is done the entry has the bytes, and no other entry
/// was changed. This is a law: a call of it changes nothing.
pub fn segmented_download()
    ensures turns { (s : Setup) (events : List WorldEvent) → IsUndisturbed s events →
        is_segmented_download s.call.mode s.call.job ≡ true →
        GoesInTurns s.call (requests_needed (length (bytes_of s.call.job))) (world_after s events) }
    ensures entry { (s : Setup) (events : List WorldEvent) → IsUndisturbed s events →
        is_segmented_download s.call.mode s.call.job ≡ true →
        outcome s.call (world_after s events).events ≡ Done →
        (world_after s events).contents ≡ written s.contents s.call.key (bytes_of s.call.job) }
    ensures frames { (s : Setup) (events : List WorldEvent) → IsUndisturbed s events →
        is_segmented_download s.call.mode s.call.job ≡ true →
        outcome s.call (world_after s events).events ≡ Done →
        HaveSent s (requests_needed (length (bytes_of s.call.job)))
        (requests_needed (length (bytes_of s.call.job))) (world_after s events) }
    ensures over { (s : Setup) (events : List WorldEvent) → IsUndisturbed s events →
        is_segmented_download s.call.mode s.call.job ≡ true →
        AreBytes (bytes_of s.call.job) →
        on_their_way (world_after s events) ≡ 0 →
        IsOver s (world_after s events) }
    ensures ends { (s : Setup) (events : List WorldEvent) → IsUndisturbed s events →
        is_segmented_download s.call.mode s.call.job ≡ true →
        outcome s.call (world_after s (rounds_after
        (2 * requests_needed (length (bytes_of s.call.job))) events)).events ≡ Done }
    ensures rests { (s : Setup) (events : List WorldEvent) → IsUndisturbed s events →
        is_segmented_download s.call.mode s.call.job ≡ true →
        on_their_way (world_after s (rounds_after
        (2 * requests_needed (length (bytes_of s.call.job))) events)) ≡ 0 }
{}

/// A permitted, undisturbed upload, expedited or segmented, of a value that the client has room for
/// (CiA 301, 7.2.4.3.6 and 7.2.4.3.7). The client is done exactly when each request and its answer
/// have arrived, and it never aborts. It needs one request for 1 to 4 bytes; else one, and one more
/// for each seven bytes or fewer, at least one. When it is done it returns the entry's value. No
/// entry is changed. This is a law: a call of it changes nothing.
pub fn upload()
    ensures turns { (s : Setup) (events : List WorldEvent) → IsUndisturbed s events →
        is_plain_upload s.call.mode s.call.job ≡ true →
        length (value_at s.contents s.call.key) ≤ cap_of s.call.job →
        GoesInTurns s.call (upload_requests (length (value_at s.contents s.call.key)))
        (world_after s events) }
    ensures value { (s : Setup) (events : List WorldEvent) → IsUndisturbed s events →
        is_plain_upload s.call.mode s.call.job ≡ true →
        length (value_at s.contents s.call.key) ≤ cap_of s.call.job →
        outcome s.call (world_after s events).events ≡ Done →
        given s.call (world_after s events).events ≡ value_at s.contents s.call.key }
    ensures contents { (s : Setup) (events : List WorldEvent) → IsUndisturbed s events →
        is_plain_upload s.call.mode s.call.job ≡ true →
        length (value_at s.contents s.call.key) ≤ cap_of s.call.job →
        (world_after s events).contents ≡ s.contents }
    ensures frames { (s : Setup) (events : List WorldEvent) → IsUndisturbed s events →
        is_plain_upload s.call.mode s.call.job ≡ true →
        length (value_at s.contents s.call.key) ≤ cap_of s.call.job →
        outcome s.call (world_after s events).events ≡ Done →
        HaveSent s (upload_requests (length (value_at s.contents s.call.key)))
        (upload_requests (length (value_at s.contents s.call.key))) (world_after s events) }
    ensures over { (s : Setup) (events : List WorldEvent) → IsUndisturbed s events →
        is_plain_upload s.call.mode s.call.job ≡ true →
        length (value_at s.contents s.call.key) ≤ cap_of s.call.job →
        on_their_way (world_after s events) ≡ 0 →
        IsOver s (world_after s events) }
    ensures ends { (s : Setup) (events : List WorldEvent) → IsUndisturbed s events →
        is_plain_upload s.call.mode s.call.job ≡ true →
        length (value_at s.contents s.call.key) ≤ cap_of s.call.job →
        outcome s.call (world_after s (rounds_after
        (2 * upload_requests (length (value_at s.contents s.call.key))) events)).events ≡ Done }
    ensures rests { (s : Setup) (events : List WorldEvent) → IsUndisturbed s events →
        is_plain_upload s.call.mode s.call.job ≡ true →
        length (value_at s.contents s.call.key) ≤ cap_of s.call.job →
        on_their_way (world_after s (rounds_after
        (2 * upload_requests (length (value_at s.contents s.call.key))) events)) ≡ 0 }
{}

/// A permitted, undisturbed block download (CiA 301, 7.2.4.3.9 to 7.2.4.3.11). The client is done
/// exactly when all its frames and the answers to them have arrived, and it never aborts. Until
/// then a frame is on its way, so that the transfer can go on. The client sends initiate, a segment
/// for each seven bytes or fewer, and the end; the channel confirms initiate and the end, and
/// acknowledges each sub-block of 127 segments or fewer. When it is done the entry has the bytes,
/// and no other entry was changed. This is a law: a call of it changes nothing.
pub fn block_download()
    ensures blocks { (s : Setup) (events : List WorldEvent) → IsUndisturbed s events →
        is_block_download s.call.mode s.call.job ≡ true →
        GoesInBlocks s.call (block_frames (length (bytes_of s.call.job)))
        (block_frames (length (bytes_of s.call.job))) (world_after s events) }
    ensures entry { (s : Setup) (events : List WorldEvent) → IsUndisturbed s events →
        is_block_download s.call.mode s.call.job ≡ true →
        outcome s.call (world_after s events).events ≡ Done →
        (world_after s events).contents ≡ written s.contents s.call.key (bytes_of s.call.job) }
    ensures frames { (s : Setup) (events : List WorldEvent) → IsUndisturbed s events →
        is_block_download s.call.mode s.call.job ≡ true →
        outcome s.call (world_after s events).events ≡ Done →
        HaveSent s (block_download_requests (length (bytes_of s.call.job)))
        (block_download_answers (length (bytes_of s.call.job))) (world_after s events) }
    ensures over { (s : Setup) (events : List WorldEvent) → IsUndisturbed s events →
        is_block_download s.call.mode s.call.job ≡ true →
        AreBytes (bytes_of s.call.job) →
        on_their_way (world_after s events) ≡ 0 →
        IsOver s (world_after s events) }
    ensures ends { (s : Setup) (events : List WorldEvent) → IsUndisturbed s events →
        is_block_download s.call.mode s.call.job ≡ true →
        outcome s.call (world_after s (rounds_after
        (block_frames (length (bytes_of s.call.job))) events)).events ≡ Done }
    ensures rests { (s : Setup) (events : List WorldEvent) → IsUndisturbed s events →
        is_block_download s.call.mode s.call.job ≡ true →
        on_their_way (world_after s (rounds_after
        (block_frames (length (bytes_of s.call.job))) events)) ≡ 0 }
{}

/// A permitted, undisturbed block upload of a value that the client has room for (CiA 301,
/// 7.2.4.3.13 to 7.2.4.3.15). The client is done exactly when all frames of the server have
/// arrived, and it never aborts; its own end is on its way then. Until that end has arrived a frame
/// is on its way, so that the transfer can go on. The client sends initiate, start, an
/// acknowledgement for each sub-block of 127 segments or fewer, and its end; the channel confirms
/// initiate, sends a segment for each seven bytes or fewer, and its end. When the client is done it
/// returns the entry's value. No entry is changed. This is a law: a call of it changes nothing.
pub fn block_upload()
    ensures blocks { (s : Setup) (events : List WorldEvent) → IsUndisturbed s events →
        is_block_upload s.call.mode s.call.job ≡ true →
        length (value_at s.contents s.call.key) ≤ cap_of s.call.job →
        GoesInBlocks s.call (block_frames (length (value_at s.contents s.call.key)))
        (block_upload_frames (length (value_at s.contents s.call.key))) (world_after s events) }
    ensures value { (s : Setup) (events : List WorldEvent) → IsUndisturbed s events →
        is_block_upload s.call.mode s.call.job ≡ true →
        length (value_at s.contents s.call.key) ≤ cap_of s.call.job →
        outcome s.call (world_after s events).events ≡ Done →
        given s.call (world_after s events).events ≡ value_at s.contents s.call.key }
    ensures contents { (s : Setup) (events : List WorldEvent) → IsUndisturbed s events →
        is_block_upload s.call.mode s.call.job ≡ true →
        length (value_at s.contents s.call.key) ≤ cap_of s.call.job →
        (world_after s events).contents ≡ s.contents }
    ensures frames { (s : Setup) (events : List WorldEvent) → IsUndisturbed s events →
        is_block_upload s.call.mode s.call.job ≡ true →
        length (value_at s.contents s.call.key) ≤ cap_of s.call.job →
        outcome s.call (world_after s events).events ≡ Done →
        HaveSent s (block_upload_requests (length (value_at s.contents s.call.key)))
        (block_upload_answers (length (value_at s.contents s.call.key))) (world_after s events) }
    ensures over { (s : Setup) (events : List WorldEvent) → IsUndisturbed s events →
        is_block_upload s.call.mode s.call.job ≡ true →
        length (value_at s.contents s.call.key) ≤ cap_of s.call.job →
        on_their_way (world_after s events) ≡ 0 →
        IsOver s (world_after s events) }
    ensures ends { (s : Setup) (events : List WorldEvent) → IsUndisturbed s events →
        is_block_upload s.call.mode s.call.job ≡ true →
        length (value_at s.contents s.call.key) ≤ cap_of s.call.job →
        outcome s.call (world_after s (rounds_after
        (block_upload_frames (length (value_at s.contents s.call.key))) events)).events ≡ Done }
    ensures rests { (s : Setup) (events : List WorldEvent) → IsUndisturbed s events →
        is_block_upload s.call.mode s.call.job ≡ true →
        length (value_at s.contents s.call.key) ≤ cap_of s.call.job →
        on_their_way (world_after s (rounds_after
        (block_upload_frames (length (value_at s.contents s.call.key))) events)) ≡ 0 }
{}
