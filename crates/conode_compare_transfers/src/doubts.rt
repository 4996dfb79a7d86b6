//! After which frames of the default SDO channel an earlier request may still be answered, and a
//! sub-block of a block download may be open that isn't followed (CiA 301, 7.2.4.3).

ghost use Rattle.std.specs.Prelude.{◌≡◌};
ghost use Rattle.conode_compare_transfers.specs.Dialogues.{
  both_know_its_end,
  confirms_all,
  continues,
  doubted_after,
  ends_in_doubt,
  is_final,
  is_in_doubt,
  is_initiate,
  leaves_block,
  leaves_request_open,
  opens_sub_block,
  sub_block_after,
};

use crate::breach::key_in;
use co_frame::{AbortCode, Frame};
use conode_explain_transfers::{Direction, Ended, Ending, Heard, Protocol, Side, What};

// Whether nothing is answered after an abort of the device. One with 05040000 may be of an earlier
// transfer of the entry, or sent before the device took the client's frame, which it answers later;
// not where it has answered all (`quiet`).
fn is_final(quiet: bool, code: AbortCode) -> bool
    ensures { result ≡ is_final quiet code }
{
    quiet || code != AbortCode::TIMED_OUT
}

// Whether a frame that ends a block transfer as done shows that the server has taken all of its
// frames: it is the server's confirmation of a download, which answers the client's last frame, and
// nothing since its initiate request left a doubt (`doubted`).
fn confirms_all(side: Side, doubted: Option<u64>, begun: u64) -> bool
    ensures { result ≡ confirms_all side doubted begun }
{
    match (side, doubted) {
        (Side::Server, Some(doubted)) => doubted < begun,
        (Side::Server, None) => true,
        (Side::Client, _) => false,
    }
}

// Whether both ends know the end of a transfer that a frame ended. An abort of another entry answers
// an earlier request. Of a block transfer it isn't assumed, but where the server confirms a download,
// and where the initiate request is refused, and an answer was owed to that (`owed`).
fn both_know_its_end(
    owed: bool,
    quiet: bool,
    side: Side,
    doubted: Option<u64>,
    ended: &Ended,
    frame: &Frame,
) -> bool
    ensures { result ≡ both_know_its_end owed quiet side doubted ended.now frame.now }
{
    let is_block = matches!(ended.protocol, Protocol::Block);
    match ended.ending {
        Ending::Done { crc: _ } => confirms_all(side, doubted, ended.begun) || !is_block,
        Ending::Aborted {
            by: Side::Server,
            code,
        } => (owed || !is_block) && is_final(quiet, code) && key_in(frame) == ended.key,
        _ => false,
    }
}

fn ends_in_doubt(
    owed: bool,
    quiet: bool,
    side: Side,
    doubted: Option<u64>,
    ended: &Option<Ended>,
    frame: &Frame,
) -> bool
    ensures { result ≡ ends_in_doubt owed quiet side doubted ended.now frame.now }
{
    match ended {
        Some(ended) => !both_know_its_end(owed, quiet, side, doubted, ended, frame),
        None => false,
    }
}

// whether a frame of the device goes on with the open transfer
pub(crate) fn continues(what: What) -> bool
    ensures { result ≡ continues what }
{
    matches!(what, What::Part | What::Segment { number: _ })
}

pub(crate) fn is_initiate(what: What) -> bool
    ensures { result ≡ is_initiate what }
{
    matches!(what, What::Initiate)
}

// Whether a block download was left, and the server may go on with it. `other`: the frame is of
// another entry.
pub(crate) fn leaves_block(other: bool, ended: &Option<Ended>) -> bool
    ensures { result ≡ leaves_block other ended.now }
{
    match ended {
        Some(ended) => {
            matches!(
                (ended.protocol, ended.direction),
                (Protocol::Block, Direction::Download)
            ) && (other || !matches!(ended.ending, Ending::Aborted { by: _, code: _ }))
        }
        None => false,
    }
}

// whether segments of a block download are awaited after a frame of the server, by its first byte
fn opens_sub_block(first: u8) -> bool
    ensures { result ≡ opens_sub_block first }
{
    first / 32 == 5 && first % 4 != 1
}

// whether a sub-block may be open that isn't followed, after a frame by which a block download is
// left, or not
pub(crate) fn sub_block_after(side: Side, leaves: bool, what: What, first: u8, awaits: bool) -> bool
    ensures { result ≡ sub_block_after side leaves what first awaits }
{
    match side {
        Side::Client => awaits || leaves,
        Side::Server if first / 32 == 4 => awaits || leaves,
        Side::Server => opens_sub_block(first) && !continues(what),
    }
}

// whether a frame is an initiate request that is in doubt
fn is_in_doubt(doubts: bool, what: What) -> bool
    ensures { result ≡ is_in_doubt doubts what }
{
    doubts && is_initiate(what)
}

// Whether after a frame an earlier request may still be answered. `doubted`: the stamp of the newest
// frame before it by which one may.
fn leaves_request_open(
    owed: bool,
    quiet: bool,
    side: Side,
    doubted: Option<u64>,
    heard: &Heard,
    frame: &Frame,
) -> bool
    ensures { result ≡ leaves_request_open owed quiet side doubted heard.now frame.now }
{
    let odd = match side {
        Side::Server => !continues(heard.what),
        Side::Client => !(is_initiate(heard.what) || continues(heard.what)),
    };
    odd || ends_in_doubt(owed, quiet, side, doubted, &heard.ended, frame)
}

// The stamp of the newest frame by which an earlier request may still be answered. `owed`: an answer
// is owed to the initiate request right before this frame; `quiet`: the device has answered all;
// `doubts`: a request is in doubt.
pub(crate) fn doubted_after(
    owed: bool,
    quiet: bool,
    doubts: bool,
    side: Side,
    heard: &Heard,
    frame: &Frame,
    doubted: Option<u64>,
    micros: u64,
) -> Option<u64>
    ensures { result ≡ doubted_after owed quiet doubts side heard.now frame.now doubted micros }
{
    if leaves_request_open(owed, quiet, side, doubted, heard, frame)
        || is_in_doubt(doubts, heard.what)
    {
        Some(micros)
    } else {
        doubted
    }
}
