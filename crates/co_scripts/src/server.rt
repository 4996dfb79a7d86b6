//! A channel as one end of a dialogue.

use crate::bad_script::BadScript;
use crate::dialogue::{End, follows};
use crate::frames::frame_of;
use crate::served::Served;
use co_dict::ObjectStore;
use co_frame::{Frame, Outbox};

// Sends the segments of a sub-block up to number `last`, all zeros; false if one before it is
// answered.
fn send_segments<S: ObjectStore + Drop>(
    served: &mut Served<S>,
    last: u8,
    sent: &mut Outbox,
) -> Result<bool, BadScript> {
    for sequence in 1..=last {
        if !sent.is_empty() {
            return Ok(false);
        }
        let data = [sequence, 0, 0, 0, 0, 0, 0, 0];
        served.take_into(&Frame::new(0x605, &data).ok().ok_or(BadScript)?, sent);
    }
    Ok(true)
}

// Lets 10 ms elapse, at which the transfer times out; false if it times out earlier, or not then.
fn give_up<S: ObjectStore + Drop>(served: &mut Served<S>, sent: &mut Outbox) -> bool {
    for _ in 0..10 {
        if served.channel.expired() {
            return false;
        }
        served.channel.tick();
    }
    let is_over = served.channel.expired();
    if is_over {
        sent.clear();
        served.channel.time_out(sent);
    }
    is_over
}

impl<S: ObjectStore + Drop> End for Served<S> {
    fn hear(&mut self, word: &str, sent: &mut Outbox) -> Result<bool, BadScript> {
        sent.clear();
        if word == "ticks" {
            return Ok(give_up(self, sent));
        }
        if let Some(last) = word.strip_prefix("x") {
            return send_segments(self, last.parse().ok().ok_or(BadScript)?, sent);
        }
        if word.starts_with("605#") {
            self.take_into(&frame_of(word)?, sent);
        } else if word == "write" {
            self.write(0x2001, b"abc")?;
        } else {
            let held: usize = word.parse().ok().ok_or(BadScript)?;
            return Ok(self.channel.held() == held);
        }
        Ok(true)
    }
}

/// Runs a channel through a dialogue: `Ok` with the number of its answers, or the first word at
/// which it differs.
pub fn server_follows<'a, S: ObjectStore + Drop>(
    served: &mut Served<S>,
    dialogue: &'a str,
) -> Result<u64, &'a str> {
    let mut sent = Outbox::new();
    follows(served, "585#", dialogue, &mut sent)
}
