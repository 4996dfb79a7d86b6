//! A client as one end of a dialogue.

use crate::bad_script::BadScript;
use crate::dialogue::{End, follows};
use crate::frames::frame_of;
use co_frame::{Frame, Outbox};
use co_sdo_client::Client;

/// Begins a client: the frames that it sends.
pub fn begun(client: &mut Client<'_>) -> Outbox {
    let mut sent = Outbox::new();
    client.begin(&mut sent);
    sent
}

/// Hands a frame to a client: the frames that it sends.
pub fn answered(client: &mut Client<'_>, frame: &Frame) -> Outbox {
    let mut sent = Outbox::new();
    client.take(frame, &mut sent);
    sent
}

/// Lets `ticks` ms elapse at the client. `sent` is replaced by the frames of the last one. False if
/// an earlier one sends frames.
fn elapsed(client: &mut Client<'_>, ticks: u16, sent: &mut Outbox) -> bool {
    sent.clear();
    for _ in 0..ticks {
        if !sent.is_empty() {
            return false;
        }
        client.tick(sent);
    }
    true
}

impl End for Client<'_> {
    fn hear(&mut self, word: &str, sent: &mut Outbox) -> Result<bool, BadScript> {
        if word == "ticks" {
            return Ok(elapsed(self, 10, sent));
        }
        sent.clear();
        self.take(&frame_of(word)?, sent);
        Ok(true)
    }
}

/// Begins a client, and runs it through a dialogue: `Ok` with the number of its requests, or the
/// first word at which it differs.
pub fn client_follows<'a>(client: &mut Client<'_>, dialogue: &'a str) -> Result<u64, &'a str> {
    let mut sent = begun(client);
    follows(client, "605#", dialogue, &mut sent)
}
