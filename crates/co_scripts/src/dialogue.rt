//! Dialogues as text, of a client with requests 605h and a server with answers 585h.
//!
//! The words of a dialogue are frames of both ends, such as `605#4001200000000000`, and other
//! inputs of the end under test. `ticks` are ten ticks of 1 ms, of which only the last makes it
//! send frames. For a channel there are three more: a number is how many bytes it holds; `x3` are
//! the segments 1 to 3 of a sub-block, all zeros, of which only the last may be answered; `write`
//! sets 2001h to `abc`.

use crate::bad_script::BadScript;
use crate::frames::frame_of;
use co_frame::Outbox;

/// One end of a dialogue.
pub(crate) trait End {
    /// Takes a word, and replaces `sent` by the frames that it sends then. False if it differs from
    /// the word.
    fn hear(&mut self, word: &str, sent: &mut Outbox) -> Result<bool, BadScript>;
}

// Whether the frame of a word was sent at this place.
fn is_at(sent: &Outbox, place: usize, word: &str) -> bool {
    match frame_of(word) {
        Ok(frame) => sent.get(place) == Some(&frame),
        Err(_) => false,
    }
}

/// Runs an end through a dialogue: it hears each word that isn't one of its own frames, and has to
/// send those that come next, and no other. The outbox has the frames sent before the first word.
/// Returns how many frames it sent; or the first word at which it differs, or the dialogue if it
/// sends more at the end.
pub(crate) fn follows<'a, E: End>(
    end: &mut E,
    own: &str,
    dialogue: &'a str,
    sent: &mut Outbox,
) -> Result<u64, &'a str> {
    let mut seen: usize = 0;
    let mut count: u64 = 0;
    for word in dialogue.split_whitespace() {
        if word.starts_with(own) {
            if !is_at(sent, seen, word) {
                return Err(word);
            }
            seen = seen.saturating_add(1);
            count = count.saturating_add(1);
        } else {
            if sent.len() != seen || end.hear(word, sent) != Ok(true) {
                return Err(word);
            }
            seen = 0;
        }
    }
    if sent.len() == seen {
        Ok(count)
    } else {
        Err(dialogue)
    }
}
