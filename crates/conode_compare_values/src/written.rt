//! What was written to the entries that are held, and where an upload shows another number.

ghost use Rattle.std.specs.Prelude.{◌≡◌};
ghost use Rattle.conode_compare_values.specs.HeldNumbers.{
  after_end,
  after_request,
  differs,
  downloaded,
  held_mismatch,
  is_done,
  is_kept,
  is_restricted,
  nothing_written,
  number_at,
  number_written,
  unmapped,
  unmapped_at,
  upload_mismatch,
  uploaded,
  with_number,
  with_process,
  written_heard,
};

use crate::entries::HeldEntries;
use crate::values::shown_number;
use co_value::Key;
use conode_compare_transfers::{Asked, is_timed};
use conode_explain_transfers::{Direction, Ended, Ending};

/// `value-held`: an upload of an entry shows another number than the last download wrote.
#[derive(Clone, Copy)]
pub struct HeldMismatch {
    /// Which entry it is.
    pub key: Key,
    /// The number that is shown.
    pub shown: u64,
    /// The number that was written.
    pub written: u64,
}

/// How many entries are held at most.
const MOST_HELD: usize = 64;

/// What was written to the entries that are held.
#[derive(Clone, Copy)]
pub struct Written {
    /// The number that each has since, by its place among them; `None` where it is unknown.
    pub numbers: [Option<u64>; 64],
}

/// Whether a transfer is done, in one frame, in segments or in blocks.
pub fn is_done(ended: &Ended) -> bool
    ensures { result ≡ is_done ended.now.ending }
{
    matches!(ended.ending, Ending::Done { crc: _ })
}

/// The number that so many bytes are, if they are as many.
pub fn number_written(width: usize, bytes: &[u8]) -> Option<u64>
    ensures { result ≡ number_written width bytes.now }
{
    if bytes.len() == width {
        shown_number(width, bytes)
    } else {
        None
    }
}

// the number that a download wrote, where that is known
fn downloaded(held: &HeldEntries, certain: bool, ended: &Ended) -> Option<u64>
    ensures { result ≡ downloaded held.now.entries.items certain ended.now }
{
    if !certain || !is_done(ended) {
        return None;
    }
    let entry = held.entry(ended.key)?;
    number_written(entry.width, ended.first.as_slice())
}

// the number that an upload shows, where that is known
fn uploaded(held: &HeldEntries, certain: bool, ended: &Ended) -> Option<u64>
    ensures { result ≡ uploaded held.now.entries.items certain ended.now }
{
    if !certain || !is_done(ended) {
        return None;
    }
    let entry = held.entry(ended.key)?;
    shown_number(entry.width, ended.first.as_slice())
}

/// Whether CiA 301 restricts a CAN-ID (7.3.5): neither a PDO nor a SYNC has one of these.
pub fn is_restricted(id: u16) -> bool
    ensures { result ≡ is_restricted id }
{
    id <= 0x7F
        || (0x101 <= id && id <= 0x180)
        || (0x581 <= id && id <= 0x5FF)
        || (0x601 <= id && id <= 0x67F)
        || (0x6E0 <= id && id <= 0x6FF)
        || 0x701 <= id
}

/// What differs, where both numbers are known and aren't the same.
pub fn differs(key: Key, shown: Option<u64>, written: Option<u64>) -> Option<HeldMismatch>
    ensures { result ≡ differs key shown written }
{
    match (shown, written) {
        (Some(shown), Some(written)) if shown != written => Some(HeldMismatch {
            key,
            shown,
            written,
        }),
        _ => None,
    }
}

impl Written {
    /// Nothing is known of any of them.
    #[tactic(auto, unfolding(crate::specs::HeldNumbers::nothing_written))]
    pub fn nothing() -> Written
        ensures { result ≡ nothing_written }
    {
        Written {
            numbers: [None; MOST_HELD],
        }
    }

    // the number of the entry at a place
    pub(crate) fn number_at(&self, place: Option<usize>) -> Option<u64>
        ensures { result ≡ number_at self.now place }
    {
        match place {
            Some(place) if place < MOST_HELD => self.numbers[place],
            _ => None,
        }
    }

    // the entry at a place has this number
    pub(crate) fn set(&mut self, place: Option<usize>, number: Option<u64>)
        ensures { self.new ≡ with_number self.old place number }
    {
        match place {
            Some(place) if place < MOST_HELD => self.numbers[place] = number,
            _ => {}
        }
    }

    // the difference of an upload
    fn upload_mismatch(
        &self,
        held: &HeldEntries,
        certain: bool,
        ended: &Ended,
    ) -> Option<HeldMismatch>
        ensures { result ≡ upload_mismatch held.now.entries.items self.now certain ended.now }
    {
        let written = self.number_at(held.place(ended.key));
        differs(ended.key, uploaded(held, certain, ended), written)
    }

    /// The difference of a transfer that ended. `certain`: no earlier request can be answered with
    /// the frame that ended it.
    #[tactic(auto, unfolding(crate::specs::HeldNumbers::held_mismatch))]
    pub fn mismatch(
        &self,
        held: &HeldEntries,
        certain: bool,
        ended: &Option<Ended>,
    ) -> Option<HeldMismatch>
        ensures { result ≡ held_mismatch held.now.entries.items self.now certain ended.now }
    {
        match ended {
            Some(ended) if matches!(ended.direction, Direction::Upload) => {
                self.upload_mismatch(held, certain, ended)
            }
            _ => None,
        }
    }

    /// Whether a transfer that ended is an upload that could have shown another number than was
    /// written, and doesn't: asked once the frame was taken.
    pub fn is_kept(&self, held: &HeldEntries, certain: bool, ended: &Option<Ended>) -> bool
        ensures { result ≡ is_kept held.now.entries.items self.now certain ended.now }
    {
        match ended {
            Some(ended) if matches!(ended.direction, Direction::Upload) => {
                let written = self.number_at(held.place(ended.key));
                uploaded(held, certain, ended).is_some() && written.is_some()
            }
            _ => false,
        }
    }

    // A transfer ended.
    fn take_end(&mut self, held: &HeldEntries, certain: bool, ended: &Ended)
        ensures { self.new ≡ after_end held.now.entries.items self.old certain ended.now }
    {
        match ended.direction {
            Direction::Download => {
                self.set(held.place(ended.key), downloaded(held, certain, ended));
            }
            Direction::Upload => {
                if self.upload_mismatch(held, certain, ended).is_some() {
                    self.set(held.place(ended.key), None);
                }
            }
        }
    }

    // A download is requested: what its entry has is unknown until it ends. A write that restores
    // parameters, or loads a program, may change any entry.
    fn take_request(&mut self, held: &HeldEntries, key: Key)
        ensures { self.new ≡ after_request held.now.entries.items self.old key }
    {
        if is_timed(key) {
            self.set(held.place(key), None);
        } else {
            *self = Written::nothing();
        }
    }

    /// What is known of the entries that a PDO may have is unknown.
    #[tactic(auto, unfolding(crate::specs::HeldNumbers::unmapped_from))]
    pub fn forget_mapped(&mut self, held: &HeldEntries)
        ensures { self.new ≡ unmapped held.now.entries.items self.old }
    {
        for (place, entry) in held.entries.as_slice().iter().enumerate() {
            if entry.mappable {
                self.set(Some(place), None);
            }
        }
    }

    /// What is known of an entry is unknown, if a PDO may have it.
    pub fn forget_mapped_at(&mut self, held: &HeldEntries, key: Key)
        ensures { self.new ≡ unmapped_at held.now.entries.items self.old key }
    {
        match held.entry(key) {
            Some(entry) if entry.mappable => self.set(held.place(key), None),
            _ => {}
        }
    }

    /// A data frame with an identifier came that is none of the device: an RPDO writes what is
    /// mapped into it, and with a SYNC an earlier one may take effect.
    pub fn take_process(&mut self, held: &HeldEntries, id: u16)
        ensures { self.new ≡ with_process held.now.entries.items self.old id }
    {
        if !is_restricted(id) {
            self.forget_mapped(held);
        }
    }

    /// A frame of the SDO channel came, with which a transfer may have ended, or one was requested.
    #[tactic(auto, unfolding(crate::specs::HeldNumbers::written_heard))]
    pub fn hear(
        &mut self,
        held: &HeldEntries,
        certain: bool,
        ended: &Option<Ended>,
        asked: Option<Asked>,
    )
        ensures { self.new
            ≡ written_heard held.now.entries.items self.old certain ended.now asked }
    {
        if let Some(ended) = ended {
            self.take_end(held, certain, ended);
        }
        match asked {
            Some(asked) if asked.writes => self.take_request(held, asked.key),
            _ => {}
        }
    }
}
