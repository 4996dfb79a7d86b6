//! What the entries of a PDO have, and what an event makes of them.

ghost use Rattle.std.specs.Prelude.{◌≡◌};
ghost use Rattle.conode_explain_entries.specs.Histories.{
  assumed_values,
  changes_read,
  changes_written,
  is_constant,
  is_no_count,
  nothing_shown,
  shown_value,
  state_read,
  state_with,
  state_written,
  stored_value,
  stored_values,
  values_with,
};

use crate::event::{Event, PdoPart};

/// What an entry has, and from where that is known.
#[derive(Clone, Copy)]
pub enum Value {
    /// Nothing was shown of it: the value of the data sheet is assumed.
    Assumed,
    /// A transfer showed this number.
    Seen { number: u32 },
    /// This number was stored, and came back with a boot-up.
    Saved { number: u32 },
    /// It was shown, and nothing is known of the number.
    Unknown,
}

/// How many sub-indices of a mapping parameter are followed: 0 to 64.
const SUBS: usize = 65;

/// What the entries of a PDO have.
#[derive(Clone, Copy)]
pub struct PdoValues {
    /// The COB-ID.
    pub cob_id: Value,
    /// The sub-indices 0 to 64 of the mapping parameter.
    pub mapping: [Value; 65],
}

/// What a recording shows of the entries of a PDO.
#[derive(Clone, Copy)]
pub struct PdoState {
    /// What they have.
    pub now: PdoValues,
    /// What comes back with the next boot-up.
    pub stored: PdoValues,
    /// Whether a word of the mapping was written, or 0 to sub-index 0, and sub-index 0 wasn't shown
    /// with another number since.
    pub is_being_changed: bool,
}

impl Value {
    fn shown(number: Option<u32>) -> Value
        ensures { result ≡ shown_value number }
    {
        match number {
            Some(number) => Value::Seen { number },
            None => Value::Unknown,
        }
    }

    // what comes back of it, where it is stored, or may be
    fn stored(self, certain: bool) -> Value
        ensures { result ≡ stored_value certain self }
    {
        match self {
            Value::Seen { number } | Value::Saved { number } => {
                if certain {
                    Value::Saved { number }
                } else {
                    Value::Unknown
                }
            }
            _ => self,
        }
    }
}

fn is_no_count(number: Option<u32>) -> bool
    ensures { result ≡ is_no_count number }
{
    match number {
        Some(number) => number == 0,
        None => false,
    }
}

fn changes_written(changes: bool, part: PdoPart, number: Option<u32>) -> bool
    ensures { result ≡ changes_written changes part number }
{
    match part {
        PdoPart::CobId => changes,
        PdoPart::Mapping { sub } => sub != 0 || is_no_count(number),
    }
}

fn changes_read(changes: bool, part: PdoPart, number: Option<u32>) -> bool
    ensures { result ≡ changes_read changes part number }
{
    match part {
        PdoPart::CobId => changes,
        PdoPart::Mapping { sub } => changes && (sub != 0 || is_no_count(number)),
    }
}

fn is_constant(index: u16) -> bool
    ensures { result ≡ is_constant index }
{
    index == 0x1000
}

impl PdoValues {
    // what the data sheet says is assumed
    #[tactic(auto, unfolding(crate::specs::Histories::assumed_values))]
    fn assumed() -> PdoValues
        ensures { result ≡ assumed_values }
    {
        PdoValues {
            cob_id: Value::Assumed,
            mapping: [Value::Assumed; SUBS],
        }
    }

    // with another value of an entry
    fn with(self, part: PdoPart, value: Value) -> PdoValues
        ensures { result ≡ values_with self part value }
    {
        let mut values = self;
        match part {
            PdoPart::CobId => values.cob_id = value,
            PdoPart::Mapping { sub } => {
                if (sub as usize) < SUBS {
                    values.mapping[sub as usize] = value;
                }
            }
        }
        values
    }

    // what comes back of them, where they are stored, or may be
    #[tactic(auto, using(crate::proofs::Changes::done_more, crate::proofs::Changes::all_done))]
    fn stored(self, certain: bool) -> PdoValues
        ensures { result ≡ stored_values certain self }
    {
        let mut mapping = self.mapping;
        for value in mapping.iter_mut() {
            *value = value.stored(certain);
        }
        PdoValues {
            cob_id: self.cob_id.stored(certain),
            mapping,
        }
    }
}

impl PdoState {
    /// Nothing was shown.
    pub(crate) fn nothing() -> PdoState
        ensures { result ≡ nothing_shown }
    {
        PdoState {
            now: PdoValues::assumed(),
            stored: PdoValues::assumed(),
            is_being_changed: false,
        }
    }

    fn written(self, part: PdoPart, number: Option<u32>) -> PdoState
        ensures { result ≡ state_written self part number }
    {
        PdoState {
            now: self.now.with(part, Value::shown(number)),
            stored: self.stored,
            is_being_changed: changes_written(self.is_being_changed, part, number),
        }
    }

    fn read(self, part: PdoPart, number: Option<u32>) -> PdoState
        ensures { result ≡ state_read self part number }
    {
        PdoState {
            now: self.now.with(part, Value::shown(number)),
            stored: self.stored,
            is_being_changed: changes_read(self.is_being_changed, part, number),
        }
    }

    /// What the entries of a PDO have after an event of its node.
    pub(crate) fn with(self, index: u16, event: Event) -> PdoState
        ensures { result ≡ state_with self index event }
    {
        match event {
            Event::Written { of, number } if of.index == index => self.written(of.part, number),
            Event::Read { of, number } if of.index == index => self.read(of.part, number),
            Event::Written { of: _, number: _ } | Event::Read { of: _, number: _ } => self,
            Event::BootedUp if is_constant(index) => self,
            Event::BootedUp => PdoState {
                now: self.stored,
                stored: self.stored,
                is_being_changed: false,
            },
            Event::Saved => PdoState {
                now: self.now,
                stored: self.now.stored(true),
                is_being_changed: self.is_being_changed,
            },
            Event::Unclear => PdoState {
                now: self.now,
                stored: self.now.stored(false),
                is_being_changed: self.is_being_changed,
            },
            Event::Restored => PdoState {
                now: self.now,
                stored: PdoValues::assumed(),
                is_being_changed: self.is_being_changed,
            },
        }
    }
}
