//! Why a data sheet makes no dictionary.

ghost use Rattle.std.specs.Prelude.{◌≡◌, ◌≤◌, Some, length};
ghost use Rattle.co_dict_build.specs.BuildFaultTexts.{fault_number, fault_name, fault_text};

use arrayvec::ArrayString;
use co_text::word_digits;
use co_value::Key;
use itoa::Buffer;
use std::error::Error;
use std::fmt;

/// Why a data sheet makes no dictionary for a node-ID and limits. If several apply, the one with
/// the smallest number is returned, and of several with that number the one with the smallest key.
#[derive(Clone, Copy, Debug, PartialEq, Eq)]
pub enum BuildFault {
    /// 1: the node-ID isn't one of 1 to 127 (CiA 301, 6.1).
    NodeId,
    /// 2: the default of this entry is a sum with `$NODEID` that is outside its type or its limits
    /// (CiA 306).
    ValueRange(Key),
    /// 3: the initial COB-ID of this entry isn't one that it may have (CiA 301, 7.5.2).
    BadCobId(Key),
    /// 4: this PDO object has no partner, or an entry that a PDO needs is missing
    /// (CiA 301, 7.5.2.35 to 7.5.2.38).
    PdoPair(u16),
    /// 5: an initial mapping isn't allowed; the key is its sub-index 0, the number of mapped
    /// objects (CiA 301, 7.5.2.36, 7.5.2.38).
    BadMapping(Key),
    /// 6: more than 16,384 entries, or more than 16,777,216 bytes of room in all.
    TooMany,
    /// 7: out of memory.
    Memory,
}

impl BuildFault {
    /// The fault's number, 1 to 7.
    pub fn number(&self) -> u8
        ensures { result ≡ fault_number self.now }
    {
        match self {
            BuildFault::NodeId => 1,
            BuildFault::ValueRange(_) => 2,
            BuildFault::BadCobId(_) => 3,
            BuildFault::PdoPair(_) => 4,
            BuildFault::BadMapping(_) => 5,
            BuildFault::TooMany => 6,
            BuildFault::Memory => 7,
        }
    }

    /// The fault's name, `BadCobId` for one.
    pub fn name(&self) -> &'static str
        ensures name { result.now ≡ fault_name self.now }
        ensures short { length result.now ≤ 10 }
    {
        match self {
            BuildFault::NodeId => "NodeId",
            BuildFault::ValueRange(_) => "ValueRange",
            BuildFault::BadCobId(_) => "BadCobId",
            BuildFault::PdoPair(_) => "PdoPair",
            BuildFault::BadMapping(_) => "BadMapping",
            BuildFault::TooMany => "TooMany",
            BuildFault::Memory => "Memory",
        }
    }

    /// The fault in words: its number, its name and its place, as `build fault 3 BadCobId 1800:01`.
    pub fn text(&self) -> ArrayString<64>
        ensures { result.bytes ≡ fault_text self.now }
    {
        let mut text = ArrayString::new();
        let mut digits = Buffer::new();
        text.push_str("build fault ");
        text.push_str(digits.format(self.number()));
        text.push(' ');
        text.push_str(self.name());
        match *self {
            BuildFault::ValueRange(key) | BuildFault::BadCobId(key) | BuildFault::BadMapping(key) =>
                {
                    text.push(' ');
                    text.push_str(key.text().as_str());
                }
            BuildFault::PdoPair(index) => {
                text.push(' ');
                text.push_str(word_digits(index).as_str());
            }
            BuildFault::NodeId | BuildFault::TooMany | BuildFault::Memory => {}
        }
        text
    }
}

/// Prints the fault as `text` has it.

impl fmt::Display for BuildFault {
    ghost output = { λ fault. Some (fault_text fault) };

    fn fmt<W: fmt::Write>(&self, f: &mut fmt::Formatter<W>) -> fmt::Result {
        f.write_str(self.text().as_str())
    }
}

impl Error for BuildFault {}
