//! The original data types of a sheet that was adapted.

ghost use Rattle.std.specs.Prelude.{◌≡◌, ◌≤◌, length, map, option_map, IfOk, OnOk};
ghost use Rattle.std.specs.Option.{option_copied, option_or};
ghost use Rattle.co_sheet_changes.specs.Originals.{original_among, original_at, original_here, original_of, original_text};
ghost use Rattle.co_sheet_changes.specs.Views.{group_view, text_at};

use crate::group::{Group, groups_in};
use crate::line::lines_in;
use indexmap::IndexMap;
use std::alloc::{AllocError, Global};

// the code of an original type, where the type that stands for it has its bytes
fn original_text(original: u64, given: u64) -> Option<&'static [u8]>
    ensures { option_copied result ≡ original_text original given }
{
    match (original, given) {
        (0x08, 0x07) => Some(b"0x0008"),
        (0x0B, 0x0A) => Some(b"0x000B"),
        (0x0C, 0x19) => Some(b"0x000C"),
        (0x0D, 0x19) => Some(b"0x000D"),
        (0x11, 0x1B) => Some(b"0x0011"),
        _ => None,
    }
}

fn original_of(group: &Group) -> Option<&'static [u8]>
    ensures { option_copied result ≡ original_of (group_view group.now) }
{
    match (group.number(b"OriginalDataType"), group.number(b"DataType")) {
        (Some(original), Some(given)) => original_text(original, given),
        _ => None,
    }
}

/// The original data types of an adapted sheet. A section's `OriginalDataType` names the type that
/// its DataType stands for: its code, as `0x0008`, is found by the number of the section line, from
/// 1.
#[derive(Drop)]
pub struct Originals {
    pub(crate) texts: IndexMap<usize, &'static [u8]>,
}

impl Originals {
    // adds the original type of a section, unless its line has one already
    fn add(&mut self, group: &Group) -> Result<(), AllocError>
        ensures { OnOk result ((line : _) → text_at self.new line
            ≡ option_or (text_at self.old line) (original_here line (group_view group.now))) }
    {
        let Some(text) = original_of(group) else {
            return Ok(());
        };
        let line = group.head.number;
        if self.texts.get(&line).is_none() {
            attempt_in_memory!(self.texts.insert(line, text));
        }
        Ok(())
    }

    // the original types of sections
    #[tactic(auto, using(crate::proofs::OriginalLemmas::or_assoc))]
    fn of(alloc: Global, groups: &[Group]) -> Result<Originals, AllocError>
        ensures { IfOk result (λ made. (line : _) →
            text_at made line ≡ original_among line (map group_view groups.now)) }
    {
        let mut made = Originals {
            texts: IndexMap::new(alloc),
        };
        for group in groups {
            attempt!(made.add(group));
        }
        Ok(made)
    }

    /// The original types of a text, in one pass. `Err`: out of memory.
    #[tactic(auto, unfolding(crate::specs::Originals::original_at))]
    pub fn in_text(alloc: Global, text: &[u8]) -> Result<Originals, AllocError>
        requires { length text.now ≤ 1048576 }
        ensures { IfOk result (λ made. (line : _) → text_at made line ≡ original_at text.now line) }
    {
        let lines = attempt!(lines_in(alloc, text));
        let groups = attempt!(groups_in(alloc, lines.as_slice()));
        Originals::of(alloc, groups.as_slice())
    }

    /// The code of the original type of the section with this section line.
    pub fn at(&self, line: usize) -> Option<&'static [u8]>
        ensures { option_copied result ≡ text_at self.now line }
    {
        self.texts.get(&line).copied()
    }
}
