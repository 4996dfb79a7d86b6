//! The interfaces of a recording whose frames aren't compared.

ghost use Rattle.std.specs.Prelude.{◌≡◌, ◌≤◌, length};
ghost use Rattle.std.specs.Str.{bytes_eq};
ghost use Rattle.conode_compare.specs.InterfacesSeen.{has_name, interfaces_with, no_interfaces};

use arrayvec::ArrayVec;
use conode_io::hand_over;
use std::io::Write;

/// How many are named; one more is kept, which shows that there are more.
const MOST_NAMED: usize = 8;

/// The interfaces of frames that aren't compared, in the order of their first frames.
#[derive(Drop)]
pub struct InterfacesSeen {
    /// Their names: the first nine.
    pub names: ArrayVec<ArrayVec<u8, 15>, 9>,
}

fn is_name(seen: &ArrayVec<u8, 15>, name: &[u8]) -> bool
    ensures { result ≡ bytes_eq seen.now.items name.now }
{
    seen.as_slice() == name
}

// writes a name on `err`, after a comma where it isn't the first one
fn write_name<E: Write>(is_first: bool, name: &[u8], err: &mut E) {
    let front = if is_first { " " } else { ", " };
    let _ = hand_over(front.as_bytes(), err);
    let _ = hand_over(name, err);
}

impl InterfacesSeen {
    /// None is seen.
    pub(crate) fn new() -> InterfacesSeen
        ensures { result ≡ no_interfaces }
    {
        InterfacesSeen {
            names: ArrayVec::new(),
        }
    }

    // whether a frame of this interface came
    fn has(&self, name: &[u8]) -> bool
        ensures { result ≡ has_name self.now.names.items name.now }
    {
        self.names.as_slice().iter().any(|seen| is_name(seen, name))
    }

    /// A frame of this interface came, which isn't compared.
    pub(crate) fn note(&mut self, name: &[u8])
        requires { length name.now ≤ 15 }
        ensures { self.new ≡ interfaces_with self.old name.now }
    {
        if self.has(name) || !(self.names.len() < 9) {
            return;
        }
        let mut kept: ArrayVec<u8, 15> = ArrayVec::new();
        kept.try_extend_from_slice(name).unwrap();
        self.names.push(kept);
    }

    /// Names the interfaces of the recording on `err`, where there are such frames: the one that is
    /// compared, if it has frames, then these, up to eight.
    pub(crate) fn name<E: Write>(&self, compared: &[u8], err: &mut E) {
        let names = self.names.as_slice();
        if names.is_empty() {
            return;
        }
        let _ = hand_over(b"interfaces seen:", err);
        let mut is_first = true;
        if !compared.is_empty() {
            write_name(is_first, compared, err);
            is_first = false;
        }
        let named = &names[..names.len().min(MOST_NAMED)];
        for name in named {
            write_name(is_first, name.as_slice(), err);
            is_first = false;
        }
        let end = if names.len() > MOST_NAMED {
            ", ..\n"
        } else {
            "\n"
        };
        let _ = hand_over(end.as_bytes(), err);
    }
}
