//! What was said last of each identifier.

ghost use Rattle.std.specs.Prelude.{◌≡◌, ◌<◌, ◌≤◌, [], length, OnOk, IfOk, IfSome};
ghost use Rattle.conode_explain_filter.specs.Changes.{
  is_new,
  is_new_at,
  kept,
  kept_at,
  place_of,
};

use crate::last::Last;
use std::alloc::{AllocError, Global};
use std::marker::Model;

/// How many identifiers are kept at most.
const MOST_KEPT: usize = 1024;

/// What was said last of identifiers on interfaces, of at most 1,024. Contracts see it in the order
/// in which they came first.
#[derive(Drop)]
pub struct Lasts {
    alloc: Global,
    lasts: Vec<Last>,
}

impl Model for Lasts {
    ghost use Rattle.std.specs.Prelude.{List};
    ghost use Rattle.conode_explain_filter.specs.Changes.{Said};

    ghost Value = { List Said };

    ghost view = { λ lasts. lasts.lasts.items };
}

// the place of an identifier on an interface
fn place_of(lasts: &[Last], interface: &[u8], id: u32) -> Option<usize>
    ensures place { result ≡ place_of lasts.now interface.now id }
    ensures within { IfSome result (λ place. place < length lasts.now) }
{
    lasts.iter().position(|last| last.is_of(interface, id))
}

impl Lasts {
    /// Nothing was said.
    pub fn new(alloc: Global) -> Lasts
        ensures { result ≡ [] }
    {
        Lasts {
            alloc,
            lasts: Vec::new(alloc),
        }
    }

    // Whether what is said is new, of the identifier at a place.
    #[tactic(auto, using(crate::proofs::Places::same_at))]
    fn is_new_at(&self, place: Option<usize>, said: &Last) -> bool
        requires { IfSome place (λ p. p < length self.now) }
        ensures { result ≡ is_new_at place self.now said.now }
    {
        match place {
            Some(place) => !self.lasts[place].is_same(said),
            None => true,
        }
    }

    // Keeps what was said of the identifier at a place.
    fn keep_at(&mut self, place: Option<usize>, said: Last) -> Result<(), AllocError>
        requires { IfSome place (λ p. p < length self.old) }
        ensures { OnOk result (self.new ≡ kept_at place self.old said) }
    {
        match place {
            Some(place) => {
                self.lasts[place] = said;
                Ok(())
            }
            None if self.lasts.len() < MOST_KEPT => {
                self.lasts.push(said)?;
                Ok(())
            }
            None => Ok(()),
        }
    }

    /// Whether a frame with an identifier on an interface says something new: its bytes or its
    /// words aren't those that are kept, or none are kept. New ones are kept, but not those of a
    /// 1,025th identifier. The interface's name has at most 15 bytes, the frame at most 8. On an
    /// `Err` memory ran out.
    #[tactic(auto, unfolding(crate::specs::Changes::is_new, crate::specs::Changes::kept))]
    pub fn take(
        &mut self,
        interface: &[u8],
        id: u32,
        bytes: &[u8],
        words: &[u8],
    ) -> Result<bool, AllocError>
        requires name { length interface.now ≤ 15 }
        requires bytes { length bytes.now ≤ 8 }
        ensures is_new { IfOk result (λ found. found ≡ is_new self.old (record {
          interface = interface.now;
          id = id;
          bytes = bytes.now;
          words = words.now;
        })) }
        ensures kept { OnOk result (self.new ≡ kept self.old (record {
          interface = interface.now;
          id = id;
          bytes = bytes.now;
          words = words.now;
        })) }
    {
        let place = place_of(self.lasts.as_slice(), interface, id);
        let said = attempt!(Last::new(self.alloc, interface, id, bytes, words));
        if !self.is_new_at(place, &said) {
            return Ok(false);
        }
        attempt!(self.keep_at(place, said));
        Ok(true)
    }
}
