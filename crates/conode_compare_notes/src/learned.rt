//! The values that a recording shows of the entries of a data sheet.

ghost use Rattle.std.specs.Prelude.{◌≡◌, ◌<◌, [], true, map, length, OnOk, IfSome};
ghost use Rattle.std.specs.List.{AllPairs};
ghost use Rattle.co_sheet.specs.SheetViews.{row_view};
ghost use Rattle.co_value.specs.Keys.{is_key_before};
ghost use Rattle.conode_compare_notes.specs.LearnedValues.{
  is_shown,
  kept,
  kept_at,
  learned_with,
  number_of,
  place_of,
  shown_in,
  shown_of,
};

use co_sheet::EntryRow;
use co_sheet_changes::row_at;
use co_value::Key;
use conode_compare_transfers::Exchange;
use conode_compare_values::{is_done, shown_number};
use conode_explain_transfers::{Direction, Ended};
use std::alloc::{AllocError, Global};
use std::marker::Model;

/// The number that a recording showed of an entry.
#[derive(Clone, Copy)]
pub struct Shown {
    /// Which entry it is.
    pub key: Key,
    /// Its number.
    pub number: u64,
}

/// What a recording showed last of entries. Contracts see them in the order in which they were
/// shown first.
#[derive(Drop)]
pub struct Learned {
    shown: Vec<Shown>,
}

impl Model for Learned {
    ghost use Rattle.std.specs.Prelude.{List};
    ghost use Rattle.conode_compare_notes.specs.declared.learned.Shown.{Shown};

    ghost Value = { List Shown };

    ghost view = { λ learned. learned.shown.items };
}

// Whether a transfer shows what its entry has. An acknowledge may be one to an earlier request.
fn is_shown(certain: bool, ended: &Ended) -> bool
    ensures { result ≡ is_shown certain ended.now }
{
    is_done(ended) && (certain || matches!(ended.direction, Direction::Upload))
}

// the number that a transfer shows of an entry of the data sheet
fn shown_of(rows: &[EntryRow<'_>], ended: &Ended) -> Option<Shown>
    requires { AllPairs (λ e f. is_key_before e.key f.key ≡ true) rows.now }
    ensures { result ≡ shown_of (map row_view rows.now) ended.now }
{
    let Some(row) = row_at(rows, ended.key) else {
        return None;
    };
    let Some(width) = row.data_type.width() else {
        return None;
    };
    let Some(number) = shown_number(width, ended.first.as_slice()) else {
        return None;
    };
    Some(Shown {
        key: ended.key,
        number,
    })
}

// the number that a frame shows of an entry, by the transfer that ended with it
#[tactic(auto, unfolding(crate::specs::LearnedValues::shown_in))]
fn shown_in(rows: &[EntryRow<'_>], exchange: &Option<Exchange>) -> Option<Shown>
    requires { AllPairs (λ e f. is_key_before e.key f.key ≡ true) rows.now }
    ensures { result ≡ shown_in (map row_view rows.now) exchange.now }
{
    let Some(exchange) = exchange else {
        return None;
    };
    match &exchange.heard.ended {
        Some(ended) if is_shown(exchange.certain, ended) => shown_of(rows, ended),
        _ => None,
    }
}

impl Learned {
    /// Nothing was shown.
    pub fn new(alloc: Global) -> Learned
        ensures { result ≡ [] }
    {
        Learned {
            shown: Vec::new(alloc),
        }
    }

    // the place of an entry
    fn place(&self, key: Key) -> Option<usize>
        ensures place { result ≡ place_of self.now key }
        ensures within { IfSome result (λ place. place < length self.now) }
    {
        self.shown.iter().position(|shown| shown.key == key)
    }

    // Keeps the number of the entry at a place.
    fn keep_at(&mut self, place: Option<usize>, shown: Shown) -> Result<(), AllocError>
        requires { IfSome place (λ p. p < length self.old) }
        ensures { OnOk result (self.new ≡ kept_at place self.old shown) }
    {
        match place {
            Some(place) => {
                self.shown[place] = shown;
                Ok(())
            }
            None => match self.shown.push(shown) {
                Ok(()) => Ok(()),
                Err(_) => Err(AllocError),
            },
        }
    }

    /// Takes what a frame is on the SDO channel: a transfer that ended with it may show the number
    /// of an entry of the data sheet, whose entries are in increasing key. On an `Err` memory ran
    /// out.
    #[tactic(auto, unfolding(crate::specs::LearnedValues::learned_with))]
    pub fn take(
        &mut self,
        rows: &[EntryRow<'_>],
        exchange: &Option<Exchange>,
    ) -> Result<(), AllocError>
        requires { AllPairs (λ e f. is_key_before e.key f.key ≡ true) rows.now }
        ensures { OnOk result
            (self.new ≡ learned_with (map row_view rows.now) self.old exchange.now) }
    {
        match shown_in(rows, exchange) {
            Some(shown) => {
                let place = self.place(shown.key);
                self.keep_at(place, shown)
            }
            None => Ok(()),
        }
    }

    /// The number that was shown last of an entry.
    pub fn number(&self, key: Key) -> Option<u64>
        ensures { result ≡ number_of self.now key }
    {
        let all = self.shown.as_slice();
        for shown in all {
            if shown.key == key {
                return Some(shown.number);
            }
        }
        None
    }
}
