//! The rows of a bus, by identifier.

ghost use Rattle.std.specs.Prelude.{◌≡◌, ◌<◌, [], length, position, OnOk, IfOk, IfSome};
ghost use Rattle.conode_stats_counts.specs.Buses.{is_row, most_rows, new_row, row_with};
ghost use Rattle.conode_stats_counts.specs.DistinctRows.{HaveDistinctIds};
ghost use Rattle.conode_stats_counts.specs.Groups.{group_with, no_room};

use crate::row::Row;
use std::alloc::{AllocError, Global};
use std::marker::Model;

/// The most identifiers counted on a bus.
const MOST_ROWS: usize = 4096;

/// How many places of rows are remembered.
const MOST_PLACES: usize = 4096;

/// The frames of a bus by identifier, in the order in which they came first.
#[derive(Drop)]
pub(crate) struct Rows {
    rows: Vec<Row>,
    // Where the row of an identifier was found last, by `slot_of`: no frame of an identifier of 11
    // bits costs a search but its first two. It may be the place of another one's row.
    places: Vec<u16>,
}

impl Model for Rows {
    ghost use Rattle.std.specs.Prelude.{List};
    ghost use Rattle.conode_stats_counts.specs.declared.row.Row.{Row};
    ghost use Rattle.conode_stats_counts.specs.DistinctRows.{HaveDistinctIds};

    ghost Value = { List Row };

    ghost view = { λ rows. rows.rows.items };

    ghost invariant = { λ rows. HaveDistinctIds rows.rows.items };
}

// where the place of an identifier's row is remembered; those of 11 bits share none
fn slot_of(id: u32) -> usize {
    ((id ^ id / 0x800 ^ id / 0x10_0000) % 4096) as usize
}

// the place remembered in a slot
fn place_in(places: &[u16], slot: usize) -> usize {
    match places.get(slot) {
        Some(place) => *place as usize,
        None => 0,
    }
}

// remembers a place
fn remember(places: &mut [u16], slot: usize, place: usize) {
    if slot < places.len() && place < MOST_ROWS {
        places[slot] = place as u16;
    }
}

// the place of the row of an identifier, which may be at `guess`
#[tactic(auto, using(crate::proofs::Distinct::found))]
fn place_of(rows: &[Row], guess: usize, id: u32) -> Option<usize>
    requires { HaveDistinctIds rows.now }
    ensures place { result ≡ position (is_row id) rows.now }
    ensures within { IfSome result (λ place. place < length rows.now) }
{
    if guess < rows.len() && rows[guess].can_id == id {
        return Some(guess);
    }
    rows.iter().position(|row| row.can_id == id)
}

// Adds a frame to the row of its identifier, a new one if there is none. Returns 1 if there is no
// room for a new row, else 0. `Err`: out of memory.
#[tactic(auto, using(crate::proofs::Distinct::set_keeps, crate::proofs::Distinct::push_keeps), unfolding(crate::specs::Groups::group_with, crate::specs::Groups::no_room))]
fn add_to_row(
    rows: &mut Vec<Row>,
    places: &mut [u16],
    id: u32,
    micros: u64,
) -> Result<u64, AllocError>
    requires { HaveDistinctIds rows.old.items }
    ensures distinct { HaveDistinctIds rows.new.items }
    ensures rows { OnOk result (rows.new.items
        ≡ group_with (is_row id) (row_with micros) (new_row id) most_rows rows.old.items) }
    ensures left_out { IfOk result
        (λ count. count ≡ no_room (is_row id) most_rows rows.old.items) }
{
    let slot = slot_of(id);
    match place_of(rows.as_slice(), place_in(places, slot), id) {
        Some(place) => {
            remember(places, slot, place);
            rows[place].add(micros);
            Ok(0)
        }
        None => {
            if rows.len() >= MOST_ROWS {
                return Ok(1);
            }
            let mut row = Row::new(id);
            row.add(micros);
            rows.push(row)?;
            Ok(0)
        }
    }
}

impl Rows {
    /// Of no frame. `Err`: out of memory.
    pub(crate) fn new(alloc: Global) -> Result<Rows, AllocError>
        ensures { IfOk result (λ rows. rows ≡ []) }
    {
        let places = attempt!(vec![in alloc; 0u16; MOST_PLACES]);
        Ok(Rows {
            rows: Vec::new(alloc),
            places,
        })
    }

    /// Adds a frame with this identifier and stamp, in microseconds. Returns 1 if there is no room
    /// for a new row, else 0. `Err`: out of memory.
    pub(crate) fn add(&mut self, id: u32, micros: u64) -> Result<u64, AllocError>
        ensures rows { OnOk result (self.new
            ≡ group_with (is_row id) (row_with micros) (new_row id) most_rows self.old) }
        ensures left_out { IfOk result
            (λ count. count ≡ no_room (is_row id) most_rows self.old) }
    {
        add_to_row(&mut self.rows, &mut self.places, id, micros)
    }

    /// The rows.
    pub(crate) fn as_slice(&self) -> &[Row]
        ensures { result.now ≡ self.now }
    {
        self.rows.as_slice()
    }
}
