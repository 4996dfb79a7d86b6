//! The frames of several buses.

ghost use Rattle.std.specs.Prelude.{◌≡◌, ◌<◌, ◌≤◌, List, [], ◌∷◌, ◌++◌, length, position, OnOk, IfOk, IfSome};
ghost use Rattle.conode_record.specs.Grammar.{IsIdentifier};
ghost use Rattle.conode_record.specs.declared.line.Record.{Record};
ghost use Rattle.conode_stats_counts.specs.Buses.{
  bus_with,
  counts_of,
  counts_with,
  is_bus,
  most_buses,
  new_bus,
};
ghost use Rattle.conode_stats_counts.specs.Groups.{group_with, no_room};

use crate::bus::Bus;
use crate::tally::counted;
use conode_record::Record;
use std::alloc::{AllocError, Global};
use std::marker::Model;

/// The most buses counted.
const MOST_BUSES: usize = 16;

/// The frames of a recording, counted by interface. At most 16 interfaces are counted each; the
/// frames of further ones are only counted together. Only the first frame of an interface or an
/// identifier asks for memory.
#[derive(Drop)]
pub struct Counts {
    buses: Vec<Bus>,
    left_out: u64,
}

impl Model for Counts {
    ghost use Rattle.conode_stats_counts.specs.Buses.{Counted};

    ghost Value = { Counted };

    ghost view = { λ counts. record { buses = counts.buses.items; left_out = counts.left_out } };
}

// the place of the bus of an interface
fn place_of(buses: &[Bus], interface: &[u8]) -> Option<usize>
    ensures place { result ≡ position (is_bus interface.now) buses.now }
    ensures within { IfSome result (λ place. place < length buses.now) }
{
    buses.iter().position(|bus| bus.interface() == interface)
}

// Appends a bus with this frame. Apart from `add_to_bus`, which would have to clear the room for a
// bus at each frame. `Err`: out of memory.
fn push_bus(alloc: Global, buses: &mut Vec<Bus>, frame: &Record<'_>) -> Result<(), AllocError>
    requires { IsIdentifier frame.now.id }
    ensures { OnOk result (buses.new.items ≡ buses.old.items
        ++ bus_with (new_bus frame.now.interface) frame.now ∷ []) }
{
    let mut bus = attempt!(Bus::new(alloc, frame.interface.bytes()));
    attempt!(bus.add(frame));
    buses.push(bus)?;
    Ok(())
}

// Adds a frame to the bus of its interface, a new one if there is none. Returns 1 if there is no
// room for a new bus, else 0. `Err`: out of memory.
#[tactic(auto, using(crate::proofs::Places::same_at), unfolding(crate::specs::Groups::group_with, crate::specs::Groups::no_room))]
fn add_to_bus(alloc: Global, buses: &mut Vec<Bus>, frame: &Record<'_>) -> Result<u64, AllocError>
    requires { IsIdentifier frame.now.id }
    ensures buses { OnOk result (buses.new.items ≡ group_with (is_bus frame.now.interface)
        (λ bus. bus_with bus frame.now) (new_bus frame.now.interface) most_buses buses.old.items) }
    ensures left_out { IfOk result
        (λ count. count ≡ no_room (is_bus frame.now.interface) most_buses buses.old.items) }
{
    let interface = frame.interface.bytes();
    match place_of(buses.as_slice(), interface) {
        Some(place) => {
            attempt!(buses[place].add(frame));
            Ok(0)
        }
        None => {
            if buses.len() >= MOST_BUSES {
                return Ok(1);
            }
            attempt!(push_bus(alloc, buses, frame));
            Ok(0)
        }
    }
}

impl Counts {
    /// The counts of no frame.
    #[tactic(auto, unfolding(crate::specs::Buses::counts_of, crate::specs::Groups::grouped, crate::specs::Groups::keys_of, crate::specs::Groups::left_out))]
    pub fn new(alloc: Global) -> Counts
        ensures { result ≡ counts_of [] }
    {
        Counts {
            buses: Vec::new(alloc),
            left_out: 0,
        }
    }

    #[tactic(auto, unfolding(crate::specs::Buses::counts_with))]
    fn add(&mut self, alloc: Global, frame: &Record<'_>) -> Result<(), AllocError>
        requires { IsIdentifier frame.now.id }
        ensures { OnOk result (self.new ≡ counts_with self.old frame.now) }
    {
        let more = attempt!(add_to_bus(alloc, &mut self.buses, frame));
        self.left_out = counted(self.left_out, more);
        Ok(())
    }

    /// Counts a frame: the counts are then those of all frames so far, by definition. `Err`: out of
    /// memory.
    pub fn take(&mut self, alloc: Global, frame: &Record<'_>) -> Result<(), AllocError>
        requires { IsIdentifier frame.now.id }
        ensures step { OnOk result (self.new ≡ counts_with self.old frame.now) }
        ensures all { OnOk result ((frames : List Record) → self.old ≡ counts_of frames
            → self.new ≡ counts_of (frame.now ∷ frames)) }
    {
        self.add(alloc, frame)?;
        Ok(())
    }

    /// The counts of each interface, in the order in which they came first.
    pub fn buses(&self) -> &[Bus]
        ensures { result.now ≡ self.now.buses }
    {
        self.buses.as_slice()
    }

    /// How many frames have no bus, since there was no room for their interface.
    pub fn left_out(&self) -> u64
        ensures { result ≡ self.now.left_out }
    {
        self.left_out
    }
}
