//! The PDOs of nodes whose entries a recording shows.

ghost use Rattle.std.specs.Prelude.{◌≡◌, ◌++◌, ◌≤◌, [], OnOk, length, map};
ghost use Rattle.std.specs.List.{list_any};
ghost use Rattle.std.specs.Option.{option_copied};
ghost use Rattle.conode_explain_entries.specs.Tables.{
  added,
  added_at,
  entries_with,
  index_shown,
  is_at,
  is_of,
  new_pdo,
  pdo_with,
  state_in,
  table_with,
};

use crate::event::{Event, event_in};
use crate::state::PdoState;
use arrayvec::ArrayVec;
use conode_explain_transfers::Told;
use std::alloc::{AllocError, Global};
use std::marker::Model;

/// How many PDOs are followed at most.
const MOST_PDOS: usize = 2048;

/// A PDO of a node on an interface, and what the recording shows of its entries.
#[derive(Drop)]
pub struct ShownPdo {
    /// The index of its communication parameter.
    pub index: u16,
    /// The node-ID.
    pub node: u8,
    /// The name of the interface.
    pub interface: ArrayVec<u8, 15>,
    /// What the recording shows of its entries.
    pub state: PdoState,
}

/// What a recording shows of the entries that PDOs need, of 2,048 PDOs at most: their COB-IDs and
/// mappings. Contracts see the PDOs in the order in which one of their entries was shown first.
#[derive(Drop)]
pub struct Entries {
    pdos: Vec<ShownPdo>,
}

impl Model for Entries {
    ghost use Rattle.std.specs.Prelude.{List};
    ghost use Rattle.conode_explain_entries.specs.declared.entries.ShownPdo.{ShownPdo};

    ghost Value = { List ShownPdo };

    ghost view = { λ entries. entries.pdos.items };
}

impl ShownPdo {
    // A PDO of which nothing was shown.
    fn new(interface: &[u8], node: u8, index: u16) -> ShownPdo
        requires { length interface.now ≤ 15 }
        ensures { result ≡ new_pdo interface.now node index }
    {
        let mut name = ArrayVec::new();
        name.try_extend_from_slice(interface).unwrap();
        ShownPdo {
            index,
            node,
            interface: name,
            state: PdoState::nothing(),
        }
    }

    fn is_at(&self, interface: &[u8], node: u8) -> bool
        ensures { result ≡ is_at interface.now node self.now }
    {
        self.node == node && self.interface.as_slice() == interface
    }

    fn is_of(&self, interface: &[u8], node: u8, index: u16) -> bool
        ensures { result ≡ is_of interface.now node index self.now }
    {
        self.index == index && self.is_at(interface, node)
    }

    // An event of a node.
    fn take(&mut self, interface: &[u8], node: u8, event: Event)
        ensures { self.new ≡ pdo_with interface.now node event self.old }
    {
        if self.is_at(interface, node) {
            self.state = self.state.with(self.index, event);
        }
    }
}

impl Event {
    // the PDO of which the event shows an entry
    fn index_shown(self) -> Option<u16>
        ensures { result ≡ index_shown self }
    {
        match self {
            Event::Written { of, number: _ } => Some(of.index),
            Event::Read { of, number: _ } => Some(of.index),
            _ => None,
        }
    }
}

impl Entries {
    /// No PDO was shown.
    pub fn new(alloc: Global) -> Entries
        ensures { result ≡ [] }
    {
        Entries {
            pdos: Vec::new(alloc),
        }
    }

    /// The PDOs of which an entry was shown, in the order in which one was first.
    pub fn shown(&self) -> &[ShownPdo]
        ensures { result.now ≡ self.now }
    {
        self.pdos.as_slice()
    }

    /// What the recording shows of the entries of a PDO of a node on an interface, by the index of
    /// its communication parameter; `None` where it shows none of them.
    pub fn state(&self, interface: &[u8], node: u8, index: u16) -> Option<&PdoState>
        ensures { option_copied result ≡ state_in self.now interface.now node index }
    {
        let pdos = self.pdos.as_slice();
        for pdo in pdos {
            if pdo.is_of(interface, node, index) {
                return Some(&pdo.state);
            }
        }
        None
    }

    // Changes the PDOs of a node that were shown.
    #[tactic(auto, using(crate::proofs::Changes::done_more, crate::proofs::Changes::all_done))]
    fn change(&mut self, interface: &[u8], node: u8, event: Event)
        ensures { self.new ≡ map (pdo_with interface.now node event) self.old }
    {
        for pdo in self.pdos.iter_mut() {
            pdo.take(interface, node, event);
        }
    }

    fn contains(&self, interface: &[u8], node: u8, index: u16) -> bool
        ensures { result ≡ list_any (is_of interface.now node index) self.now }
    {
        let pdos = self.pdos.as_slice();
        for pdo in pdos {
            if pdo.is_of(interface, node, index) {
                return true;
            }
        }
        false
    }

    // Adds a PDO that wasn't shown before, where there is room.
    fn add_at(&mut self, interface: &[u8], node: u8, index: u16) -> Result<(), AllocError>
        requires { length interface.now ≤ 15 }
        ensures { OnOk result (self.new ≡ self.old ++ added_at self.old interface.now node index) }
    {
        if self.contains(interface, node, index) || self.pdos.len() >= MOST_PDOS {
            return Ok(());
        }
        match self.pdos.push(ShownPdo::new(interface, node, index)) {
            Ok(()) => Ok(()),
            Err(_) => Err(AllocError),
        }
    }

    fn add(&mut self, interface: &[u8], node: u8, event: Event) -> Result<(), AllocError>
        requires { length interface.now ≤ 15 }
        ensures { OnOk result (self.new ≡ self.old ++ added self.old interface.now node event) }
    {
        match event.index_shown() {
            Some(index) => self.add_at(interface, node, index),
            None => Ok(()),
        }
    }

    // An event of a node.
    #[tactic(auto, unfolding(crate::specs::Tables::table_with))]
    fn take_event(&mut self, interface: &[u8], node: u8, event: Event) -> Result<(), AllocError>
        requires { length interface.now ≤ 15 }
        ensures { OnOk result (self.new ≡ table_with self.old interface.now node event) }
    {
        attempt!(self.add(interface, node, event));
        self.change(interface, node, event);
        Ok(())
    }

    /// Takes what is known about a frame on an interface, whose name has at most 15 bytes. It
    /// allocates when an entry of a PDO is shown first; on an `Err` memory ran out.
    pub fn take(&mut self, interface: &[u8], told: &Option<Told>) -> Result<(), AllocError>
        requires { length interface.now ≤ 15 }
        ensures { OnOk result (self.new ≡ entries_with self.old interface.now told.now) }
    {
        let Some(told) = told else {
            return Ok(());
        };
        match event_in(told) {
            Some(event) => self.take_event(interface, told.node, event),
            None => Ok(()),
        }
    }
}
