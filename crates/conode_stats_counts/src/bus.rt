//! The frames of one bus.

ghost use Rattle.std.specs.Prelude.{◌≡◌, ◌≤◌, length, OnOk, IfOk};
ghost use Rattle.conode_record.specs.Grammar.{IsIdentifier};
ghost use Rattle.conode_stats_counts.specs.Buses.{bus_with, new_bus};

use crate::emergencies::Emergencies;
use crate::load::Load;
use crate::node::Node;
use crate::nodes::{new_nodes, show_sign, show_time};
use crate::row::{Row, can_id};
use crate::rows::Rows;
use crate::sign::Sign;
use crate::size::Size;
use crate::tally::{Tally, counted};
use crate::transfers::Transfers;
use arrayvec::ArrayVec;
use conode_record::Record;
use std::alloc::{AllocError, Global};
use std::marker::Model;

/// Stamps are in microseconds.
const SECOND: u64 = 1_000_000;

/// The counts of one bus: all frames, their bits, its nodes, its SDO transfers, its EMCY messages,
/// and the frames by identifier. At most 4,096 identifiers have a row; the frames of further ones
/// are only counted together.
pub struct Bus {
    interface: ArrayVec<u8, 15>,
    all: Tally,
    load: Load,
    nodes: Vec<Node>,
    transfers: Transfers,
    emergencies: Emergencies,
    rows: Rows,
    left_out: u64,
}

impl Model for Bus {
    ghost use Rattle.conode_stats_counts.specs.Buses.{BusCounts};

    ghost Value = { BusCounts };

    ghost view = { λ bus. record {
      interface = bus.interface.items;
      all = bus.all;
      load = bus.load;
      nodes = bus.nodes.items;
      transfers = bus.transfers;
      emergencies = bus.emergencies;
      rows = bus.rows;
      left_out = bus.left_out;
    } };
}

// One call wherever a bus is dropped, in place of a drop of each of its parts.
impl Drop for Bus {
    fn drop(self) {
        let Bus {
            interface: _,
            all: _,
            load: _,
            nodes,
            transfers,
            emergencies,
            rows,
            left_out: _,
        } = self;
        drop(nodes);
        drop(transfers);
        drop(emergencies);
        drop(rows);
    }
}

impl Bus {
    /// An interface without frames. `Err`: out of memory.
    #[tactic(auto, unfolding(crate::specs::Buses::bus_of, crate::specs::Groups::grouped, crate::specs::Groups::keys_of, crate::specs::Groups::left_out))]
    pub(crate) fn new(alloc: Global, interface: &[u8]) -> Result<Bus, AllocError>
        requires { length interface.now ≤ 15 }
        ensures { IfOk result (λ bus. bus ≡ new_bus interface.now) }
    {
        let nodes = attempt!(new_nodes(alloc));
        let rows = attempt!(Rows::new(alloc));
        let mut name = ArrayVec::new();
        name.try_extend_from_slice(interface).unwrap();
        Ok(Bus {
            interface: name,
            all: Tally::new(),
            load: Load::new(),
            nodes,
            transfers: Transfers::new(alloc),
            emergencies: Emergencies::new(alloc),
            rows,
            left_out: 0,
        })
    }

    /// Counts a frame. `Err`: out of memory.
    #[tactic(auto, unfolding(crate::specs::Buses::bus_with, crate::specs::Nodes::sign_of))]
    pub(crate) fn add(&mut self, frame: &Record<'_>) -> Result<(), AllocError>
        requires { IsIdentifier frame.now.id }
        ensures { OnOk result (self.new ≡ bus_with self.old frame.now) }
    {
        let more = attempt!(self.rows.add(can_id(frame.id), frame.micros));
        self.left_out = counted(self.left_out, more);
        let shown = attempt!(self.transfers.take(frame));
        attempt!(self.emergencies.take(frame));
        self.all.add(frame.micros);
        let size = Size::of(frame.id, &frame.content);
        self.load.add(frame.micros / SECOND, size);
        let sign = Sign::of(frame.id, &frame.content);
        show_sign(&mut self.nodes, sign, frame.micros);
        show_time(&mut self.nodes, shown, frame.micros);
        Ok(())
    }

    /// The name of its interface.
    pub fn interface(&self) -> &[u8]
        ensures { result.now ≡ self.now.interface }
    {
        self.interface.as_slice()
    }

    /// The counts of all frames.
    pub fn all(&self) -> Tally
        ensures { result ≡ self.now.all }
    {
        self.all
    }

    /// The bits of all frames.
    pub fn load(&self) -> Load
        ensures { result ≡ self.now.load }
    {
        self.load
    }

    /// What its nodes show, by node-ID from 0, which is none, to 127.
    pub fn nodes(&self) -> &[Node]
        ensures { result.now ≡ self.now.nodes }
    {
        self.nodes.as_slice()
    }

    /// Its SDO transfers.
    pub fn transfers(&self) -> &Transfers
        ensures { result.now ≡ self.now.transfers }
    {
        &self.transfers
    }

    /// Its EMCY messages.
    pub fn emergencies(&self) -> &Emergencies
        ensures { result.now ≡ self.now.emergencies }
    {
        &self.emergencies
    }

    /// The frames of each identifier, in the order in which they came first.
    pub fn rows(&self) -> &[Row]
        ensures { result.now ≡ self.now.rows }
    {
        self.rows.as_slice()
    }

    /// How many frames have no row, since there was no room for their identifier.
    pub fn left_out(&self) -> u64
        ensures { result ≡ self.now.left_out }
    {
        self.left_out
    }
}
