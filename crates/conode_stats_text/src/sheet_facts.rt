//! The producer heartbeat times and the bit rates of data sheets.

ghost use Rattle.std.specs.Prelude.{◌≡◌, ◌≤◌, IfSome, min, option_map};
ghost use Rattle.std.specs.Option.{option_copied};
ghost use Rattle.conode_stats_text.specs.SheetFacts.{
  is_for,
  is_kind,
  is_name,
  has_rate,
  is_number,
  rate_by,
  sheet_rate,
  sheet_time,
  time_by,
};

/// What a data sheet says of a node's heartbeats, and of the bus.
#[derive(Clone, Copy)]
pub struct SheetFacts<'a> {
    /// The interface that the sheet is for; `None`: each.
    pub interface: Option<&'a [u8]>,
    /// The node that it is for, 1 to 127; `None`: each.
    pub node: Option<u8>,
    /// The producer heartbeat time, 1017:00, in ms; 0 is for no heartbeats, or where the sheet has
    /// none.
    pub time: u16,
    /// The bit rate in bit/s; 0 where the sheet has none.
    pub bit_rate: u32,
}

/// The greatest bit rate of CAN, in bit/s.
const GREATEST_RATE: u32 = 1_000_000;

fn is_name(own: Option<&[u8]>, name: &[u8]) -> bool
    ensures { result ≡ is_name (option_copied own.entry) name.now }
{
    match own {
        Some(own) => own == name,
        None => true,
    }
}

fn is_number(own: Option<u8>, number: u8) -> bool
    ensures { result ≡ is_number own number }
{
    match own {
        Some(own) => own == number,
        None => true,
    }
}

impl SheetFacts<'_> {
    // whether it is for one node, or for each, and for one interface, or for each
    fn is_kind(&self, node: bool, interface: bool) -> bool
        ensures { result ≡ is_kind node interface self.now }
    {
        self.node.is_some() == node && self.interface.is_some() == interface
    }

    // whether it is for a node on an interface; 0 is for no heartbeats
    fn is_for(&self, interface: &[u8], node: u8) -> bool
        ensures { result ≡ is_for interface.now node self.now }
    {
        is_name(self.interface, interface) && is_number(self.node, node) && self.time != 0
    }

    // whether it has a bit rate, and is for an interface, or for each
    fn has_rate(&self, of_interface: bool, interface: &[u8]) -> bool
        ensures { result ≡ has_rate of_interface interface.now self.now }
    {
        self.bit_rate != 0
            && self.interface.is_some() == of_interface
            && is_name(self.interface, interface)
    }
}

// the time of the first sheet of a kind that is for a node on an interface
fn time_by(
    sheets: &[SheetFacts<'_>],
    of_node: bool,
    of_interface: bool,
    interface: &[u8],
    node: u8,
) -> Option<u16>
    ensures { result ≡ time_by of_node of_interface interface.now node sheets.now }
{
    let found = sheets.iter().find(|sheet| sheet.is_kind(of_node, of_interface)
        && sheet.is_for(interface, node));
    match found {
        Some(sheet) => Some(sheet.time),
        None => None,
    }
}

/// The producer heartbeat time of a node on an interface, in ms, if a sheet has it: one for the node
/// comes before one for each node, and of those one for the interface.
#[tactic(auto, unfolding(crate::specs::SheetFacts::sheet_time))]
pub fn sheet_time(sheets: &[SheetFacts<'_>], interface: &[u8], node: u8) -> Option<u16>
    ensures { result ≡ sheet_time interface.now node sheets.now }
{
    time_by(sheets, true, true, interface, node)
        .or(time_by(sheets, true, false, interface, node))
        .or(time_by(sheets, false, true, interface, node))
        .or(time_by(sheets, false, false, interface, node))
}

// a bit rate, at most the greatest one of CAN
fn bounded(rate: Option<u32>) -> Option<u32>
    ensures value { result ≡ option_map (λ rate. min rate 1000000) rate }
    ensures bound { IfSome result (λ rate. rate ≤ 1000000) }
{
    match rate {
        Some(rate) => Some(rate.min(GREATEST_RATE)),
        None => None,
    }
}

// the bit rate of the first sheet that has one and is for an interface, or for each
fn rate_by(sheets: &[SheetFacts<'_>], of_interface: bool, interface: &[u8]) -> Option<u32>
    ensures { result ≡ rate_by of_interface interface.now sheets.now }
{
    let found = sheets
        .iter()
        .find(|sheet| sheet.has_rate(of_interface, interface));
    match found {
        Some(sheet) => Some(sheet.bit_rate),
        None => None,
    }
}

/// The bit rate of an interface, in bit/s: the one that is given, else that of the first sheet for
/// the interface, else that of the first sheet for each, at most 1 Mbit/s.
pub fn sheet_rate(given: Option<u32>, sheets: &[SheetFacts<'_>], interface: &[u8]) -> Option<u32>
    ensures value { result ≡ sheet_rate given interface.now sheets.now }
    ensures bound { IfSome given (λ rate. rate ≤ 1000000)
        → IfSome result (λ rate. rate ≤ 1000000) }
{
    match given {
        Some(rate) => Some(rate),
        None => bounded(rate_by(sheets, true, interface).or(rate_by(sheets, false, interface))),
    }
}
