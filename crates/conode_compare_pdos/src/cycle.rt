//! A TPDO of type n = 2 to 240 answers each n-th SYNC (CiA 301, 7.5.2.37).

ghost use Rattle.std.specs.Prelude.{◌≡◌, option_map};
ghost use Rattle.conode_compare_pdos.specs.Cycles.{
  begins_anew,
  cycle_sent,
  cycle_synced,
  frames_after,
  is_cyclic,
  is_early,
  new_cycle,
  spare_after,
  syncs_since,
};
ghost use Rattle.conode_compare_pdos.specs.Tpdos.{anew};

/// The SYNCs since the newest frame of a TPDO.
#[derive(Clone, Copy)]
pub struct Cycle {
    /// How many came since that frame, up to 480.
    pub syncs: u16,
    /// How many came before that frame, and after the SYNC that it answered, at most.
    pub spare: u16,
    /// How many frames are counted.
    pub frames: u16,
}

// twice the greatest type: any frame may come after so many
const MOST_COUNTED: u16 = 480;

/// Whether a TPDO of this type answers each n-th SYNC, and not each.
pub(crate) fn is_cyclic(kind: u8) -> bool
    ensures { result ≡ is_cyclic kind }
{
    2 <= kind && kind <= 240
}

// how many SYNCs came since the one that its last frame answered, at most
fn syncs_since(cycle: Cycle) -> u32
    ensures { result ≡ syncs_since cycle }
{
    cycle.spare as u32 + cycle.syncs as u32
}

/// Whether a frame of this type that comes now can't answer a SYNC yet.
pub(crate) fn is_early(kind: u8, cycle: Cycle) -> bool
    ensures { result ≡ is_early kind cycle }
{
    syncs_since(cycle) < kind as u32
}

// whether the count begins anew with a frame of this type that comes now
fn begins_anew(kind: u8, cycle: Cycle) -> bool
    ensures { result ≡ begins_anew kind cycle }
{
    is_early(kind, cycle) || cycle.frames as u32 > kind as u32 + 2
}

// how many SYNCs came since the one that a frame answers that comes now, at most
fn spare_after(kind: u8, cycle: Cycle) -> u16
    ensures { result ≡ spare_after kind cycle }
{
    let since = syncs_since(cycle);
    if begins_anew(kind, cycle) || kind as u32 + kind as u32 <= since {
        kind as u16
    } else {
        (since - kind as u32) as u16
    }
}

// how many frames are counted with one that comes now
fn frames_after(kind: u8, cycle: Cycle) -> u16
    ensures { result ≡ frames_after kind cycle }
{
    if is_early(kind, cycle) || cycle.frames as u32 > kind as u32 + 2 {
        1
    } else {
        cycle.frames + 1
    }
}

impl Cycle {
    /// Nothing is known of the frames before.
    pub(crate) fn new() -> Cycle
        ensures { result ≡ new_cycle }
    {
        Cycle {
            syncs: MOST_COUNTED,
            spare: 0,
            frames: 0,
        }
    }

    /// A SYNC with so many bytes came: one with a counter may begin the count anew.
    fn synced(self, length: u8) -> Cycle
        ensures { result ≡ cycle_synced length self }
    {
        if length > 0 {
            return Self::new();
        }
        Cycle {
            syncs: if self.syncs >= MOST_COUNTED {
                MOST_COUNTED
            } else {
                self.syncs + 1
            },
            spare: self.spare,
            frames: self.frames,
        }
    }

    /// The TPDO was sent; `certain`: surely of this type.
    fn sent(self, certain: bool, kind: Option<u8>) -> Cycle
        ensures { result ≡ cycle_sent certain kind self }
    {
        match kind {
            Some(kind) if certain && is_cyclic(kind) => Cycle {
                syncs: 0,
                spare: spare_after(kind, self),
                frames: frames_after(kind, self),
            },
            _ => Self::new(),
        }
    }
}

/// The count begins anew.
pub(crate) fn anew(cycle: Option<Cycle>) -> Option<Cycle>
    ensures { result ≡ anew cycle }
{
    match cycle {
        Some(_) => Some(Cycle::new()),
        None => None,
    }
}

/// A SYNC with so many bytes came.
pub(crate) fn cycle_synced(cycle: Option<Cycle>, length: u8) -> Option<Cycle>
    ensures { result ≡ option_map (cycle_synced length) cycle }
{
    match cycle {
        Some(cycle) => Some(cycle.synced(length)),
        None => None,
    }
}

/// The TPDO was sent; `certain`: surely of this type.
pub(crate) fn cycle_sent(cycle: Option<Cycle>, certain: bool, kind: Option<u8>) -> Option<Cycle>
    ensures { result ≡ option_map (cycle_sent certain kind) cycle }
{
    match cycle {
        Some(cycle) => Some(cycle.sent(certain, kind)),
        None => None,
    }
}
