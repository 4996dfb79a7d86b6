//! The compiled mappings of a device, before and after its mapping parameters are written, and
//! after a reset.

use crate::scripts::shows;
use co_node::Node;
use co_pdo::{Mapped, Side};
use co_scripts::devices_of;
use std::process::Abort;
use std::test::Fail;

// RPDO 0 maps 2003h in place of 2002h.
const REMAPPING: &str = "\
605#2300140105020080 = 585#6000140100000000
605#2F00160000000000 = 585#6000160000000000
605#2300160110000320 = 585#6000160100000000
605#2F00160001000000 = 585#6000160000000000
605#2300140105020000 = 585#6000140100000000
";

// The index of the first entry that a PDO maps, and how many bytes it maps in all; `None` if there
// is no such PDO, or its first object isn't an entry.
fn first_of(node: &Node, side: Side, number: u16) -> Option<(u16, usize)> {
    let compiled = node.compiled(side, number)?;
    match compiled.mapped().first() {
        Some(Mapped::Entry(key, _)) => Some((key.index, compiled.width())),
        _ => None,
    }
}

// Fails unless RPDO 0 of the first device maps so, and TPDO 0 as it did.
fn maps(rt: &impl Abort, devices: &[Node], rpdo: (u16, usize)) -> Result<(), Fail> {
    let node = devices.first().ok_or("no device")?;
    assert_eq!(rt; first_of(node, Side::Rpdo, 0), Some(rpdo));
    assert_eq!(rt; first_of(node, Side::Tpdo, 0), Some((0x2002, 4)));
    assert_eq!(rt; first_of(node, Side::Tpdo, 511), None);
    Ok(())
}

#[test]
fn mappings_follow_writes(rt: HostRuntime) -> Result<(), Fail> {
    let mut devices = devices_of(rt.alloc(), "new 1000")?;
    maps(&rt, devices.as_slice(), (0x2002, 4))?;
    shows(&rt, devices.as_mut_slice(), REMAPPING);
    maps(&rt, devices.as_slice(), (0x2003, 2))?;
    shows(&rt, devices.as_mut_slice(), "000#8105 = 705#00");
    maps(&rt, devices.as_slice(), (0x2002, 4))
}
