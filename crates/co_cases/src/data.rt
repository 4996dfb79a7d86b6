//! The data of PDOs.

use co_dict_list::{Limits, ListStore};
use co_pdo::{Mapping, PdoFault, PdoNumber, Side, apply, image};
use co_scripts::{COUNTER, MANUFACTURER, PDOS, sheet_of};
use co_sheet::read;
use std::alloc::Global;
use std::test::Fail;

/// The data of the RPDO of 2002h and 2003h, its fault, and the data of the two TPDOs after that.
const ROWS: [(&[u8], &str, [u8; 6]); 4] = [
    (&[1, 2, 3, 4, 5], "too short", [0; 6]),
    (&[1, 2, 3, 4, 5, 0], "taken", [1, 2, 3, 4, 5, 0]),
    (&[6, 7, 8, 9, 0xE9, 3], "out of limits", [1, 2, 3, 4, 5, 0]),
    (&[6, 7, 8, 9, 0xE8, 3, 0], "too long", [6, 7, 8, 9, 0xE8, 3]),
];

fn words_for(answer: Result<(), PdoFault>) -> &'static str {
    match answer {
        Ok(()) => "taken",
        Err(PdoFault::Short) => "too short",
        Err(PdoFault::OutOfLimits) => "out of limits",
        Err(PdoFault::Long) => "too long",
    }
}

// A dictionary with an RPDO of two entries, and two TPDOs.
fn device(alloc: Global) -> Result<ListStore, Fail> {
    let changes = "1600sub0=2 1600sub2=0x20030010";
    let text = sheet_of(alloc, &[PDOS, COUNTER], &[MANUFACTURER], changes)?;
    let sheet = read(alloc, text.as_bytes())?;
    let limits = Limits {
        strings: 16,
        domains: 0,
        own: &[],
    };
    Ok(ListStore::build(alloc, &sheet, 5, &limits)?)
}

#[test]
fn data(rt: HostRuntime) -> Result<(), Fail> {
    let mut store = device(rt.alloc())?;
    for (bytes, answer, sent) in ROWS {
        let rpdo = Mapping::read(&store, Side::Rpdo, PdoNumber::of(0));
        let taken = words_for(apply(&mut store, &rpdo, bytes));
        assert_eq!(rt; taken, answer, "{bytes:?}");
        let number = Mapping::read(&store, Side::Tpdo, PdoNumber::of(0));
        assert_eq!(rt; image(&store, &number).as_slice(), &sent[..4]);
        let limited = Mapping::read(&store, Side::Tpdo, PdoNumber::of(1));
        assert_eq!(rt; image(&store, &limited).as_slice(), &sent[4..]);
    }
    Ok(())
}
