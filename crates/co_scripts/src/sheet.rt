//! Data sheets made from tables with a line for each section: `1018 9` is an object with
//! sub-indices, of object type 9, and `1018sub0 5 ro 1` an entry of data type 5, access ro and
//! default 1. A word with `=` is one more line of the section.

use std::alloc::{AllocError, Global};
use std::string::String;

const MANDATORY: &str = "\
1000 7 ro 0x191
1001 5 ro
1018 9
1018sub0 5 ro 1
1018sub1 7 ro
";

/// The communication objects of the device of most tests, without PDOs.
pub const PROFILE: &str = "\
1003 8
1003sub0 5 rw
1003sub1 7 ro
1003sub2 7 ro
1005 7 rw 0x80
1014 7 rw $NODEID+0x80
1015 6 rw
1016 8
1016sub0 5 ro 2
1016sub1 7 rw
1016sub2 7 rw
1017 6 rw
1029 8
1029sub0 5 ro 1
1029sub1 5 rw 0
1201 9
1201sub0 5 ro 2
1201sub1 7 ro 0x680
1201sub2 7 ro 0x681
";

/// Its RPDO and two TPDOs.
pub const PDOS: &str = "\
1400 9
1400sub0 5 ro 2
1400sub1 7 rw $NODEID+0x200
1400sub2 5 rw 255
1600 9
1600sub0 5 rw 1
1600sub1 7 rw 0x20020020
1600sub2 7 rw 0
1800 9
1800sub0 5 ro 5
1800sub1 7 rw $NODEID+0x180
1800sub2 5 rw 255
1800sub3 6 rw 0
1800sub5 6 rw 0
1801 9
1801sub0 5 ro 5
1801sub1 7 rw $NODEID+0x280
1801sub2 5 rw 255
1801sub3 6 rw 0
1801sub5 6 rw 0
1A00 9
1A00sub0 5 rw 1
1A00sub1 7 rw 0x20020020
1A00sub2 7 rw 0
1A01 9
1A01sub0 5 rw 1
1A01sub1 7 rw 0x20030010
1A01sub2 7 rw 0
";

/// Its SYNC counter, and the SYNC start value of a TPDO, for some tests.
pub const COUNTER: &str = "\
1019 5 rw
1800sub6 5 rw
";

/// Its objects from 2000h on.
pub const MANUFACTURER: &str = "\
2001 9 rw
2002 7 rw PDOMapping=1
2003 6 rw PDOMapping=1 HighLimit=1000
2004 6 wo
2100 2
";

// The default of a section by changes such as `1017=10 1800sub2=3`.
fn default_in<'a>(changes: &'a str, name: &str) -> Option<&'a str> {
    for change in changes.split_whitespace() {
        if let Some((section, default)) = change.split_once('=')
            && section == name
        {
            return Some(default);
        }
    }
    None
}

// Appends the section of a line.
fn push_section(text: &mut String, row: &str, changes: &str) -> Result<(), AllocError> {
    let mut words = row.split_whitespace();
    let name = words.next().unwrap_or("");
    let kind = words.next().unwrap_or("");
    let Some(access) = words.next() else {
        write!(text, "[{name}]\nObjectType={kind}\n")?;
        return Ok(());
    };
    write!(text, "[{name}]\nDataType={kind}\nAccessType={access}\n")?;
    let changed = default_in(changes, name);
    if let Some(default) = changed {
        write!(text, "DefaultValue={default}\n")?;
    }
    for word in words {
        if word.contains('=') {
            write!(text, "{word}\n")?;
        } else if changed.is_none() {
            write!(text, "DefaultValue={word}\n")?;
        }
    }
    Ok(())
}

// Appends the sections of a table, with changed defaults.
fn push_table(text: &mut String, table: &str, changes: &str) -> Result<(), AllocError> {
    for row in table.lines() {
        push_section(text, row, changes)?;
    }
    Ok(())
}

// Appends the objects of a table to a list of `before` objects; returns how many it has then.
fn push_names(text: &mut String, table: &str, before: u16) -> Result<u16, AllocError> {
    let mut count = before;
    for row in table.lines() {
        let name = row.split_whitespace().next().unwrap_or("");
        if name.len() == 4 {
            count = count.saturating_add(1);
            write!(text, "{count}=0x{name}\n")?;
        }
    }
    Ok(count)
}

// Appends the sections of tables, with changed defaults, and the list of their objects, if there
// are tables.
fn push_objects(
    text: &mut String,
    list: &str,
    tables: &[&str],
    changes: &str,
) -> Result<(), AllocError> {
    if tables.is_empty() {
        return Ok(());
    }
    for table in tables {
        push_table(text, table, changes)?;
    }
    write!(text, "[{list}]\n")?;
    let mut count: u16 = 0;
    for table in tables {
        count = push_names(text, table, count)?;
    }
    write!(text, "SupportedObjects={count}\n")
}

/// A data sheet: the mandatory objects, and those of tables of optional and manufacturer objects,
/// with changed defaults such as `1017=10 1800sub2=3`.
pub fn sheet_of(
    alloc: Global,
    optional: &[&str],
    manufacturer: &[&str],
    changes: &str,
) -> Result<String, AllocError> {
    let mut text = String::new(alloc);
    push_objects(&mut text, "MandatoryObjects", &[MANDATORY], changes)?;
    push_objects(&mut text, "OptionalObjects", optional, changes)?;
    push_objects(&mut text, "ManufacturerObjects", manufacturer, changes)?;
    Ok(text)
}
