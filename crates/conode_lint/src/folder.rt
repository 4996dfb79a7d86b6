//! The data sheets of a folder.

use conode_io::CmdFault;
use std::alloc::AllocError;
use std::fs::DirEntry;
use std::rt::Files;
use std::{fs, io};

// whether a name ends in `.eds` or `.dcf`, in any case
fn is_sheet_name(name: &str) -> bool {
    let bytes = name.as_bytes();
    let Some(place) = bytes.len().checked_sub(4) else {
        return false;
    };
    let end = &bytes[place..];
    end.eq_ignore_ascii_case(b".eds") || end.eq_ignore_ascii_case(b".dcf")
}

/// Whether a path is that of a folder.
pub(crate) fn is_folder<R: Files>(rt: &R, path: &str) -> bool {
    match fs::metadata(rt, path) {
        Ok(metadata) => metadata.is_dir(),
        Err(_) => false,
    }
}

// why a folder can't be read
fn fault_of(error: io::Error) -> CmdFault {
    if error.kind() == io::ErrorKind::OutOfMemory {
        CmdFault::Memory
    } else {
        CmdFault::Read
    }
}

// adds the path of a file with the name of a data sheet
fn add_sheet<R: Files + AllocGlobal>(
    rt: &R,
    paths: &mut Vec<String>,
    name: &str,
    path: &str,
) -> Result<(), AllocError> {
    if !is_sheet_name(name) || is_folder(rt, path) {
        return Ok(());
    }
    match String::from_str(rt.alloc(), path) {
        Ok(path) => {
            paths.push(path)?;
            Ok(())
        }
        Err(fault) => Err(fault),
    }
}

// adds the path of an entry that is a data sheet; false if its name isn't UTF-8
fn add_entry<R: Files + AllocGlobal + Drop>(
    rt: &R,
    paths: &mut Vec<String>,
    entry: io::Result<DirEntry<R>>,
) -> Result<bool, CmdFault> {
    match entry {
        Ok(entry) => {
            match add_sheet(rt, paths, entry.file_name(), entry.path().to_string_lossy()) {
                Ok(()) => Ok(true),
                Err(_) => Err(CmdFault::Memory),
            }
        }
        Err(error) if error.kind() == io::ErrorKind::InvalidFilename => Ok(false),
        Err(error) => Err(fault_of(error)),
    }
}

// adds the paths of a folder's data sheets; false if a name isn't UTF-8
fn add_sheets<R: Files + AllocGlobal + Clone + Drop>(
    rt: &R,
    paths: &mut Vec<String>,
    folder: &str,
) -> Result<bool, CmdFault> {
    let entries = match fs::read_dir(rt, folder) {
        Ok(entries) => entries,
        Err(error) => return Err(fault_of(error)),
    };
    let mut are_named = true;
    for entry in entries {
        let is_named = attempt!(add_entry(rt, paths, entry));
        are_named = are_named && is_named;
    }
    Ok(are_named)
}

/// The data sheets of a folder.
#[derive(Drop)]
pub(crate) struct Sheets {
    /// Their paths, in the order of their bytes.
    pub(crate) paths: Vec<String>,
    /// False if a name in the folder isn't UTF-8: that file isn't among them.
    pub(crate) are_all: bool,
}

/// The data sheets of a folder. `Read` if the folder can't be read, `Memory` if memory ran out.
pub(crate) fn sheets_in<R: Files + AllocGlobal + Clone + Drop>(
    rt: &R,
    folder: &str,
) -> Result<Sheets, CmdFault> {
    let mut paths = Vec::new(rt.alloc());
    match add_sheets(rt, &mut paths, folder) {
        Ok(are_all) => {
            paths.sort_unstable();
            Ok(Sheets { paths, are_all })
        }
        Err(fault) => Err(fault),
    }
}
