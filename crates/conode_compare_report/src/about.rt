//! What a document says of the comparison itself.

use crate::names::SheetNames;
use co_sheet::EntryRow;
use conode_compare_nmt::Limits;
use conode_compare_text::Tally;

/// What was compared, how, and how it ended.
#[derive(Clone, Copy)]
pub struct About<'s, 'a> {
    /// The version of the program.
    pub version: &'s str,
    /// The path of the data sheet.
    pub sheet: &'s str,
    /// The path of the recording; `-`: standard input.
    pub recording: &'s str,
    /// The interface that is named, if one is.
    pub interface: Option<&'s [u8]>,
    /// The node-ID.
    pub node: u8,
    /// How exactly the device is judged.
    pub limits: Limits,
    /// The entries of the data sheet, in increasing key.
    pub rows: &'s [EntryRow<'a>],
    /// The names that the data sheet has of its vendor and its product.
    pub names: SheetNames<'s>,
    /// The vendor-ID, the product code and the revision number of the sheet: 1018:01, 02 and 03.
    pub vendor: Option<u64>,
    pub product: Option<u64>,
    pub revision: Option<u64>,
    /// How many frames of the device have which verdict.
    pub tally: Tally,
    /// Whether there are frames of several interfaces, and none is named.
    pub several: bool,
}
