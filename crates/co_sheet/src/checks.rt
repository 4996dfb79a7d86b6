//! The checks of a data sheet, in their order: its lists, their objects, the entries. Each step
//! returns what it has read, or the fault that its checks find first.

pub(crate) mod entries;
pub(crate) mod faults;
pub(crate) mod findings;
pub(crate) mod lists;
pub(crate) mod objects;
