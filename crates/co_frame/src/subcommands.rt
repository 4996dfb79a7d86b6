//! The subcommands of block transfers, cs of a client and ss of a server.

pub(crate) const INITIATE: u8 = 0;

pub(crate) const END: u8 = 1;

pub(crate) const ACKNOWLEDGE: u8 = 2;

pub(crate) const START: u8 = 3;
