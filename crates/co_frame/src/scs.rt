//! The server command specifiers, scs, of responses.

pub(crate) const UPLOAD_SEGMENT: u8 = 0;

pub(crate) const DOWNLOAD_SEGMENT: u8 = 1;

pub(crate) const INITIATE_UPLOAD: u8 = 2;

pub(crate) const INITIATE_DOWNLOAD: u8 = 3;

pub(crate) const ABORT: u8 = 4;

pub(crate) const BLOCK_DOWNLOAD: u8 = 5;

pub(crate) const BLOCK_UPLOAD: u8 = 6;
