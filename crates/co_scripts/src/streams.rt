//! Readers in memory that return few bytes at a time, fail, or never end.

use std::io;
use std::io::Read;

/// A reader that is interrupted by a signal a number of times, and then returns a text, at most a
/// number of bytes at a time. It fails after a number of calls.
#[derive(Drop)]
pub struct Pieces<'a> {
    /// The rest of the text.
    pub text: &'a [u8],
    /// The most bytes that it returns at a time.
    pub size: usize,
    /// How many more times it is interrupted.
    pub interruptions: u32,
    /// Remaining calls before it fails, without the interruptions.
    pub calls: u32,
}

impl<'a> Pieces<'a> {
    /// A reader that is never interrupted and doesn't fail.
    pub fn new(text: &'a [u8], size: usize) -> Self {
        Pieces {
            text,
            size,
            interruptions: 0,
            calls: u32::MAX,
        }
    }
}

impl Read for Pieces<'_> {
    fn read(&mut self, buf: &mut [u8]) -> io::Result<usize> {
        if self.interruptions > 0 {
            self.interruptions -= 1;
            return Err(io::ErrorKind::Interrupted.into());
        }
        if self.calls == 0 {
            return Err(io::ErrorKind::Other.into());
        }
        self.calls -= 1;
        let mut piece = &self.text[..self.text.len().min(self.size)];
        let count = piece.read(buf)?;
        self.text = &self.text[count.min(self.text.len())..];
        Ok(count)
    }
}

/// A reader that is interrupted by a signal a number of times, and then returns a line feed at each
/// call, without end.
#[derive(Drop)]
pub struct Endless {
    /// How many more times it is interrupted.
    pub interruptions: u32,
}

impl Read for Endless {
    fn read(&mut self, buf: &mut [u8]) -> io::Result<usize> {
        if self.interruptions > 0 {
            self.interruptions -= 1;
            return Err(io::ErrorKind::Interrupted.into());
        }
        let mut feed: &[u8] = b"\n";
        feed.read(buf)
    }
}
