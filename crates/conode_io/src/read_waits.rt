//! Whether a read could wait for more bytes.

ghost use Rattle.std.specs.Prelude.{◌≡◌, Bool, true, ◌==◌, length};
ghost use Rattle.std.specs.Io.Buffered.{reader_buffer};

use std::io::{BufReader, Read};

/// Says of a reader whether its next read could wait.
pub trait Waits<R> {
    ghost waits: { R → Bool };

    /// Whether the next read of this reader could wait.
    fn could_wait(reader: &R) -> bool
        ensures { result ≡ waits reader.now };
}

/// Each read could wait: nothing is known of the reader.
pub struct AnyRead;

/// A read could wait only if the buffer of the reader is empty.
pub struct BufferedRead;

impl<R: Read> Waits<R> for AnyRead {
    ghost waits = { λ _. true };

    fn could_wait(_reader: &R) -> bool {
        true
    }
}

impl<R: Read> Waits<BufReader<R>> for BufferedRead {
    ghost waits = { λ reader. length (reader_buffer reader) == 0 };

    fn could_wait(reader: &BufReader<R>) -> bool {
        reader.buffer().is_empty()
    }
}
