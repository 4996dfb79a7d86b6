//! Lines and a text from a reader that fails, or never ends.

use co_scripts::{Endless, Pieces};
use co_stream::{LineFault, LineReader, StreamFault, read_text};
use std::test::Fail;

/// The lines before a read that fails are there.
#[test]
fn a_read_fails(rt: HostRuntime) -> Result<(), Fail> {
    for calls in 0..9 {
        let mut reader = Pieces {
            text: b"ab\ncd\nef",
            size: 1,
            interruptions: 0,
            calls,
        };
        let mut lines = LineReader::new();
        for _ in 0..calls / 3 {
            assert!(rt; lines.next(&mut reader).is_ok_and(|line| line.is_some()));
        }
        assert_eq!(rt; lines.next(&mut reader), Err(LineFault::Read));
    }
    Ok(())
}

// Three line feeds, and then no more reads.
#[test]
fn lines_without_end(rt: HostRuntime) -> Result<(), Fail> {
    let mut reader = Endless {
        interruptions: 16_777_213,
    };
    let mut lines = LineReader::new();
    for _ in 0..3 {
        assert!(rt; lines.next(&mut reader).is_ok_and(|line| line.is_some()));
    }
    assert_eq!(rt; lines.next(&mut reader), Err(LineFault::NeverEnds));
    Ok(())
}

#[test]
fn a_text_without_end(rt: HostRuntime) -> Result<(), Fail> {
    let mut text = Vec::new(rt.alloc());
    let mut reader = Endless {
        interruptions: 16_777_213,
    };
    assert_eq!(rt;
        read_text(&mut reader, &mut text),
        Err(StreamFault::NeverEnds)
    );
    assert_eq!(rt; text.as_slice(), b"\n\n\n".as_slice());
    Ok(())
}
