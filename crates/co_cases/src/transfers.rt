//! Whole transfers between a client and a channel.

use crate::channel::{Device, device_of};
use co_frame::{Ids, Outbox};
use co_scripts::{answered, begun, frame_of};
use co_sdo_client::{Client, ClientState, Mode};
use co_value::Key;
use std::test::Fail;

// The identifiers of the channel.
const IDS: Ids = Ids {
    request: 0x605,
    answer: 0x585,
};

// The entry that is transferred: a DOMAIN.
const KEY: Key = Key {
    index: 0x2100,
    sub: 0,
};

// Hands each request to the server and each of its answers to the client, in their order, until
// none is left. A client sends requests at no more than one answer of a batch, so the last ones it
// sent are all that wait.
fn runs(client: &mut Client, server: &mut Device) {
    let mut requests = begun(client);
    for _ in 0..20_000 {
        if requests.is_empty() {
            return;
        }
        let mut next = Outbox::new();
        for request in requests.iter() {
            for answer in server.take(request).iter() {
                let sent = answered(client, answer);
                if !sent.is_empty() {
                    next = sent;
                }
            }
        }
        requests = next;
    }
}

// The pattern of the bytes: they differ from segment to segment, and from sub-block to sub-block.
const DIGITS: &[u8; 10] = b"0123456789";

const MODES: [Mode; 3] = [Mode::Plain, Mode::Segmented, Mode::Block];

// How many bytes, and how many frames the client of an upload sends: plain, segmented, in blocks.
const UPLOADS: &str = "\
0 2 2 4
1 1 1 4
4 1 1 4
5 2 2 4
7 2 2 4
8 3 3 4
14 3 3 4
889 128 128 4
890 129 129 5
65535 9364 9364 77
";

#[test]
fn uploads(rt: HostRuntime) -> Result<(), Fail> {
    let all = DIGITS.repeat(rt.alloc(), 6554)?;
    for line in UPLOADS.lines() {
        let mut words = line.split_whitespace();
        let length: u16 = words.next().ok_or("no length")?.parse()?;
        let bytes = all.get(..usize::from(length)).ok_or("too few")?;
        for mode in MODES {
            let count: u64 = words.next().ok_or("no count")?.parse()?;
            let mut server = device_of(rt.alloc(), 65535, 65535)?;
            server.write(KEY.index, bytes)?;
            let mut client = Client::upload(rt.alloc(), IDS, KEY, length, mode, 65535)?;
            runs(&mut client, &mut server);
            assert!(rt; client.state() == ClientState::Done, "{line}");
            assert!(rt; client.sent() == count, "{line}");
            assert!(rt; client.result() == bytes, "{line}");
        }
    }
    Ok(())
}

// Hands all these requests to the server, and returns the last answers.
fn takes(server: &mut Device, requests: &Outbox) -> Outbox {
    let mut last = Outbox::new();
    for request in requests.iter() {
        last = server.take(request);
    }
    last
}

// The answers of the server to a block download of three sub-blocks; at `again` the client hears
// the last one once more, and the frames that it had sent are lost.
const LOST: &str = "\
585#A00021007F000000
585#A27F7F0000000000
again
585#A27F7F0000000000
585#A100000000000000
";

#[test]
fn block_lost_and_acknowledged_twice(rt: HostRuntime) -> Result<(), Fail> {
    let all = DIGITS.repeat(rt.alloc(), 267)?;
    let bytes = all.get(..2667).ok_or("too few")?;
    let mut server = device_of(rt.alloc(), 2667, 65535)?;
    let mut client = Client::download(IDS, KEY, bytes, Mode::Block, false, 0);
    let mut sent = begun(&mut client);
    let mut heard = Outbox::new();
    for word in LOST.lines() {
        if word != "again" {
            heard = takes(&mut server, &sent);
            assert!(rt; heard.as_slice() == [frame_of(word)?].as_slice(), "{word}");
        }
        for answer in heard.iter() {
            sent = answered(&mut client, answer);
        }
    }
    assert!(rt; client.state() == ClientState::Done && client.sent() == 383);
    let mut left = vec![in rt.alloc();]?;
    left.extend_from_slice(bytes.get(..889).ok_or("too few")?)?;
    left.extend_from_slice(bytes.get(1778..).ok_or("too few")?)?;
    assert!(rt; server.has(KEY.index, &left));
    Ok(())
}
