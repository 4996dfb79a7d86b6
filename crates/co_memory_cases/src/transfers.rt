//! SDO transfers at one end, each a whole dialogue: a channel over its own dictionary, and uploads
//! by a client.

use crate::LIMITS;
use crate::outcome::{Outcome, refused_if, right_if};
use co_dict_list::{BuildFault, ListStore};
use co_frame::{AbortCode, Ids};
use co_scripts::{
    BLOCK_UPLOAD, Served, TIMED_OUT, UPLOAD, UPLOAD_TOO_LONG, client_follows, server_follows,
};
use co_sdo_client::{Client, ClientState, Mode};
use co_sheet::Sheet;
use co_value::Key;
use std::alloc::Global;

// A download over this dictionary, which the channel aborts after 10 ms.
fn timed_out_over(alloc: Global, store: ListStore) -> Outcome {
    match Served::over(alloc, store, 10) {
        Ok(mut served) => right_if(server_follows(&mut served, TIMED_OUT) == Ok(4)),
        Err(_) => Outcome::Refused,
    }
}

pub(crate) fn timed_out(alloc: Global, sheet: &Sheet<'_>) -> Outcome {
    match ListStore::build(alloc, sheet, 5, &LIMITS) {
        Ok(store) => timed_out_over(alloc, store),
        Err(fault) => refused_if(fault == BuildFault::Memory),
    }
}

/// The arguments of an upload, its dialogue, and its end.
#[derive(Clone, Copy)]
struct Upload {
    mode: Mode,
    cap: u16,
    dialogue: &'static str,
    requests: u64,
    state: ClientState,
    result: &'static [u8],
}

// Whether a client follows the dialogue, and ends as it should.
fn is_shown(client: &mut Client<'_>, upload: &Upload) -> bool {
    client_follows(client, upload.dialogue) == Ok(upload.requests)
        && client.state() == upload.state
        && client.result() == upload.result
}

fn outcome_of(alloc: Global, upload: &Upload) -> Outcome {
    let ids = Ids {
        request: 0x605,
        answer: 0x585,
    };
    let key = Key {
        index: 0x2001,
        sub: 0,
    };
    match Client::upload(alloc, ids, key, upload.cap, upload.mode, 65_535) {
        Ok(mut client) => right_if(is_shown(&mut client, upload)),
        Err(_) => Outcome::Refused,
    }
}

// ten bytes, with a cap of ten
pub(crate) fn uploaded(alloc: Global) -> Outcome {
    let upload = Upload {
        mode: Mode::Segmented,
        cap: 10,
        dialogue: UPLOAD,
        requests: 3,
        state: ClientState::Done,
        result: b"0123456789",
    };
    outcome_of(alloc, &upload)
}

// ten bytes, with a cap of five
pub(crate) fn uploaded_too_long(alloc: Global) -> Outcome {
    let upload = Upload {
        mode: Mode::Segmented,
        cap: 5,
        dialogue: UPLOAD_TOO_LONG,
        requests: 2,
        state: ClientState::Failed(AbortCode(0x0504_0005)),
        result: b"",
    };
    outcome_of(alloc, &upload)
}

// fourteen bytes in blocks
pub(crate) fn uploaded_by_blocks(alloc: Global) -> Outcome {
    let upload = Upload {
        mode: Mode::Block,
        cap: 14,
        dialogue: BLOCK_UPLOAD,
        requests: 4,
        state: ClientState::Done,
        result: b"0123456789abcd",
    };
    outcome_of(alloc, &upload)
}
