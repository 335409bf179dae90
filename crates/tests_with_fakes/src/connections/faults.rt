//! Writes and allocations that fail.
use super::{A, Counter, TWO, serve};
use crate::streams::{FakeStream, Narrow};
use crate::wanted::same;
use http_serve::{End, MAX_READS, ServeFault, Served};
use std::alloc::Global;
use std::cell::Cell;

/// The replies to a request and to a line feed after it.
const WHOLE: &str =
    "HTTP/1.1 200 OK\r\ncontent-type: text/plain\r\ncontent-length: 7\r\n\r\nGET /a\n\
    HTTP/1.1 400 Bad Request\r\ncontent-type: text/plain\r\ncontent-length: 5\r\nconnection: close\r\n\r\nHead\n";

/// Whether a write that fails, or takes nothing, behind so many bytes is the only one that does, and leaves these bytes up to there.
fn leaves_prefix(alloc: Global, room: usize, fails: bool) -> bool {
    let mut writer = FakeStream {
        inner: Narrow {
            room,
            fails,
            failed: 0,
            taken: Vec::new(alloc),
        },
    };
    let mut reader = "GET /a HTTP/1.1\r\nhost: a\r\n\r\n\r\n".as_bytes();
    let fault = serve(alloc, &mut reader, &mut writer, MAX_READS);
    let requests = u64::from(room >= A.len());
    fault == Err(ServeFault::Write { requests })
        && writer.inner.taken.len() == room
        && WHOLE.as_bytes().starts_with(&writer.inner.taken)
        && writer.inner.failed == 1
}

/// Behind how many bytes it is first otherwise, if it is.
fn other_room(alloc: Global) -> Option<(bool, usize)> {
    for fails in [true, false] {
        for room in 0..WHOLE.len() {
            if !leaves_prefix(alloc, room, fails) {
                return Some((fails, room));
            }
        }
    }
    None
}

#[test]
fn a_write_that_fails_leaves_a_prefix(rt: HostRuntime) {
    same(&rt, &other_room(rt.alloc()), &None);
}

/// What two requests come to, how many bytes are left, and how many are written.
fn answered(alloc: Global) -> (Result<Served, ServeFault>, usize, usize) {
    let got = Cell::new(0);
    let mut reader = TWO.as_bytes();
    let mut writer = FakeStream {
        inner: Counter { got: &got },
    };
    let told = serve(alloc, &mut reader, &mut writer, MAX_READS);
    (told, reader.len(), got.get())
}

const BOTH: Served = Served {
    requests: 2,
    end: End::Closed,
};

/// Run with each request for memory refused in turn: nothing is read or written without memory.
#[test]
fn memory_is_asked_for_before_the_first_read(rt: HostRuntime) {
    let (told, left, written) = answered(rt.alloc());
    let none = told == Err(ServeFault::Memory) && left == TWO.len() && written == 0;
    same(&rt, &(none || told == Ok(BOTH)), &true);
}
