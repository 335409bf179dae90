//! A client that waits for its replies, and the bound on reads.
use super::{A, B, Counter, OneByOne, TWO, serve};
use crate::streams::{FakeStream, Gives, take_from};
use crate::wanted::same;
use http_serve::{End, MAX_READS, ServeFault, Served};
use std::alloc::Global;
use std::cell::Cell;
use std::io::{self, ErrorKind};

/// A client that sends its next bytes only once it has got so many bytes of replies.
#[derive(Clone, Copy)]
struct Client<'a> {
    steps: &'a [(&'a str, usize)],
    got: &'a Cell<usize>,
}

impl Gives for Client<'_> {
    fn give(&mut self, buf: &mut [u8]) -> io::Result<usize> {
        let steps = self.steps;
        let [(text, wants), rest @ ..] = steps else {
            return Ok(0);
        };
        if self.got.get() != *wants {
            return Err(ErrorKind::TimedOut.into());
        }
        self.steps = rest;
        let mut bytes = text.as_bytes();
        Ok(take_from(&mut bytes, usize::MAX, buf))
    }
}

/// What the client sends, and how many bytes of replies it has got then.
static STEPS: [(&str, usize); 14] = [
    ("GET /a HT", 0),
    ("TP/1.1\r\nhost: a\r\nx", 0),
    (": y\r\n", 0),
    ("\r", 0),
    ("\nPUT /b HTTP/1.1\r\nhost: a\r\ncontent-length: 2\r\n\r", 0),
    ("\n", A.len()),
    ("h", A.len()),
    ("iGET /a HTTP/1.1\nhost: a\n\r", A.len()),
    ("\n", A.len() + B.len()),
    ("\r\n", 2 * A.len() + B.len()),
    (
        "\nGET /a HTTP/1.1\nhost: a\n\nGET /a HTTP/1.1\nhost: a\n\nG",
        2 * A.len() + B.len(),
    ),
    ("ET /a HTTP/1.0\n", 4 * A.len() + B.len()),
    ("\nGET", 4 * A.len() + B.len()),
    ("never read", 0),
];

/// What is told to a client that takes these steps, and how many it leaves.
fn waited(alloc: Global, steps: &[(&str, usize)]) -> (Result<Served, ServeFault>, usize) {
    let got = Cell::new(0);
    let mut client = FakeStream {
        inner: Client { steps, got: &got },
    };
    let mut writer = FakeStream {
        inner: Counter { got: &got },
    };
    let served = serve(alloc, &mut client, &mut writer, MAX_READS);
    (served, client.inner.steps.len())
}

const SIX: Served = Served {
    requests: 6,
    end: End::Asked,
};

#[test]
fn a_client_that_waits_is_answered(rt: HostRuntime) {
    same(&rt, &waited(rt.alloc(), &STEPS), &(Ok(SIX), 1));
}

/// How many bytes are read one by one, and how many requests are answered.
static TURNS: [(u64, u64); 5] = [(0, 0), (27, 0), (28, 1), (78, 1), (81, 2)];

/// Whether so many reads end with so many requests answered, leave the bytes behind, and none of them fails.
fn is_so(alloc: Global, turns: u64, requests: u64) -> bool {
    let mut out = Vec::new(alloc);
    let mut reader = FakeStream {
        inner: OneByOne {
            rest: TWO.as_bytes(),
            failed: 0,
        },
    };
    let served = serve(alloc, &mut reader, &mut out, turns);
    drop(out);
    let end = End::Turns;
    let left = (TWO.len() as u64).saturating_sub(turns);
    served == Ok(Served { requests, end })
        && reader.inner.rest.len() as u64 == left
        && reader.inner.failed == 0
}

/// Behind how many reads it is first otherwise, if it is.
fn other_turns(alloc: Global) -> Option<u64> {
    for (turns, requests) in &TURNS {
        if !is_so(alloc, *turns, *requests) {
            return Some(*turns);
        }
    }
    None
}

#[test]
fn stops_at_its_turns(rt: HostRuntime) {
    same(&rt, &other_turns(rt.alloc()), &None);
}
