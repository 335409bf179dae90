//! Connections to a handler that echoes, with readers and writers that count and fail.
ghost use Rattle.std.specs.Prelude.{◌≡◌};
ghost use Rattle.http_serve.specs.Reply.{IsWhole};

mod clients;
mod costs;
mod faults;
mod fields;

use crate::streams::{Gives, Takes, take_from};
use http_serve::{
    Buffers, Content, ContentFault, ContentRange, EntityTag, Handler, Reply, Request, ServeFault,
    Served, Status, Tag, serve_with,
};
use std::alloc::{AllocError, Global};
use std::cell::Cell;
use std::io::{self, ErrorKind, Read, Write};

/// Serves a connection by `Echo`, in at most `turns` reads, with buffers of its own.
fn serve<R: Read, W: Write>(
    alloc: Global,
    reader: &mut R,
    writer: &mut W,
    turns: u64,
) -> Result<Served, ServeFault> {
    let mut buffers = Buffers::new(alloc);
    let served = serve_with(&mut buffers, reader, writer, &mut Echo { alloc }, turns);
    drop(buffers);
    served
}

/// Answers with the method and the path on a line, and the body.
#[derive(Drop)]
struct Echo {
    alloc: Global,
}

/// Puts the method and the path on a line, and the body behind it.
fn push_echo(text: &mut Vec<u8>, request: &Request<'_>) -> Result<(), AllocError> {
    text.extend_from_slice(request.method)?;
    text.extend_from_slice(b" ")?;
    text.extend_from_slice(request.path)?;
    text.extend_from_slice(b"\n")?;
    text.extend_from_slice(request.body)
}

impl Handler for Echo {
    ghost replies = { λ old _ _ new. new ≡ old };

    ghost sends = { λ _ _ _ _. ⊥ };

    ghost fails = { λ _ _ _ _. ⊥ };

    ghost size = { λ _. 0 };

    fn read_content(&mut self, _offset: u64, _part: &mut [u8]) -> Result<(), ContentFault> {
        Err(ContentFault)
    }

    fn answer(&mut self, request: &Request<'_>) -> Reply {
        echo_reply(self.alloc, request)
    }
}

fn echo_reply(alloc: Global, request: &Request<'_>) -> Reply
    ensures { IsWhole result }
{
    let range = request.fields.only(b"range");
    if range == Some(b"bytes=42-".as_slice()) {
        part_of_all()
    } else if range == Some(b"bytes=1234-".as_slice()) {
        outside_all()
    } else if request.path == b"/none".as_slice() {
        no_content()
    } else if is_known(alloc, request) {
        unchanged()
    } else {
        whole_reply(alloc, request)
    }
}

/// The echo as a reply, if there is memory for it.
fn whole_reply(alloc: Global, request: &Request<'_>) -> Reply
    ensures { IsWhole result }
{
    let mut text = Vec::new(alloc);
    match push_echo(&mut text, request) {
        Ok(()) => Reply::plain(Status::Ok, Some("text/plain"), Content::Whole(text)),
        Err(_) => Reply::plain(Status::ServiceUnavailable, None, Content::Empty),
    }
}

/// A reply whose content isn't sent.
fn no_content() -> Reply
    ensures { IsWhole result }
{
    let content = Content::Fixed(b"never sent");
    Reply::plain(Status::NoContent, Some("text/plain"), content)
}

/// The entity tag of 1,234 bytes.
const WHOLE: EntityTag = EntityTag {
    version: 3,
    change: 42,
    length: 1_234,
};

/// Whether the client has them already, by its field if-none-match.
fn is_known(alloc: Global, request: &Request<'_>) -> bool {
    match WHOLE.text(alloc) {
        Ok(tag) => request
            .fields
            .names_tag(b"if-none-match", true, tag.as_slice()),
        Err(_) => false,
    }
}

/// The reply for a client that has them. Of its content only the tag is sent.
fn unchanged() -> Reply
    ensures { IsWhole result }
{
    Reply::plain(
        Status::NotModified,
        Some("text/plain"),
        Content::Fixed(b"never sent"),
    )
    .ranged(ContentRange::Unsatisfied { total: 1_234 })
    .tagged(Some(Tag::Strong(WHOLE)))
}

/// A part of 1,234 bytes.
fn part_of_all() -> Reply
    ensures { IsWhole result }
{
    Reply::plain(Status::PartialContent, None, Content::Fixed(b"42"))
        .ranged(ContentRange::Part {
            first: 42,
            last: 43,
            total: 1_234,
        })
        .tagged(Some(Tag::Strong(WHOLE)))
}

/// No part of them.
fn outside_all() -> Reply
    ensures { IsWhole result }
{
    Reply::plain(
        Status::RangeNotSatisfiable,
        Some("text/plain"),
        Content::Empty,
    )
    .ranged(ContentRange::Unsatisfied { total: 1_234 })
    .allowing("GET, HEAD")
}

/// Gives its bytes one by one, and fails behind them. Counts the calls that failed.
#[derive(Clone, Copy)]
struct OneByOne<'a> {
    rest: &'a [u8],
    failed: usize,
}

impl Gives for OneByOne<'_> {
    fn give(&mut self, buf: &mut [u8]) -> io::Result<usize> {
        if self.rest.is_empty() {
            self.failed = self.failed.saturating_add(1);
            return Err(ErrorKind::ConnectionReset.into());
        }
        Ok(take_from(&mut self.rest, 1, buf))
    }
}

/// Counts the bytes that are written.
#[derive(Clone, Copy)]
struct Counter<'a> {
    got: &'a Cell<usize>,
}

impl Takes for Counter<'_> {
    fn take(&mut self, buf: &[u8]) -> io::Result<usize> {
        self.got.set(self.got.get().saturating_add(buf.len()));
        Ok(buf.len())
    }
}

const A: &str = "HTTP/1.1 200 OK\r\ncontent-type: text/plain\r\ncontent-length: 7\r\n\r\nGET /a\n";

const B: &str =
    "HTTP/1.1 200 OK\r\ncontent-type: text/plain\r\ncontent-length: 9\r\n\r\nPUT /b\nhi";

const TWO: &str =
    "GET /a HTTP/1.1\r\nhost: a\r\n\r\nPUT /b?c HTTP/1.1\r\nhost: a\r\nContent-Length: 002\r\n\r\nhi";
