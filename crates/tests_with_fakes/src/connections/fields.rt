//! Replies with every field that one may have, and two that have no content.
use super::serve;
use crate::wanted::same;
use http_serve::{End, MAX_READS, ServeFault, Served};
use std::alloc::Global;

const ASKED: &str = "GET /none?b HTTP/1.1\r\nhost: a\r\n\r\n\
    GET /a HTTP/1.1\r\nhost: a\r\nRange: \tbytes=42- \r\n\r\n\
    GET /a HTTP/1.1\r\nhost: a\r\nrange: bytes=42-\r\nRange: bytes=42-\r\n\r\n\
    GET /a HTTP/1.1\r\nhost: a\r\nIf-None-Match: \"1-2-3\"\r\nif-none-match: x,W/\"3-42-1234\"\r\n\r\n\
    GET /a HTTP/1.1\r\nhost: a\r\nIf-Match: \"3-42-1234\"\r\nIf-None-Match: \"3-42-123\"\r\n\r\n\
    GET /a HTTP/1.1\r\nhost: a\r\nrange: bytes=1234-\r\nconnection: close\r\n\r\n";

const TOLD: &str = "HTTP/1.1 204 No Content\r\n\r\n\
    HTTP/1.1 206 Partial Content\r\ncontent-range: bytes 42-43/1234\r\netag: \"3-42-1234\"\r\ncontent-length: 2\r\n\r\n42\
    HTTP/1.1 200 OK\r\ncontent-type: text/plain\r\ncontent-length: 7\r\n\r\nGET /a\n\
    HTTP/1.1 304 Not Modified\r\netag: \"3-42-1234\"\r\n\r\n\
    HTTP/1.1 200 OK\r\ncontent-type: text/plain\r\ncontent-length: 7\r\n\r\nGET /a\n\
    HTTP/1.1 416 Range Not Satisfiable\r\ncontent-type: text/plain\r\ncontent-range: bytes */1234\r\nallow: GET, HEAD\r\n\
    content-length: 0\r\nconnection: close\r\n\r\n";

const SIX: Served = Served {
    requests: 6,
    end: End::Asked,
};

/// Whether this is written, and what the connection comes to.
fn answered(alloc: Global) -> (bool, Result<Served, ServeFault>) {
    let mut out = Vec::new(alloc);
    let mut reader = ASKED.as_bytes();
    let served = serve(alloc, &mut reader, &mut out, MAX_READS);
    (out.as_slice() == TOLD.as_bytes(), served)
}

#[test]
fn replies_have_their_fields_in_order(rt: HostRuntime) {
    same(&rt, &answered(rt.alloc()), &(true, Ok(SIX)));
}
