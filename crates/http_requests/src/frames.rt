//! The request that bytes begin with (RFC 9112, 2 to 6).
ghost use Rattle.std.specs.Prelude.{◌≡◌, ◌≤◌, ◌<◌, ◌==◌, ◌||◌, length, map, All};
ghost use Rattle.httparse.specs.Spans.{IsRequestWithin, IsRequestOf, IsHeaderWithin, header_bytes};
ghost use Rattle.http_requests.specs.Fields.{says_close};
ghost use Rattle.http_requests.specs.declared.frames.TheConstants.{MAX_HEAD, MAX_FIELDS};
ghost use Rattle.http_requests.specs.Frame.{IsNext};
ghost use Rattle.http_requests.specs.Requests.{is_head, path_of, query_of};

use crate::fields::{MAX_BODY, framing, position_or_len, says_close};
use crate::refusals::{NO_HEAD, Refusal, Rejection};
use httparse::Status;
use httparse::spans::{EMPTY_HEADER_SPAN, HeaderSpan, RequestSpans, Span, parse_request};

/// Maximum length of a head in bytes.
pub(crate) const MAX_HEAD: usize = 8_192;
/// Maximum number of fields in a head.
pub(crate) const MAX_FIELDS: usize = 32;
/// Maximum length of a request in bytes.
pub const MAX_REQUEST: usize = MAX_HEAD + MAX_BODY as usize;

/// Where the header fields of a request are in the bytes that begin with it.
pub type FieldSpans = [HeaderSpan; MAX_FIELDS];

/// Spans of no fields.
pub const NO_FIELDS: FieldSpans = [EMPTY_HEADER_SPAN; MAX_FIELDS];

/// Where the other parts of a request are in the bytes that begin with it.
#[derive(Clone, Copy)]
pub struct Frame {
    pub method: Span,
    /// The target, as received.
    pub target: Span,
    /// How many header fields there are.
    pub fields: usize,
    /// The body: the request ends where it does.
    pub body: Span,
    /// Whether the request asks to close the connection.
    pub close: bool,
}

/// What is known if no request is complete.
#[derive(Clone, Copy)]
pub struct Missing {
    /// Why there is no request, if nothing follows.
    pub rejection: Rejection,
    /// With fewer bytes in all, no request is complete.
    pub until: usize,
}

/// What bytes begin with.
#[derive(Clone, Copy)]
pub enum Next {
    /// A request.
    Whole(Frame),
    /// No request, whatever follows.
    Refused(Rejection),
    /// No whole request so far.
    More(Missing),
}

/// What no bytes begin with.
pub const NO_BYTES: Next = Next::More(Missing {
    rejection: NO_HEAD,
    until: 1,
});

/// What bytes begin with. If it is a request, its header fields are at the first `fields`.
pub(crate) fn find_request(bytes: &[u8], fields: &mut FieldSpans) -> Next
    ensures { IsNext bytes.now fields.new result }
{
    let rejection = NO_HEAD;
    if bytes.is_empty() {
        return NO_BYTES;
    }
    let full = bytes.len() >= MAX_HEAD;
    match parse_request(bytes, fields) {
        Ok(Status::Complete(head)) if head.len > MAX_HEAD => Next::Refused(rejection),
        Ok(Status::Complete(head)) => framed(bytes, &head, fields),
        Ok(Status::Partial) if full => Next::Refused(rejection),
        Ok(Status::Partial) => Next::More(Missing {
            rejection,
            until: bytes.len() + 1,
        }),
        Err(_) => Next::Refused(rejection),
    }
}

/// Whether a request is HTTP/1.0 or its fields ask to close the connection.
fn asks_to_close(bytes: &[u8], version: u8, fields: &[HeaderSpan]) -> bool
    requires { All (IsHeaderWithin (length bytes.now)) fields.now }
    ensures { result ≡ (version == 0 || says_close (map (header_bytes bytes.now) fields.now)) }
{
    version == 0 || says_close(bytes, fields)
}

/// Whether a method is HEAD, whose replies are only heads (RFC 9110, 9.3.2).
pub fn is_head(method: &[u8]) -> bool
    ensures { result ≡ is_head method.now }
{
    method == b"HEAD".as_slice()
}

/// A request's path: its target up to the first question mark.
pub fn path_of(target: &[u8]) -> &[u8]
    ensures { result.now ≡ path_of target.now }
{
    &target[..position_or_len(target, b'?')]
}

/// A request's query: what follows the first question mark of its target.
pub fn query_of(target: &[u8]) -> &[u8]
    ensures { result.now ≡ query_of target.now }
{
    let path = path_of(target);
    if path.len() >= target.len() {
        return &target[target.len()..];
    }
    &target[path.len() + 1..]
}

/// What bytes begin with, given their head.
fn framed(bytes: &[u8], head: &RequestSpans, fields: &[HeaderSpan]) -> Next
    requires within { IsRequestWithin bytes.now fields.now head.now }
    requires is { IsRequestOf bytes.now fields.now head.now }
    requires some { 0 < length bytes.now }
    requires size { head.now.len ≤ MAX_HEAD }
    requires room { length fields.now ≤ MAX_FIELDS }
    ensures { IsNext bytes.now fields.now result }
{
    let fields = &fields[..head.headers];
    let bare = is_head(head.method.of(bytes));
    let size = match framing(bytes, head.version, fields) {
        Ok(size) => size as usize,
        Err(refusal) => return Next::Refused(Rejection { refusal, bare }),
    };
    let end = head.len + size;
    if end > bytes.len() {
        let refusal = Refusal::Short;
        return Next::More(Missing {
            rejection: Rejection { refusal, bare },
            until: end,
        });
    }
    Next::Whole(Frame {
        method: head.method,
        target: head.path,
        fields: head.headers,
        body: Span {
            start: head.len,
            end,
        },
        close: asks_to_close(bytes, head.version, fields),
    })
}
