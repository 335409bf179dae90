//! The reply to a request, as what is to be sent and what is left of it.
ghost use Rattle.std.specs.Prelude.{◌≡◌, ◌≤◌, ◌<◌, [], ℕ, List, Option, All, None, length, take, IfSome};
ghost use Rattle.httparse.specs.Grammar.{RequestHead};
ghost use Rattle.httparse.specs.Spans.{IsHeaderWithin, IsWithin};
ghost use Rattle.http_requests.specs.Requests.{request_view_at, has_head_method};
ghost use Rattle.http_serve.specs.Connections.{Replied};
ghost use Rattle.http_serve.specs.Parts.{IsLeft, rest_bytes};
ghost use Rattle.http_serve.specs.Reply.{ReplyView, FitsParts, IsReply, InParts, HasShortWords, head_view, refusal_bytes};
ghost use Rattle.http_serve.specs.declared.replies.TheConstants.{MAX_REPLY_HEAD};

use crate::outputs::Output;
use crate::refusals::refusal_reply;
use crate::{Content, Handler, Moment, Preparation, Prepares, Reply, Request};
use http_requests::{FieldSpans, Fields, Frame, Rejection, is_head, path_of, query_of};

/// What of a reply's content isn't to be sent yet: it has `length` bytes, and these are those from the byte `from` on.
#[derive(Clone, Copy, Debug, PartialEq, Eq)]
pub struct Rest {
    /// The offset of its first byte.
    pub from: u64,
    /// The length of the whole content in bytes.
    pub length: u64,
}

/// The rest of a content of `length` bytes of which the first `from` are there.
fn rest_from(from: u64, length: u64) -> Option<Rest>
    ensures left { IfSome result (λ rest. (from < length) × (rest ≡ record { from = from; length = length })) }
    ensures none { result ≡ None → length ≤ from }
{
    if from < length {
        Some(Rest { from, length })
    } else {
        None
    }
}

/// The rest of a reply's content.
fn rest_of(reply: &Reply, bare: bool) -> Option<Rest>
    ensures left { IfSome result (λ rest. IsLeft bare reply.now rest.from rest.length) }
    ensures none { result ≡ None → (parts : List ℕ) → FitsParts parts reply.now.content → rest_bytes bare parts reply.now ≡ [] }
{
    if !reply.sends_content(bare) {
        return None;
    }
    match &reply.content {
        Content::Parts { first, length } => rest_from(first.len() as u64, *length),
        _ => None,
    }
}

/// The request at `frame` in `bytes`, whose header fields are at these spans.
fn request_at<'a>(bytes: &'a [u8], fields: &'a FieldSpans, frame: &Frame) -> Request<'a>
    requires method { IsWithin (length bytes.now) frame.now.method }
    requires target { IsWithin (length bytes.now) frame.now.target }
    requires body { IsWithin (length bytes.now) frame.now.body }
    requires fields { All (IsHeaderWithin (length bytes.now)) (take frame.now.fields fields.now) }
    requires few { frame.now.fields ≤ length fields.now }
    ensures { result ≡ request_view_at bytes.now fields.now frame.now }
{
    Request {
        method: frame.method.of(bytes),
        path: path_of(frame.target.of(bytes)),
        query: query_of(frame.target.of(bytes)),
        fields: Fields::new(bytes, &fields[..frame.fields]),
        body: frame.body.of(bytes),
        close: frame.close,
    }
}

/// Has a handler make the next step of the preparation of the reply to the request at `frame` in `bytes`, whose header fields are at these spans.
pub(crate) fn prepare_at<H: Prepares>(
    handler: &mut H,
    connection: u64,
    moment: Moment,
    bytes: &[u8],
    fields: &FieldSpans,
    frame: &Frame,
) -> Preparation
    requires method { IsWithin (length bytes.now) frame.now.method }
    requires target { IsWithin (length bytes.now) frame.now.target }
    requires body { IsWithin (length bytes.now) frame.now.body }
    requires fields { All (IsHeaderWithin (length bytes.now)) (take frame.now.fields fields.now) }
    requires few { frame.now.fields ≤ length fields.now }
    ensures { H.prepares handler.old connection (request_view_at bytes.now fields.now frame.now) handler.new }
{
    handler.prepare(connection, moment, &request_at(bytes, fields, frame))
}

/// Asks a handler for the reply to the request at `frame` in `bytes`, whose header fields are at these spans.
fn ask<H: Handler>(handler: &mut H, bytes: &[u8], fields: &FieldSpans, frame: &Frame) -> Reply
    requires method { IsWithin (length bytes.now) frame.now.method }
    requires target { IsWithin (length bytes.now) frame.now.target }
    requires body { IsWithin (length bytes.now) frame.now.body }
    requires fields { All (IsHeaderWithin (length bytes.now)) (take frame.now.fields fields.now) }
    requires few { frame.now.fields ≤ length fields.now }
    ensures replied { (reply : ReplyView) × IsReply result reply × H.replies handler.old (request_view_at bytes.now fields.now frame.now) reply handler.new
        × InParts result.content (H.sends handler.old (request_view_at bytes.now fields.now frame.now) reply handler.new
        × (H.size handler.new ≡ length reply.content)) }
    ensures writable { HasShortWords (head_view result) }
{
    handler.answer(&request_at(bytes, fields, frame))
}

/// Puts the reply to the request at `frame` in `bytes` into the output, and returns the rest of its content.
pub(crate) fn reply_in<H: Handler>(
    handler: &mut H,
    output: &mut Output,
    bytes: &[u8],
    fields: &FieldSpans,
    frame: &Frame,
) -> Option<Rest>
    requires method { IsWithin (length bytes.now) frame.now.method }
    requires target { IsWithin (length bytes.now) frame.now.target }
    requires body { IsWithin (length bytes.now) frame.now.body }
    requires fields { All (IsHeaderWithin (length bytes.now)) (take frame.now.fields fields.now) }
    requires few { frame.now.fields ≤ length fields.now }
    requires room { MAX_REPLY_HEAD ≤ output.old.capacity }
    ensures replied { Replied H.replies H.sends H.size handler.old bytes.now fields.now frame.now result handler.new output.new.waiting }
    ensures capacity { output.old.capacity ≤ output.new.capacity }
{
    let reply = ask(handler, bytes, fields, frame);
    let bare = is_head(frame.method.of(bytes));
    let rest = rest_of(&reply, bare);
    output.put(reply, frame.close, bare);
    rest
}

/// Puts the reply for a rejection into the output.
pub(crate) fn refuse_in(output: &mut Output, rejection: Rejection)
    requires room { MAX_REPLY_HEAD ≤ output.old.capacity }
    ensures refused { (head : Option RequestHead) → rejection.bare ≡ has_head_method head → output.new.waiting ≡ refusal_bytes head rejection.refusal }
    ensures capacity { output.old.capacity ≤ output.new.capacity }
{
    output.put(refusal_reply(rejection.refusal), true, rejection.bare);
}
