//! Replies to bytes that are no request.
ghost use Rattle.std.specs.Prelude.{◌≡◌, codes, Some};
ghost use Rattle.http_serve.specs.Parts.{front_content};
ghost use Rattle.http_serve.specs.Reply.{HasShortWords, head_of, head_view, refusal_view, refused_by};
ghost use Rattle.http_values.specs.Codes.{code_of};

use crate::{Content, Reply};
use http_requests::Refusal;
use http_values::Status;

/// A reply of a status and a text.
fn refused_by(status: Status, text: &'static [u8]) -> Reply
    ensures head { head_view result ≡ head_of (refused_by (code_of status) text.now) }
    ensures content { front_content result.content ≡ text.now }
    ensures words { HasShortWords (head_view result) }
{
    Reply::plain(status, Some("text/plain"), Content::Fixed(text))
}

/// The reply sent for a refusal.
#[tactic(auto, unfolding(crate::specs::Reply::refusal_view))]
pub(crate) fn refusal_reply(refusal: Refusal) -> Reply
    ensures head { head_view result ≡ head_of (refusal_view refusal) }
    ensures content { front_content result.content ≡ (refusal_view refusal).content }
    ensures words { HasShortWords (head_view result) }
{
    match refusal {
        Refusal::Head => refused_by(Status::BadRequest, b"Head\n"),
        Refusal::Host => refused_by(Status::BadRequest, b"Host\n"),
        Refusal::Coding => refused_by(Status::NotImplemented, b"Coding\n"),
        Refusal::Expect => refused_by(Status::ExpectationFailed, b"Expect\n"),
        Refusal::Length => refused_by(Status::BadRequest, b"Length\n"),
        Refusal::Body => refused_by(Status::PayloadTooLarge, b"Body\n"),
        Refusal::Short => refused_by(Status::BadRequest, b"Short\n"),
    }
}
