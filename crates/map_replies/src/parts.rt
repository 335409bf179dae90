//! Parts of the published archive, and the replies with them.
ghost use Rattle.std.specs.Prelude.{◌≡◌, ◌≢◌, ◌<◌, false, ◌≤◌, ℕ, List, [], Option, option_map};
ghost use Rattle.http_serve.specs.Reply.{content_bytes, reply_view, head_view, HasShortWords, IsWhole};
ghost use Rattle.http_serve.specs.declared.replies.Tag.{Tag};
ghost use Rattle.tile_routes.specs.declared.method.Method.TheVariants.{Head};
ghost use Rattle.tile_service.specs.declared.fault.ServiceFault.TheVariants.{Device};
ghost use Rattle.tile_service.specs.declared.tickets.TheConstants.{FIRST_BYTES};
ghost use Rattle.map_replies.specs.Parts.{IsPart, octets_type, range_word, part_reply, unchanged_reply};
ghost use Rattle.map_replies.specs.Words.{text_type, service_refusal};

use http_serve::{Content, ContentRange, Reply, Status, Tag};
use http_values::byte_range;
use tile_routes::Method;
use tile_service::first_bytes;

/// The bytes of the archive to send.
#[derive(Clone, Copy)]
pub(crate) enum ArchiveRange {
    /// All of them.
    Whole,
    /// From `first` to `last` inclusive, counted from 0.
    Between { first: u64, last: u64 },
    /// The range starts after the last byte.
    Beyond,
}

/// Whether a method is HEAD, whose replies have no body.
pub(crate) fn is_head(method: Method) -> bool
    ensures { method ≢ Head → result ≡ false }
{
    matches!(method, Method::Head)
}

/// The part of `total` bytes that a range selects.
pub(crate) fn part_of(range: Option<&[u8]>, total: u64) -> ArchiveRange
    requires { 0 < total }
    ensures { IsPart (option_map (λ value. value.now) range.entry) total result }
{
    let Some(value) = range else {
        return ArchiveRange::Whole;
    };
    match byte_range(value) {
        None => ArchiveRange::Whole,
        Some(range) if range.first >= total => ArchiveRange::Beyond,
        Some(range) => ArchiveRange::Between {
            first: range.first,
            last: range.last.min(total - 1),
        },
    }
}

/// The bytes of the archive in a reply that is sent in parts.
#[derive(Clone, Copy)]
pub(crate) struct Sending {
    /// The first one, counted from 0.
    pub(crate) first: u64,
    /// How many there are.
    pub(crate) length: u64,
}

/// How many of `length` bytes from `first` on are read before a reply is made: those in the first sectors, or 0 if `bare`.
pub(crate) fn begin_size(first: u64, length: u64, bare: bool) -> u64
    ensures within { result ≤ length }
    ensures most { result ≤ FIRST_BYTES }
    ensures some { bare ≡ false → 0 < length → 0 < result }
{
    if bare {
        return 0;
    }
    first_bytes(first, length)
}

/// The reply with the whole archive, which has this tag.
#[tactic(auto, unfolding(crate::specs::Parts::octets_type))]
pub(crate) fn whole(tag: Option<Tag>, content: Content) -> Reply
    ensures reply { (total : ℕ) (bytes : List ℕ) → reply_view bytes result ≡ part_reply ArchiveRange.Whole total tag (content_bytes bytes content) }
    ensures content { result.content ≡ content }
    ensures words { HasShortWords (head_view result) }
{
    Reply::plain(Status::Ok, Some("application/octet-stream"), content).tagged(tag)
}

/// The reply with a part of the archive, which has so many bytes and this tag.
#[tactic(auto, unfolding(crate::specs::Parts::octets_type))]
pub(crate) fn between(
    first: u64,
    last: u64,
    total: u64,
    tag: Option<Tag>,
    content: Content,
) -> Reply
    ensures reply { (bytes : List ℕ) → reply_view bytes result ≡ part_reply (ArchiveRange.Between first last) total tag (content_bytes bytes content) }
    ensures content { result.content ≡ content }
    ensures words { HasShortWords (head_view result) }
{
    Reply::plain(
        Status::PartialContent,
        Some("application/octet-stream"),
        content,
    )
    .ranged(ContentRange::Part { first, last, total })
    .tagged(tag)
}

/// The reply to a range after the last byte.
#[tactic(auto, unfolding(crate::specs::Words::text_type, crate::specs::Parts::range_word))]
pub(crate) fn beyond(total: u64) -> Reply
    ensures reply { (tag : Option Tag) → reply_view [] result ≡ part_reply ArchiveRange.Beyond total tag [] }
    ensures writable { IsWhole result }
{
    Reply::plain(
        Status::RangeNotSatisfiable,
        Some("text/plain"),
        Content::Fixed(b"Range\n"),
    )
    .ranged(ContentRange::Unsatisfied { total })
}

/// The reply to a client that has the archive with this tag.
pub(crate) fn unchanged(tag: Option<Tag>) -> Reply
    ensures reply { reply_view [] result ≡ unchanged_reply tag }
    ensures writable { IsWhole result }
{
    Reply::plain(Status::NotModified, None, Content::Empty).tagged(tag)
}

/// The reply that the archive couldn't be read.
#[tactic(auto, unfolding(crate::specs::Words::text_type, crate::specs::Words::service_word))]
pub(crate) fn unread() -> Reply
    ensures reply { reply_view [] result ≡ service_refusal Device }
    ensures writable { IsWhole result }
{
    Reply::plain(
        Status::InternalServerError,
        Some("text/plain"),
        Content::Fixed(b"Device\n"),
    )
}
