//! The replies of the service.
ghost use Rattle.std.specs.Prelude.{◌≡◌, ◌≤◌, [], length, vec_capacity, IfOk, option_map};
ghost use Rattle.std.specs.Rc.{rc_slice_items};
ghost use Rattle.http_serve.specs.Reply.{content_bytes, reply_view, InParts, IsWhole};
ghost use Rattle.http_values.specs.Codes.{code_of};
ghost use Rattle.map_replies.specs.Words.{fault_word, service_word, edit_word, full_word, fault_status, service_status, edit_status};
ghost use Rattle.map_replies.specs.Words.{service_refusal, not_allowed_reply, json_reply, empty_reply, number_body, number_reply};
ghost use Rattle.map_replies.specs.Words.{outcome_reply, changed_word, changed_reply, next_word, not_next_reply, left_reply};
ghost use Rattle.map_replies.specs.Words.{published_body, published_reply, cancel_reply};
ghost use Rattle.map_replies.specs.Words.{format_type, format_content, content_reply, tile_reply, refusal_of};
ghost use Rattle.tile_routes.specs.Targets.{asked_of};
ghost use Rattle.map_replies.specs.Words.{text_type, json_type, tile_type, unheard_reply, with_tag, same_tile_reply};
ghost use Rattle.map_replies.specs.declared.replies.TheConstants.{MAX_TEXT};

use crate::fault::RequestFault;
use feature_model::EditFault;
use http_serve::{Content, Reply, Spelling, Status, Tag, WeakTag};
use http_values::{MAX_DIGITS, push_number, push_text};
use std::alloc::{AllocError, Global};
use std::rc::RcSlice;
use tile_routes::{Target, TileFormat};
use tile_service::{Published, ServiceFault};

/// Capacity for the longest text of an outcome: that of a publication, with three numbers.
const MAX_TEXT: usize = 3 * MAX_DIGITS + 35;

/// The word of a fault of an edit, with a line feed.
#[tactic(auto, unfolding(crate::specs::Words::edit_word))]
fn edit_word(fault: EditFault) -> &'static [u8]
    ensures { result.now ≡ edit_word fault }
{
    match fault {
        EditFault::Member => b"E1 Member\n",
        EditFault::Number => b"E2 Number\n",
        EditFault::Layer => b"E3 Layer\n",
        EditFault::Zoom => b"E4 Zoom\n",
        EditFault::Geometry => b"E5 Geometry\n",
        EditFault::Tags => b"E6 Tags\n",
        EditFault::Value => b"E7 Value\n",
        EditFault::Long => b"E8 Long\n",
        EditFault::Reach => b"E9 Reach\n",
        EditFault::Batch => b"E10 Batch\n",
        EditFault::Twice => b"E11 Twice\n",
        EditFault::Memory => b"Memory\n",
    }
}

/// The word of a full area or journal, with a line feed: its name, the sectors needed and the sectors free.
#[tactic(auto, unfolding(crate::specs::Words::full_word))]
fn full_word(text: Vec<u8>, name: &[u8], need: u64, free: u64) -> Vec<u8>
    requires name { length name.now ≤ 11 }
    requires empty { text.items ≡ [] }
    requires room { MAX_TEXT ≤ vec_capacity text }
    ensures { result.items ≡ full_word name.now need free }
{
    let mut text = text;
    push_text(&mut text, name);
    push_text(&mut text, b" need ");
    push_number(&mut text, need);
    push_text(&mut text, b" free ");
    push_number(&mut text, free);
    push_text(&mut text, b"\n");
    text
}

/// The word of a refusal by the service, with a line feed.
#[tactic(auto, unfolding(crate::specs::Words::service_word))]
fn service_word(text: Vec<u8>, fault: ServiceFault) -> Content
    requires empty { text.items ≡ [] }
    requires room { MAX_TEXT ≤ vec_capacity text }
    ensures word { content_bytes [] result ≡ service_word fault }
    ensures whole { InParts result ⊥ }
{
    match fault {
        ServiceFault::Broken => Content::Fixed(b"Broken\n"),
        ServiceFault::Busy => Content::Fixed(b"Busy\n"),
        ServiceFault::Idle => Content::Fixed(b"Idle\n"),
        ServiceFault::NeedsUpgrade => Content::Fixed(b"NeedsUpgrade\n"),
        ServiceFault::Limit(fault) => Content::Fixed(edit_word(fault)),
        ServiceFault::NotFound => Content::Fixed(b"NotFound\n"),
        ServiceFault::NumbersSpent => Content::Fixed(b"NumbersSpent\n"),
        ServiceFault::Memory => Content::Fixed(b"Memory\n"),
        ServiceFault::TooManyTiles => Content::Fixed(b"TooManyTiles\n"),
        ServiceFault::AreaFull { need, free } => Content::Whole(full_word(
            text,
            b"AreaFull",
            need,
            free,
        )),
        ServiceFault::JournalFull { need, free } => Content::Whole(full_word(
            text,
            b"JournalFull",
            need,
            free,
        )),
        ServiceFault::Device => Content::Fixed(b"Device\n"),
    }
}

/// The word of a fault, with a line feed.
#[tactic(auto, unfolding(crate::specs::Words::fault_word))]
fn fault_word(fault: RequestFault) -> &'static [u8]
    ensures { result.now ≡ fault_word fault }
{
    match fault {
        RequestFault::NotFound => b"NotFound\n",
        RequestFault::Json => b"Json\n",
        RequestFault::Edit(fault) => edit_word(fault),
        RequestFault::Condition => b"Condition\n",
        RequestFault::Digest => b"Digest\n",
        RequestFault::Gone => b"Gone\n",
        RequestFault::Memory => b"Memory\n",
        RequestFault::Device => b"Device\n",
        RequestFault::Damaged => b"Damaged\n",
    }
}

/// The status of a fault of an edit.
fn edit_status(fault: EditFault) -> Status
    ensures { code_of result ≡ edit_status fault }
{
    match fault {
        EditFault::Memory => Status::ServiceUnavailable,
        _ => Status::BadRequest,
    }
}

/// The status of a refusal by the service.
fn service_status(fault: ServiceFault) -> Status
    ensures { code_of result ≡ service_status fault }
{
    match fault {
        ServiceFault::Limit(fault) => edit_status(fault),
        ServiceFault::NotFound => Status::NotFound,
        ServiceFault::Memory => Status::ServiceUnavailable,
        ServiceFault::Busy | ServiceFault::Idle | ServiceFault::NeedsUpgrade => Status::Conflict,
        ServiceFault::TooManyTiles
        | ServiceFault::AreaFull { .. }
        | ServiceFault::JournalFull { .. } => Status::InsufficientStorage,
        ServiceFault::Broken | ServiceFault::NumbersSpent | ServiceFault::Device =>
            Status::InternalServerError,
    }
}

/// The status of a fault.
fn fault_status(fault: RequestFault) -> Status
    ensures { code_of result ≡ fault_status fault }
{
    match fault {
        RequestFault::NotFound => Status::NotFound,
        RequestFault::Json => Status::BadRequest,
        RequestFault::Edit(fault) => edit_status(fault),
        RequestFault::Condition => Status::PreconditionFailed,
        RequestFault::Digest => Status::Conflict,
        RequestFault::Gone => Status::Gone,
        RequestFault::Memory => Status::ServiceUnavailable,
        RequestFault::Device | RequestFault::Damaged => Status::InternalServerError,
    }
}

/// The reply that names a fault.
#[tactic(auto, unfolding(crate::specs::Words::text_type))]
pub(crate) fn refusal(fault: RequestFault) -> Reply
    ensures reply { reply_view [] result ≡ refusal_of fault }
    ensures writable { IsWhole result }
{
    Reply::plain(
        fault_status(fault),
        Some("text/plain"),
        Content::Fixed(fault_word(fault)),
    )
}

/// The reply that names a refusal by the service.
#[tactic(auto, unfolding(crate::specs::Words::text_type))]
fn service_refusal(text: Vec<u8>, fault: ServiceFault) -> Reply
    requires empty { text.items ≡ [] }
    requires room { MAX_TEXT ≤ vec_capacity text }
    ensures reply { reply_view [] result ≡ service_refusal fault }
    ensures writable { IsWhole result }
{
    Reply::plain(
        service_status(fault),
        Some("text/plain"),
        service_word(text, fault),
    )
}

/// The reply to a method that the path doesn't allow.
#[tactic(auto, unfolding(crate::specs::Words::text_type, crate::specs::Words::method_word), using(crate::proofs::Texts::allow_short))]
pub(crate) fn not_allowed(target: Target) -> Reply
    ensures reply { reply_view [] result ≡ not_allowed_reply (asked_of target) }
    ensures writable { IsWhole result }
{
    Reply::plain(
        Status::MethodNotAllowed,
        Some("text/plain"),
        Content::Fixed(b"Method\n"),
    )
    .allowing(target.allow())
}

/// The reply to an edit that isn't made because no standby would have it.
#[tactic(auto, unfolding(crate::specs::Words::text_type, crate::specs::Words::standby_word))]
pub(crate) fn no_standby() -> Reply
    ensures reply { reply_view [] result ≡ unheard_reply }
    ensures writable { IsWhole result }
{
    Reply::plain(
        Status::ServiceUnavailable,
        Some("text/plain"),
        Content::Fixed(b"Standby\n"),
    )
}

/// The reply with a text in JSON.
#[tactic(auto, unfolding(crate::specs::Words::json_type))]
pub(crate) fn json(text: Vec<u8>) -> Reply
    ensures reply { reply_view [] result ≡ json_reply text.items }
    ensures writable { IsWhole result }
{
    Reply::plain(Status::Ok, Some("application/json"), Content::Whole(text))
}

/// The reply with a text in JSON that others may hold as well.
#[tactic(auto, unfolding(crate::specs::Words::json_type))]
pub(crate) fn shared_json(text: RcSlice<u8>) -> Reply
    ensures reply { reply_view [] result ≡ json_reply (rc_slice_items text) }
    ensures writable { IsWhole result }
{
    Reply::plain(Status::Ok, Some("application/json"), Content::Shared(text))
}

/// The reply without content.
pub(crate) fn empty() -> Reply
    ensures reply { reply_view [] result ≡ empty_reply }
    ensures writable { IsWhole result }
{
    Reply::plain(Status::NoContent, None, Content::Empty)
}

/// Empty text with capacity for each outcome.
pub(crate) fn outcome_space(alloc: Global) -> Result<Vec<u8>, AllocError>
    ensures empty { IfOk result (λ text. text.items ≡ []) }
    ensures room { IfOk result (λ text. MAX_TEXT ≤ vec_capacity text) }
{
    Vec::with_capacity(alloc, MAX_TEXT)
}

/// The text of a JSON object with one number, which begins with `start`.
#[tactic(auto, unfolding(crate::specs::Words::number_body))]
fn number_body(text: Vec<u8>, start: &[u8], number: u64) -> Vec<u8>
    requires start { length start.now ≤ 8 }
    requires empty { text.items ≡ [] }
    requires room { MAX_TEXT ≤ vec_capacity text }
    ensures { result.items ≡ number_body start.now number }
{
    let mut text = text;
    push_text(&mut text, start);
    push_number(&mut text, number);
    push_text(&mut text, b"}");
    text
}

/// The reply with the outcome of a call that returns a number. It doesn't allocate.
fn number(text: Vec<u8>, start: &[u8], outcome: Result<u64, ServiceFault>) -> Reply
    requires start { length start.now ≤ 8 }
    requires empty { text.items ≡ [] }
    requires room { MAX_TEXT ≤ vec_capacity text }
    ensures reply { reply_view [] result ≡ number_reply start.now outcome }
    ensures writable { IsWhole result }
{
    match outcome {
        Ok(number) => json(number_body(text, start, number)),
        Err(fault) => service_refusal(text, fault),
    }
}

/// The reply with the outcome of an edit. It doesn't allocate: an edit that was made is always reported.
#[tactic(auto, unfolding(crate::specs::Words::edit_start))]
pub(crate) fn outcome(text: Vec<u8>, outcome: Result<u64, ServiceFault>) -> Reply
    requires empty { text.items ≡ [] }
    requires room { MAX_TEXT ≤ vec_capacity text }
    ensures reply { reply_view [] result ≡ outcome_reply outcome }
    ensures writable { IsWhole result }
{
    number(text, b"{\"edit\":", outcome)
}

/// The word of an edit of a number that has another feature than its author saw, with a line feed.
#[tactic(auto, unfolding(crate::specs::Words::changed_word))]
fn changed_word(text: Vec<u8>, id: u64) -> Vec<u8>
    requires empty { text.items ≡ [] }
    requires room { MAX_TEXT ≤ vec_capacity text }
    ensures { result.items ≡ changed_word id }
{
    let mut text = text;
    push_text(&mut text, b"Changed ");
    push_number(&mut text, id);
    push_text(&mut text, b"\n");
    text
}

/// The reply with that word. It doesn't allocate.
#[tactic(auto, unfolding(crate::specs::Words::text_type))]
pub(crate) fn changed(text: Vec<u8>, id: u64) -> Reply
    requires empty { text.items ≡ [] }
    requires room { MAX_TEXT ≤ vec_capacity text }
    ensures reply { reply_view [] result ≡ changed_reply id }
    ensures writable { IsWhole result }
{
    Reply::plain(
        Status::Conflict,
        Some("text/plain"),
        Content::Whole(changed_word(text, id)),
    )
}

/// The word of an edit that would get another number than it has to, with a line feed: the number that the next edit gets.
#[tactic(auto, unfolding(crate::specs::Words::next_word))]
fn next_word(text: Vec<u8>, next: u64) -> Vec<u8>
    requires empty { text.items ≡ [] }
    requires room { MAX_TEXT ≤ vec_capacity text }
    ensures { result.items ≡ next_word next }
{
    let mut text = text;
    push_text(&mut text, b"Next ");
    push_number(&mut text, next);
    push_text(&mut text, b"\n");
    text
}

/// The reply with that word, after the edit of number `last`, or with the refusal if the numbers are spent. It doesn't allocate.
#[tactic(auto, unfolding(crate::specs::Words::text_type))]
pub(crate) fn not_next(text: Vec<u8>, last: u64) -> Reply
    requires empty { text.items ≡ [] }
    requires room { MAX_TEXT ≤ vec_capacity text }
    ensures reply { reply_view [] result ≡ not_next_reply last }
    ensures writable { IsWhole result }
{
    if last == u64::MAX {
        return service_refusal(text, ServiceFault::NumbersSpent);
    }
    Reply::plain(
        Status::Conflict,
        Some("text/plain"),
        Content::Whole(next_word(text, last + 1)),
    )
}

/// The reply with the outcome of the beginning or a step of a publication. It doesn't allocate.
#[tactic(auto, unfolding(crate::specs::Words::left_start))]
pub(crate) fn left(text: Vec<u8>, outcome: Result<u64, ServiceFault>) -> Reply
    requires empty { text.items ≡ [] }
    requires room { MAX_TEXT ≤ vec_capacity text }
    ensures reply { reply_view [] result ≡ left_reply outcome }
    ensures writable { IsWhole result }
{
    number(text, b"{\"left\":", outcome)
}

/// The text with what was published.
#[tactic(auto, unfolding(crate::specs::Words::published_body))]
fn published_body(text: Vec<u8>, published: Published) -> Vec<u8>
    requires empty { text.items ≡ [] }
    requires room { MAX_TEXT ≤ vec_capacity text }
    ensures { result.items ≡ published_body published }
{
    let mut text = text;
    push_text(&mut text, b"{\"archive\":");
    push_number(&mut text, published.archive_len);
    push_text(&mut text, b",\"edits\":");
    push_number(&mut text, published.edits);
    push_text(&mut text, b",\"generation\":");
    push_number(&mut text, published.generation);
    push_text(&mut text, b"}");
    text
}

/// The reply with the outcome of a whole publication. It doesn't allocate.
pub(crate) fn published(text: Vec<u8>, outcome: Result<Published, ServiceFault>) -> Reply
    requires empty { text.items ≡ [] }
    requires room { MAX_TEXT ≤ vec_capacity text }
    ensures reply { reply_view [] result ≡ published_reply outcome }
    ensures writable { IsWhole result }
{
    match outcome {
        Ok(published) => json(published_body(text, published)),
        Err(fault) => service_refusal(text, fault),
    }
}

/// The reply with the outcome of a cancellation. It doesn't allocate.
pub(crate) fn cancelled(text: Vec<u8>, outcome: Result<(), ServiceFault>) -> Reply
    requires empty { text.items ≡ [] }
    requires room { MAX_TEXT ≤ vec_capacity text }
    ensures reply { reply_view [] result ≡ cancel_reply outcome }
    ensures writable { IsWhole result }
{
    match outcome {
        Ok(()) => empty(),
        Err(fault) => service_refusal(text, fault),
    }
}

/// The type of a tile's content.
#[tactic(auto, unfolding(crate::specs::Words::text_type, crate::specs::Words::tile_type))]
fn format_type(format: TileFormat) -> &'static str
    ensures kind { result.now ≡ format_type format }
    ensures short { length result.now ≤ 64 }
{
    match format {
        TileFormat::Mvt => "application/vnd.mapbox-vector-tile",
        TileFormat::Hex => "text/plain",
    }
}

/// The bytes of a tile as they are sent. Hex text is spelled part by part, so that a long one takes no turn for itself and no memory.
fn format_content(format: TileFormat, bytes: RcSlice<u8>) -> Result<Content, AllocError>
    ensures content { IfOk result (λ content. content_bytes [] content ≡ format_content format (rc_slice_items bytes)) }
    ensures whole { IfOk result (λ content. InParts content ⊥) }
{
    match format {
        TileFormat::Mvt => Ok(Content::Shared(bytes)),
        TileFormat::Hex => match Spelling::new(bytes) {
            Some(spelling) => Ok(Content::Spelled(spelling)),
            None => Err(AllocError),
        },
    }
}

/// The reply with the bytes of a tile.
fn some_tile(format: TileFormat, bytes: RcSlice<u8>) -> Result<Reply, AllocError>
    ensures reply { IfOk result (λ reply. reply_view [] reply ≡ tile_reply format (rc_slice_items bytes)) }
    ensures writable { IfOk result IsWhole }
{
    let kind = format_type(format);
    let content = format_content(format, bytes)?;
    Ok(Reply::plain(Status::Ok, Some(kind), content))
}

/// The reply with a tile, or 204 if the tile is empty.
pub(crate) fn tile(format: TileFormat, content: Option<RcSlice<u8>>) -> Result<Reply, AllocError>
    ensures reply { IfOk result (λ reply. reply_view [] reply ≡ content_reply format (option_map rc_slice_items content)) }
    ensures writable { IfOk result IsWhole }
{
    match content {
        None => Ok(empty()),
        Some(bytes) => some_tile(format, bytes),
    }
}

/// The same reply with the tag of a tile.
pub(crate) fn with_tag(reply: Reply, tag: WeakTag) -> Reply
    requires { IsWhole reply }
    ensures reply { reply_view [] result ≡ with_tag tag (reply_view [] reply) }
    ensures writable { IsWhole result }
{
    reply.tagged(Some(Tag::Weak(tag)))
}

/// The reply to a client that has the tile with this tag.
pub(crate) fn same_tile(tag: WeakTag) -> Reply
    ensures reply { reply_view [] result ≡ same_tile_reply tag }
    ensures writable { IsWhole result }
{
    with_tag(Reply::plain(Status::NotModified, None, Content::Empty), tag)
}
