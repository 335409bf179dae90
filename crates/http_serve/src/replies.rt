//! Replies and their bytes.
ghost use Rattle.std.specs.Prelude.{◌≡◌, ◌≤◌, ◌<◌, ◌+◌, ◌*◌, ◌^◌, ◌++◌, length, vec_len, vec_capacity, IfOk, IfSome, Some, None, not, ◌||◌};
ghost use Rattle.std.specs.Option.{option_map};
ghost use Rattle.http_values.specs.Codes.{code_of};
ghost use Rattle.http_values.specs.declared.digits.TheConstants.{MAX_DIGITS};
ghost use Rattle.http_serve.specs.Parts.{front_content, lying_content};
ghost use Rattle.http_serve.specs.Reply.{HasShortWords, head_view, content_size, part_line, unsatisfied_line};
ghost use Rattle.http_serve.specs.Reply.{range_line, tag_line, tag_lines, word_line, length_line, closing_line, field_lines, reply_head, has_no_content};
ghost use Rattle.http_serve.specs.Tags.{tag_text, weak_text};
ghost use Rattle.http_serve.specs.declared.replies.TheConstants.{MAX_REPLY_HEAD, MAX_WORD};
ghost use Rattle.http_serve.specs.declared.tags.TheConstants.{MAX_TAG};

use crate::spellings::Spelling;
use crate::tags::{MAX_TAG, put_tag, put_tag_text, put_weak_text};
use http_values::{Status, push_number, push_text};
use std::alloc::{AllocError, Global};
use std::rc::RcSlice;

/// Maximum length in bytes of a content type and of a list of methods.
pub const MAX_WORD: usize = 64;

/// The most bytes that the head of a reply has.
pub(crate) const MAX_REPLY_HEAD: usize = 512;

/// The content of a reply.
#[derive(Drop)]
pub enum Content {
    /// No bytes.
    Empty,
    /// Static bytes.
    Fixed(&'static [u8]),
    /// Owned bytes.
    Whole(Vec<u8>),
    /// Bytes that others may hold as well, such as a cache.
    Shared(RcSlice<u8>),
    /// The same as hex text.
    Spelled(Spelling),
    /// `length` bytes that begin with `first`. The rest is read by `Handler::read_content`.
    Parts { first: Vec<u8>, length: u64 },
}

impl Content {
    /// The bytes held by the reply that lie together as they are sent.
    pub(crate) fn front(&self) -> &[u8]
        ensures { result.now ≡ lying_content self.now }
    {
        match self {
            Content::Empty | Content::Spelled(_) => b"",
            Content::Fixed(text) => text,
            Content::Whole(bytes) => bytes.as_slice(),
            Content::Shared(bytes) => bytes.as_slice(),
            Content::Parts { first, .. } => first.as_slice(),
        }
    }

    /// How many bytes it has of those that the reply holds, spelled or not.
    pub(crate) fn front_len(&self) -> usize
        ensures len { result ≡ length (front_content self.now) }
        ensures most { result < 2 ^ 63 }
    {
        match self {
            Content::Spelled(spelling) => spelling.digits(),
            whole => whole.front().len(),
        }
    }

    /// Its declared length in bytes.
    fn size(&self) -> u64
        ensures { result ≡ content_size self.now }
    {
        match self {
            Content::Parts { length, .. } => *length,
            whole => whole.front_len() as u64,
        }
    }
}

/// The byte range of a whole that a reply's content is (RFC 9110, 14.4).
#[derive(Clone, Copy)]
pub enum ContentRange {
    /// The bytes from `first` to `last`, counted from 0, of `total` in all.
    Part { first: u64, last: u64, total: u64 },
    /// No part: the whole has `total` bytes, and the requested ones aren't among them.
    Unsatisfied { total: u64 },
}

/// A strong entity tag: three numbers that together tell one state of a resource from another (RFC 9110, 8.8.3). It is sent as
/// `"VERSION-CHANGE-LENGTH"`.
#[derive(Clone, Copy)]
pub struct EntityTag {
    /// How often the resource was replaced.
    pub version: u64,
    /// The number of the last change in it.
    pub change: u64,
    /// Its length in bytes.
    pub length: u64,
}

impl EntityTag {
    /// The tag as it is sent, with its quotation marks. The only error: an allocation fails.
    pub fn text(self, alloc: Global) -> Result<Vec<u8>, AllocError>
        ensures { IfOk result (λ text. text.items ≡ tag_text self) }
    {
        let mut text = Vec::with_capacity(alloc, MAX_TAG)?;
        put_tag_text(&mut text, self);
        Ok(text)
    }
}

/// A weak entity tag: two numbers that tell states of a resource apart whose contents aren't equivalent (RFC 9110, 8.8.3). It is sent as
/// `W/"START-NUMBER"`.
#[derive(Clone, Copy)]
pub struct WeakTag {
    /// In which run of the server it was told.
    pub start: u64,
    /// The number of the state in that run.
    pub number: u64,
}

impl WeakTag {
    /// What is quoted in the tag, with its quotation marks: a weak comparison is by this. The only error: an allocation fails.
    pub fn text(self, alloc: Global) -> Result<Vec<u8>, AllocError>
        ensures { IfOk result (λ text. text.items ≡ weak_text self) }
    {
        let mut text = Vec::with_capacity(alloc, MAX_TAG)?;
        put_weak_text(&mut text, self);
        Ok(text)
    }
}

/// The entity tag of a reply.
#[derive(Clone, Copy)]
pub enum Tag {
    /// One that differs wherever the bytes do.
    Strong(EntityTag),
    /// One that differs wherever the contents aren't equivalent.
    Weak(WeakTag),
}

/// A reply to a request. A 204 or 304 reply is sent without its content, its type and its range.
#[derive(Drop)]
pub struct Reply {
    pub status: Status,
    /// The content type, such as `text/plain`: at most `MAX_WORD` bytes.
    pub kind: Option<&'static str>,
    /// Which part of a whole the content is.
    pub range: Option<ContentRange>,
    /// The entity tag of the whole.
    pub tag: Option<Tag>,
    /// The allowed methods, such as `GET, HEAD`: at most `MAX_WORD` bytes.
    pub allow: Option<&'static str>,
    pub content: Content,
}

impl Reply {
    /// A reply with only a status, a type and a content.
    pub fn plain(status: Status, kind: Option<&'static str>, content: Content) -> Reply
        ensures { result ≡ record { status = status; kind = kind.entry; range = None; tag = None; allow = None; content = content } }
    {
        Reply {
            status,
            kind,
            range: None,
            tag: None,
            allow: None,
            content,
        }
    }

    /// The same reply with this entity tag, if there is one.
    pub fn tagged(self, tag: Option<Tag>) -> Reply
        ensures { result ≡ record self { tag = tag } }
    {
        Reply { tag, ..self }
    }

    /// The same reply, whose content is this part of a whole.
    pub fn ranged(self, range: ContentRange) -> Reply
        ensures { result ≡ record self { range = Some range } }
    {
        Reply {
            range: Some(range),
            ..self
        }
    }

    /// The same reply, which tells the allowed methods.
    pub fn allowing(self, allow: &'static str) -> Reply
        ensures { result ≡ record self { allow = Some allow.entry } }
    {
        Reply {
            allow: Some(allow),
            ..self
        }
    }

    /// Whether it is 204 No Content or 304 Not Modified.
    fn has_no_content(&self) -> bool
        ensures { result ≡ has_no_content (code_of self.now.status) }
    {
        let code = self.status.code();
        code == Status::NoContent.code() || code == Status::NotModified.code()
    }

    /// Whether its content is sent. It isn't in a reply that is only a head.
    pub(crate) fn sends_content(&self, bare: bool) -> bool
        ensures { result ≡ not (bare || has_no_content (code_of self.now.status)) }
    {
        !(bare || self.has_no_content())
    }
}

/// The line that says that the connection ends, if it does.
#[tactic(auto, unfolding(crate::specs::Reply::closing_line))]
fn closing_line(close: bool) -> &'static [u8]
    ensures value { result.now ≡ closing_line close }
    ensures short { length result.now ≤ 19 }
{
    if close { b"connection: close\r\n" } else { b"" }
}

/// Adds the line of a part.
#[tactic(auto, unfolding(crate::specs::Reply::part_line))]
fn put_part_line(out: &mut Vec<u8>, first: u64, last: u64, total: u64)
    requires room { vec_len out.old + 3 * MAX_DIGITS + 25 ≤ vec_capacity out.old }
    ensures items { out.new.items ≡ out.old.items ++ part_line first last total }
    ensures len { vec_len out.new ≤ vec_len out.old + 3 * MAX_DIGITS + 25 }
    ensures capacity { vec_capacity out.old ≤ vec_capacity out.new }
{
    push_text(out, b"content-range: bytes ");
    push_number(out, first);
    push_text(out, b"-");
    push_number(out, last);
    push_text(out, b"/");
    push_number(out, total);
    push_text(out, b"\r\n");
}

/// Adds the line of an unsatisfied range.
#[tactic(auto, unfolding(crate::specs::Reply::unsatisfied_line))]
fn put_unsatisfied_line(out: &mut Vec<u8>, total: u64)
    requires room { vec_len out.old + MAX_DIGITS + 25 ≤ vec_capacity out.old }
    ensures items { out.new.items ≡ out.old.items ++ unsatisfied_line total }
    ensures len { vec_len out.new ≤ vec_len out.old + MAX_DIGITS + 25 }
    ensures capacity { vec_capacity out.old ≤ vec_capacity out.new }
{
    push_text(out, b"content-range: bytes */");
    push_number(out, total);
    push_text(out, b"\r\n");
}

/// Adds the line of the range, if there is one.
fn put_range_line(out: &mut Vec<u8>, range: Option<ContentRange>)
    requires room { vec_len out.old + 3 * MAX_DIGITS + 25 ≤ vec_capacity out.old }
    ensures items { out.new.items ≡ out.old.items ++ range_line range }
    ensures len { vec_len out.new ≤ vec_len out.old + 3 * MAX_DIGITS + 25 }
    ensures capacity { vec_capacity out.old ≤ vec_capacity out.new }
{
    match range {
        Some(ContentRange::Part { first, last, total }) => put_part_line(out, first, last, total),
        Some(ContentRange::Unsatisfied { total }) => put_unsatisfied_line(out, total),
        None => {}
    }
}

/// Adds the line of an entity tag.
#[tactic(auto, unfolding(crate::specs::Reply::tag_line))]
fn put_tag_line(out: &mut Vec<u8>, tag: Tag)
    requires room { vec_len out.old + MAX_TAG + 8 ≤ vec_capacity out.old }
    ensures items { out.new.items ≡ out.old.items ++ tag_line tag }
    ensures len { vec_len out.new ≤ vec_len out.old + MAX_TAG + 8 }
    ensures capacity { vec_capacity out.old ≤ vec_capacity out.new }
{
    push_text(out, b"etag: ");
    put_tag(out, tag);
    push_text(out, b"\r\n");
}

/// Adds the line of the entity tag, if there is one.
fn put_tag_lines(out: &mut Vec<u8>, tag: Option<Tag>)
    requires room { vec_len out.old + MAX_TAG + 8 ≤ vec_capacity out.old }
    ensures items { out.new.items ≡ out.old.items ++ tag_lines tag }
    ensures len { vec_len out.new ≤ vec_len out.old + MAX_TAG + 8 }
    ensures capacity { vec_capacity out.old ≤ vec_capacity out.new }
{
    match tag {
        Some(tag) => put_tag_line(out, tag),
        None => {}
    }
}

/// Adds the line of a field whose value is `word`, if there is one. `name` ends with a colon and a space.
#[tactic(auto, unfolding(crate::specs::Reply::word_line))]
fn put_word_line(out: &mut Vec<u8>, name: &[u8], word: Option<&str>)
    requires short { IfSome (option_map (λ word. word.now) word) (λ word. length word ≤ MAX_WORD) }
    requires room { vec_len out.old + 66 + length name.now ≤ vec_capacity out.old }
    ensures items { out.new.items ≡ out.old.items ++ word_line name.now (option_map (λ word. word.now) word.entry) }
    ensures len { vec_len out.new ≤ vec_len out.old + 66 + length name.now }
    ensures capacity { vec_capacity out.old ≤ vec_capacity out.new }
{
    let Some(word) = word else {
        return;
    };
    push_text(out, name);
    push_text(out, word.as_bytes());
    push_text(out, b"\r\n");
}

/// Adds the line of the length.
#[tactic(auto, unfolding(crate::specs::Reply::length_line))]
fn put_length_line(out: &mut Vec<u8>, size: u64)
    requires { vec_len out.old + MAX_DIGITS + 18 ≤ vec_capacity out.old }
    ensures items { out.new.items ≡ out.old.items ++ length_line size }
    ensures len { vec_len out.new ≤ vec_len out.old + MAX_DIGITS + 18 }
    ensures capacity { vec_capacity out.old ≤ vec_capacity out.new }
{
    push_text(out, b"content-length: ");
    push_number(out, size);
    push_text(out, b"\r\n");
}

/// Adds the lines of the fields.
#[tactic(auto, unfolding(crate::specs::Reply::type_name, crate::specs::Reply::allow_name))]
fn put_field_lines(out: &mut Vec<u8>, reply: &Reply)
    requires words { HasShortWords (head_view reply.now) }
    requires room { vec_len out.old + 4 * MAX_DIGITS + MAX_TAG + 204 ≤ vec_capacity out.old }
    ensures items { out.new.items ≡ out.old.items ++ field_lines (head_view reply.now) }
    ensures len { vec_len out.new ≤ vec_len out.old + 4 * MAX_DIGITS + MAX_TAG + 204 }
    ensures capacity { vec_capacity out.old ≤ vec_capacity out.new }
{
    if reply.has_no_content() {
        put_tag_lines(out, reply.tag);
        put_word_line(out, b"allow: ", reply.allow);
        return;
    }
    put_word_line(out, b"content-type: ", reply.kind);
    put_range_line(out, reply.range);
    put_tag_lines(out, reply.tag);
    put_word_line(out, b"allow: ", reply.allow);
    put_length_line(out, reply.content.size());
}

/// Makes the head of a reply, which has at most `MAX_REPLY_HEAD` bytes.
#[tactic(auto, unfolding(crate::specs::Reply::reply_head))]
pub(crate) fn put_reply_head(out: &mut Vec<u8>, reply: &Reply, close: bool)
    requires words { HasShortWords (head_view reply.now) }
    requires room { MAX_REPLY_HEAD ≤ vec_capacity out.old }
    ensures items { out.new.items ≡ reply_head close (head_view reply.now) }
    ensures short { vec_len out.new ≤ MAX_REPLY_HEAD }
    ensures some { 0 < vec_len out.new }
    ensures capacity { vec_capacity out.old ≤ vec_capacity out.new }
{
    out.clear();
    push_text(out, b"HTTP/1.1 ");
    push_number(out, u64::from(reply.status.code()));
    push_text(out, b" ");
    push_text(out, reply.status.phrase().as_bytes());
    push_text(out, b"\r\n");
    put_field_lines(out, reply);
    push_text(out, closing_line(close));
    push_text(out, b"\r\n");
}

/// The room for a reply of a connection whose buffers are reserved, in bytes: a content that fits there is copied behind its head, and one write has
/// both. Of a content that is spelled as much waits at a time.
pub(crate) const REPLY_SPACE: usize = 65_536;
