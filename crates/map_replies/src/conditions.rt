//! What a request asks beside its path and its method, and what its conditions come to (RFC 9110, 13).
ghost use Rattle.std.specs.Prelude.{◌≡◌, IfOk, option_map};
ghost use Rattle.http_serve.specs.Tags.{tag_text, weak_text};
ghost use Rattle.map_replies.specs.Conditions.{ask_view, is_known, is_other, judged, needed, needed_by_fields, range_by, range_for, refuses};

use http_serve::{EntityTag, Fields, WeakTag};
use std::alloc::{AllocError, Global};
use tile_routes::Method;

/// What a request asks beside its path and its method: its header fields and its query; and the number that tags of tiles begin with, if replies have
/// entity tags. If they don't, fields that speak of tags are ignored.
#[derive(Clone, Copy)]
pub(crate) struct Ask<'a> {
    pub(crate) fields: &'a Fields<'a>,
    pub(crate) query: &'a [u8],
    pub(crate) tags: Option<u64>,
}

/// What the conditions of a request come to.
#[derive(Clone, Copy)]
pub(crate) enum Judged {
    /// They hold: what is asked for is sent.
    Holds,
    /// The client wants another archive than the published one.
    Fails,
    /// The client has the published archive.
    Unchanged,
}

/// What the conditions of a request want of the feature that it changes.
#[derive(Clone, Copy, PartialEq, Eq)]
pub enum Needed {
    /// Nothing.
    Free,
    /// That it is there.
    There,
    /// That it isn't.
    Absent,
    /// What no feature meets: that it has a tag, or that it is there and isn't.
    Unmet,
}

/// Whether if-match is there, and doesn't name the tag.
fn is_other(tag: &[u8], fields: &Fields<'_>) -> bool
    ensures { result ≡ is_other tag.now fields.now }
{
    fields.has(b"if-match") && !fields.names_tag(b"if-match", false, tag)
}

/// Whether if-none-match is there, and names the tag.
fn is_known(tag: &[u8], fields: &Fields<'_>) -> bool
    ensures { result ≡ is_known tag.now fields.now }
{
    fields.has(b"if-none-match") && fields.names_tag(b"if-none-match", true, tag)
}

/// Whether if-none-match is there, and names the tag of a tile. The only error is out of memory, and comes only if the field is there.
pub(crate) fn names_tile(
    alloc: Global,
    tag: WeakTag,
    fields: &Fields<'_>,
) -> Result<bool, AllocError>
    ensures { IfOk result (λ known. known ≡ is_known (weak_text tag) fields.now) }
{
    if !fields.has(b"if-none-match") {
        return Ok(false);
    }
    let tag = tag.text(alloc)?;
    Ok(is_known(&tag, fields))
}

/// What the conditions come to, for the archive with this tag. The only error is out of memory, and comes only if there is a condition.
pub(crate) fn judge(alloc: Global, tag: EntityTag, ask: Ask<'_>) -> Result<Judged, AllocError>
    ensures { IfOk result (λ j. j ≡ judged (tag_text tag) (ask_view ask.entry)) }
{
    if ask.tags.is_none() {
        return Ok(Judged::Holds);
    }
    if !ask.fields.has(b"if-match") && !ask.fields.has(b"if-none-match") {
        return Ok(Judged::Holds);
    }
    let tag = tag.text(alloc)?;
    if is_other(&tag, ask.fields) {
        return Ok(Judged::Fails);
    }
    if is_known(&tag, ask.fields) {
        return Ok(Judged::Unchanged);
    }
    Ok(Judged::Holds)
}

/// What conditions want that are there or not, each with an asterisk or not.
fn needed_by_fields(if_match: bool, if_none_match: bool, any: bool, none: bool) -> Needed
    ensures { result ≡ needed_by_fields if_match if_none_match any none }
{
    match (if_match, if_none_match) {
        (true, false) if any => Needed::There,
        (false, true) if none => Needed::Absent,
        (false, false) => Needed::Free,
        _ => Needed::Unmet,
    }
}

impl<'a> Ask<'a> {
    /// The value of the only field range, unless its condition isn't known to hold.
    fn range(self) -> Option<&'a [u8]>
        ensures { option_map (λ value. value.now) result ≡ range_by self.entry.tags self.entry.fields.now }
    {
        if self.tags.is_some() && self.fields.has(b"if-range") {
            return None;
        }
        self.fields.only(b"range")
    }

    /// The same, if the method is GET (RFC 9110, 14.2).
    pub(crate) fn range_for(self, method: Method) -> Option<&'a [u8]>
        ensures { option_map (λ value. value.now) result ≡ range_for method (ask_view self.entry) }
    {
        match method {
            Method::Get => self.range(),
            _ => None,
        }
    }

    /// Whether the conditions can't be met, so that a request with this method is refused at once.
    pub(crate) fn refuses(self, method: Method) -> bool
        ensures { result ≡ refuses (needed (ask_view self.entry)) method }
    {
        self.needed().refuses(method)
    }

    /// What the conditions want of the feature that the request changes.
    pub(crate) fn needed(self) -> Needed
        ensures { result ≡ needed (ask_view self.entry) }
    {
        if self.tags.is_none() {
            return Needed::Free;
        }
        let fields = self.fields;
        needed_by_fields(
            fields.has(b"if-match"),
            fields.has(b"if-none-match"),
            fields.is_star(b"if-match"),
            fields.is_star(b"if-none-match"),
        )
    }
}

impl Needed {
    /// Whether this can't be met, so that a request with this method is refused at once: by no feature, or by what an action changes, which
    /// is no single feature.
    fn refuses(self, method: Method) -> bool
        ensures { result ≡ refuses self method }
    {
        match (self, method) {
            (Needed::Free, _) | (_, Method::Get | Method::Head) => false,
            (_, Method::Post) => true,
            (Needed::Unmet, Method::Put | Method::Delete) => true,
            (Needed::There | Needed::Absent, Method::Put | Method::Delete) => false,
        }
    }
}
