//! Conditions on entity tags (RFC 9110, 13.1).
ghost use Rattle.std.specs.Prelude.{◌≡◌, length, map, All};
ghost use Rattle.std.specs.Char.{to_ascii_lowercase};
ghost use Rattle.httparse.specs.Spans.{IsHeaderWithin, header_bytes};
ghost use Rattle.http_requests.specs.Conditions.{opaque_tag, is_tag, lists_tag, some_names};

use crate::fields::{is_word, split_member};
use httparse::spans::HeaderSpan;

/// What is quoted in an entity tag, with its quotation marks.
fn opaque_tag(text: &[u8]) -> &[u8]
    ensures { result.now ≡ opaque_tag text.now }
{
    match text.split_at_checked(2) {
        Some((front, rest)) if front == b"W/".as_slice() => rest,
        _ => text,
    }
}

/// Whether a text is the strong `tag`, or, if `weak`, a tag with the same opaque tag.
fn is_tag(weak: bool, tag: &[u8], text: &[u8]) -> bool
    ensures { result ≡ is_tag weak tag.now text.now }
{
    if weak {
        opaque_tag(text) == tag
    } else {
        text == tag
    }
}

/// Whether the strong `tag` is one of a list.
fn lists_tag(weak: bool, tag: &[u8], list: &[u8]) -> bool
    ensures { result ≡ lists_tag weak tag.now list.now }
{
    let mut rest = list;
    loop {
        let (text, more) = split_member(rest);
        if is_tag(weak, tag, text) {
            return true;
        }
        match more {
            Some(list) => rest = list,
            None => return false,
        }
    }
}

/// Whether some field named `word`, given in lower case, lists the tag.
pub(crate) fn some_names(
    bytes: &[u8],
    fields: &[HeaderSpan],
    weak: bool,
    tag: &[u8],
    word: &[u8],
) -> bool
    requires fields { All (IsHeaderWithin (length bytes.now)) fields.now }
    requires word { map to_ascii_lowercase word.now ≡ word.now }
    ensures { result ≡ some_names weak tag.now word.now (map (header_bytes bytes.now) fields.now) }
{
    for field in fields {
        if is_word(field.name.of(bytes), word) && lists_tag(weak, tag, field.value.of(bytes)) {
            return true;
        }
    }
    false
}
