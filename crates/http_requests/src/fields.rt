//! What the header fields say about the body and the connection (RFC 9110, 7.6.1, 8.6 and 10.1.1; RFC 9112, 3.2 and 6).
ghost use Rattle.std.specs.Prelude.{◌≡◌, ◌≤◌, ◌<◌, ◌&&◌, ◌||◌, ◌==◌, ◌^◌, ℕ, true, length, map, reverse, codes, All, IfSome, MatchOption};
ghost use Rattle.std.specs.List.{position, position_or_len};
ghost use Rattle.std.specs.Char.{to_ascii_lowercase};
ghost use Rattle.std.specs.Option.{option_map};
ghost use Rattle.httparse.specs.Spans.{IsHeaderWithin, IsWithin, header_bytes, span_bytes};
ghost use Rattle.httparse.specs.Grammar.{is_ows, skip_ows, trim_ows};
ghost use Rattle.http_requests.specs.Fields.{is_word, IsStated, values_of, limited, numeral_length, only_field};
ghost use Rattle.http_requests.specs.Fields.{members, members_from, lists_close, says_close};
ghost use Rattle.http_requests.specs.Fields.{body_length, has_field, is_hosted, framing};

use crate::refusals::Refusal;
use http_values::{are_digits, digits_number};
use httparse::spans::{HeaderSpan, Span};

/// Maximum length of a body in bytes.
pub(crate) const MAX_BODY: u64 = 65_536;

/// How often a field name occurs.
#[derive(Clone, Copy)]
pub(crate) enum Stated {
    /// There is no such field.
    Never,
    /// There is one, of this value.
    Once(Span),
    /// There are more.
    Often,
}

/// Whether a name equals the lower-case `word`, ignoring case.
pub(crate) fn is_word(name: &[u8], word: &[u8]) -> bool
    requires { map to_ascii_lowercase word.now ≡ word.now }
    ensures { result ≡ is_word word.now name.now }
{
    name.eq_ignore_ascii_case(word)
}

/// Finds the fields whose name is `word`, given in lower case.
fn find_stated(bytes: &[u8], fields: &[HeaderSpan], word: &[u8]) -> Stated
    requires fields { All (IsHeaderWithin (length bytes.now)) fields.now }
    requires word { map to_ascii_lowercase word.now ≡ word.now }
    ensures { IsStated bytes.now result (values_of word.now (map (header_bytes bytes.now) fields.now)) }
{
    let mut found = None;
    for field in fields {
        if is_word(field.name.of(bytes), word) {
            if found.is_some() {
                return Stated::Often;
            }
            found = Some(field.value);
        }
    }
    match found {
        None => Stated::Never,
        Some(value) => Stated::Once(value),
    }
}

/// The number, if at most `MAX_BODY`. `None` is 2^64 or more.
fn limited(number: Option<u64>) -> Result<u64, Refusal>
    ensures { (size : ℕ) → MatchOption number (2 ^ 64 ≤ size) (λ number. number ≡ size) → result ≡ limited size }
{
    match number {
        Some(size) if size <= MAX_BODY => Ok(size),
        _ => Err(Refusal::Body),
    }
}

/// The length that a content-length value states.
fn numeral_length(value: &[u8]) -> Result<u64, Refusal>
    ensures { result ≡ numeral_length value.now }
{
    if value.is_empty() || !are_digits(value) {
        return Err(Refusal::Length);
    }
    limited(digits_number(value))
}

/// The length of the body, by the content-length fields.
fn body_length(bytes: &[u8], fields: &[HeaderSpan]) -> Result<u64, Refusal>
    requires { All (IsHeaderWithin (length bytes.now)) fields.now }
    ensures { result ≡ body_length (map (header_bytes bytes.now) fields.now) }
{
    match find_stated(bytes, fields, b"content-length") {
        Stated::Never => Ok(0),
        Stated::Once(value) => numeral_length(value.of(bytes)),
        Stated::Often => Err(Refusal::Length),
    }
}

/// Whether there is a field named `word`, given in lower case.
pub(crate) fn has_field(bytes: &[u8], fields: &[HeaderSpan], word: &[u8]) -> bool
    requires fields { All (IsHeaderWithin (length bytes.now)) fields.now }
    requires word { map to_ascii_lowercase word.now ≡ word.now }
    ensures { result ≡ has_field word.now (map (header_bytes bytes.now) fields.now) }
{
    match find_stated(bytes, fields, word) {
        Stated::Never => false,
        _ => true,
    }
}

/// Whether a head has exactly one host field, which HTTP/1.0 doesn't ask for.
fn is_hosted(bytes: &[u8], version: u8, fields: &[HeaderSpan]) -> bool
    requires { All (IsHeaderWithin (length bytes.now)) fields.now }
    ensures { result ≡ is_hosted version (map (header_bytes bytes.now) fields.now) }
{
    match find_stated(bytes, fields, b"host") {
        Stated::Once(_) => true,
        _ => version == 0,
    }
}

/// The length of a request's body, or why its head is refused, by its version and its fields.
pub(crate) fn framing(bytes: &[u8], version: u8, fields: &[HeaderSpan]) -> Result<u64, Refusal>
    requires { All (IsHeaderWithin (length bytes.now)) fields.now }
    ensures { result ≡ framing version (map (header_bytes bytes.now) fields.now) }
{
    if !is_hosted(bytes, version, fields) {
        return Err(Refusal::Host);
    }
    if has_field(bytes, fields, b"transfer-encoding") {
        return Err(Refusal::Coding);
    }
    if has_field(bytes, fields, b"expect") {
        return Err(Refusal::Expect);
    }
    body_length(bytes, fields)
}

/// The value of the only field named `word`, given in lower case, without surrounding white space.
pub(crate) fn only_field(bytes: &[u8], fields: &[HeaderSpan], word: &[u8]) -> Option<Span>
    requires fields { All (IsHeaderWithin (length bytes.now)) fields.now }
    requires word { map to_ascii_lowercase word.now ≡ word.now }
    ensures value { option_map (span_bytes bytes.now) result ≡ only_field word.now (map (header_bytes bytes.now) fields.now) }
    ensures within { IfSome result (IsWithin (length bytes.now)) }
{
    match find_stated(bytes, fields, word) {
        Stated::Once(value) => Some(value),
        _ => None,
    }
}

/// Whether a field name is connection.
fn is_connection_name(name: &[u8]) -> bool
    ensures { result ≡ is_word (codes "connection") name.now }
{
    name.eq_ignore_ascii_case(b"connection")
}

/// Whether a byte is a space or a tab.
fn is_ows(byte: u8) -> bool
    ensures { result ≡ is_ows byte }
{
    byte == b' ' || byte == b'\t'
}

/// The index of the first byte of a value.
fn position_of(bytes: &[u8], wanted: u8) -> Option<usize>
    ensures { result ≡ position (λ byte. byte == wanted) bytes.now }
{
    bytes.iter().position(|byte| *byte == wanted)
}

/// The same, or the length if there is no such byte.
pub(crate) fn position_or_len(bytes: &[u8], wanted: u8) -> usize
    ensures index { result ≡ position_or_len (λ byte. byte == wanted) bytes.now }
    ensures within { result ≤ length bytes.now }
{
    match position_of(bytes, wanted) {
        Some(at) => at,
        None => bytes.len(),
    }
}

/// The bytes without the spaces and tabs in front.
fn trim_front(bytes: &[u8]) -> &[u8]
    ensures { result.now ≡ skip_ows bytes.now }
{
    let mut rest = bytes;
    while let [first, more @ ..] = rest {
        if !is_ows(*first) {
            return rest;
        }
        rest = more;
    }
    rest
}

/// The bytes without the spaces and tabs at the end.
fn trim_back(bytes: &[u8]) -> &[u8]
    ensures { result.now ≡ reverse (skip_ows (reverse bytes.now)) }
{
    let mut rest = bytes;
    while let [more @ .., last] = rest {
        if !is_ows(*last) {
            return rest;
        }
        rest = more;
    }
    rest
}

/// The bytes without the spaces and tabs at both ends.
#[tactic(auto, unfolding(httparse::specs::Grammar::trim_ows))]
fn trim_ows(bytes: &[u8]) -> &[u8]
    ensures { result.now ≡ trim_ows bytes.now }
{
    trim_back(trim_front(bytes))
}

/// The first member of a list, without the white space around it, and the list behind its comma, if there is one.
pub(crate) fn split_member(list: &[u8]) -> (&[u8], Option<&[u8]>)
    ensures members { members list.now ≡ members_from result.0.now (option_map (λ rest. rest.now) result.1) }
    ensures shorter { IfSome result.1 (λ rest. length rest.now < length list.now) }
{
    let at = position_or_len(list, b',');
    let member = trim_ows(&list[..at]);
    if at == list.len() {
        return (member, None);
    }
    (member, Some(&list[at + 1..]))
}

/// Whether a connection option is close.
fn is_close_option(option: &[u8]) -> bool
    ensures { result ≡ is_word (codes "close") option.now }
{
    option.eq_ignore_ascii_case(b"close")
}

/// Whether a connection value lists close.
fn lists_close(value: &[u8]) -> bool
    ensures { result ≡ lists_close value.now }
{
    let mut rest = value;
    loop {
        let (option, more) = split_member(rest);
        if is_close_option(option) {
            return true;
        }
        match more {
            Some(list) => rest = list,
            None => return false,
        }
    }
}

/// Whether the header fields ask to close the connection.
pub(crate) fn says_close(bytes: &[u8], fields: &[HeaderSpan]) -> bool
    requires { All (IsHeaderWithin (length bytes.now)) fields.now }
    ensures { result ≡ says_close (map (header_bytes bytes.now) fields.now) }
{
    for field in fields {
        if is_connection_name(field.name.of(bytes)) && lists_close(field.value.of(bytes)) {
            return true;
        }
    }
    false
}
