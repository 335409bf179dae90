//! The header fields of a request, for whoever answers it.
ghost use Rattle.std.specs.Prelude.{◌≡◌, length, map, All, codes};
ghost use Rattle.std.specs.Char.{to_ascii_lowercase};
ghost use Rattle.std.specs.Option.{option_map};
ghost use Rattle.httparse.specs.Spans.{IsHeaderWithin, header_bytes};
ghost use Rattle.http_requests.specs.Conditions.{is_star, names_tag};
ghost use Rattle.http_requests.specs.Fields.{has_field, only_field};

use crate::conditions::some_names;
use crate::fields::{has_field, only_field};
use httparse::spans::HeaderSpan;
use std::marker::Model;

/// The header fields of a request: their names and values, without the white space around these.
#[derive(Drop)]
pub struct Fields<'a> {
    bytes: &'a [u8],
    spans: &'a [HeaderSpan],
}

impl<'a> Model for Fields<'a> {
    ghost use Rattle.std.specs.Prelude.{List, length, map, All};
    ghost use Rattle.httparse.specs.Spans.{IsHeaderWithin, header_bytes};
    ghost use Rattle.http_requests.specs.Fields.{NamedValue};

    ghost Value = { List NamedValue };

    ghost view = { λ f. map (header_bytes f.bytes.now) f.spans.now };

    ghost invariant = { λ f. All (IsHeaderWithin (length f.bytes.now)) f.spans.now };
}

impl<'a> Fields<'a> {
    /// The fields at these spans of the bytes.
    pub fn new(bytes: &'a [u8], spans: &'a [HeaderSpan]) -> Fields<'a>
        requires { All (IsHeaderWithin (length bytes.now)) spans.now }
        ensures { result ≡ map (header_bytes bytes.now) spans.now }
    {
        Fields { bytes, spans }
    }

    /// Whether there is a field named `word`, given in lower case.
    pub fn has(&self, word: &[u8]) -> bool
        requires { map to_ascii_lowercase word.now ≡ word.now }
        ensures { result ≡ has_field word.now self.now }
    {
        has_field(self.bytes, self.spans, word)
    }

    /// The value of the only field named `word`, given in lower case. `None` if there is none, or more than one.
    pub fn only(&self, word: &[u8]) -> Option<&'a [u8]>
        requires { map to_ascii_lowercase word.now ≡ word.now }
        ensures { option_map (λ value. value.now) result ≡ only_field word.now self.now }
    {
        match only_field(self.bytes, self.spans, word) {
            Some(value) => Some(value.of(self.bytes)),
            None => None,
        }
    }

    /// Whether there is one field named `word`, given in lower case, and its value is an asterisk.
    #[tactic(auto, unfolding(crate::specs::Conditions::is_star))]
    pub fn is_star(&self, word: &[u8]) -> bool
        requires { map to_ascii_lowercase word.now ≡ word.now }
        ensures { result ≡ is_star word.now self.now }
    {
        match self.only(word) {
            Some(value) => value == b"*".as_slice(),
            None => false,
        }
    }

    /// Whether the condition named `word`, `if-match` or `if-none-match`, names a resource with the strong `tag`, given as it is written with
    /// its quotation marks (or, where `weak` is true, a weak tag, given without its `W/`): it is an asterisk, or a list of tags, of which one
    /// is this one. Several fields of that name are one list (RFC 9110, 5.3). With `weak` the comparison is the weak one, which if-none-match
    /// asks for, and else the strong one, which if-match asks for (RFC 9110, 13.1.1 and 13.1.2). `false` if there is no such field.
    #[tactic(auto, unfolding(crate::specs::Conditions::names_tag))]
    pub fn names_tag(&self, word: &[u8], weak: bool, tag: &[u8]) -> bool
        requires { map to_ascii_lowercase word.now ≡ word.now }
        ensures { result ≡ names_tag weak tag.now word.now self.now }
    {
        self.is_star(word) || some_names(self.bytes, self.spans, weak, tag, word)
    }
}
