//! Tags in the bytes of a text.

ghost use Rattle.std.specs.Prelude.{IsTrue};
ghost use Rattle.edit_text.specs.Trusted.{each_in, tag_in, have_texts};

use crate::trusted_numbers::{byte_in, number_in};
use crate::trusted_texts::{long_text_in, name_in};
use feature_model::{FALSE_KIND, NATURAL_KIND, NEGATIVE_KIND, TEXT_KIND};

/// The value of a tag.
#[derive(Clone, Copy)]
pub enum ValueText<'a> {
    Text(&'a str),
    Natural(u64),
    /// A number below 0.
    Negative(i64),
    Truth(bool),
}

/// A key and its value.
#[derive(Clone, Copy)]
pub struct TagText<'a> {
    pub key: &'a str,
    pub value: ValueText<'a>,
}

impl<'a> ValueText<'a> {
    ghost use Rattle.std.specs.Prelude.{◌≡◌, ℕ};
    ghost use Rattle.edit_text.specs.Trusted.{value_of, value_in, has_text};
    ghost use Rattle.edit_text.specs.Views.{value_view};

    /// The value of this kind, and the bytes after it.
    #[tactic(auto, unfolding(crate::specs::Trusted::value_of))]
    fn of_kind(kind: u8, bytes: &'a [u8]) -> (Self, &'a [u8])
        requires { IsTrue (has_text (value_of kind bytes.now).0) }
        ensures value { value_view result.0 ≡ (value_of kind bytes.entry.now).0 }
        ensures rest { result.1.now ≡ (value_of kind bytes.entry.now).1 }
    {
        match kind {
            TEXT_KIND => {
                let (text, rest) = long_text_in(bytes);
                (ValueText::Text(text), rest)
            }
            NATURAL_KIND => {
                let (number, rest) = number_in(bytes);
                (ValueText::Natural(number), rest)
            }
            NEGATIVE_KIND => {
                let (bits, rest) = number_in(bytes);
                (ValueText::Negative(bits.cast_signed()), rest)
            }
            FALSE_KIND => (ValueText::Truth(false), bytes),
            _ => (ValueText::Truth(true), bytes),
        }
    }

    /// The value at the start of bytes, whose first one is its kind, and the bytes after it.
    #[tactic(auto, unfolding(crate::specs::Trusted::value_in))]
    fn front(bytes: &'a [u8]) -> (Self, &'a [u8])
        requires { IsTrue (has_text (value_in bytes.now).0) }
        ensures value { value_view result.0 ≡ (value_in bytes.entry.now).0 }
        ensures rest { result.1.now ≡ (value_in bytes.entry.now).1 }
    {
        let (kind, rest) = byte_in(bytes);
        ValueText::of_kind(kind, rest)
    }
}

impl<'a> TagText<'a> {
    ghost use Rattle.std.specs.Prelude.{◌≡◌, ℕ};
    ghost use Rattle.edit_text.specs.Trusted.{has_texts};
    ghost use Rattle.edit_text.specs.Views.{tag_view};

    /// The tag at the start of bytes, and the bytes after it.
    #[tactic(auto, unfolding(crate::specs::Trusted::tag_in))]
    fn front(bytes: &'a [u8]) -> (Self, &'a [u8])
        requires { IsTrue (has_texts (tag_in bytes.now).0) }
        ensures tag { tag_view result.0 ≡ (tag_in bytes.entry.now).0 }
        ensures rest { result.1.now ≡ (tag_in bytes.entry.now).1 }
    {
        let (key, rest) = name_in(bytes);
        let (value, rest) = ValueText::front(rest);
        (TagText { key, value }, rest)
    }
}

/// Tags, with strictly ascending keys. Their texts are UTF-8, so that none is tested again.
#[derive(Clone, Copy)]
pub struct Tags<'a> {
    count: u8,
    rest: &'a [u8],
    ghost texts: { IsTrue (have_texts (each_in tag_in count rest.now).0) },
}

impl<'a> Tags<'a> {
    ghost use Rattle.std.specs.Prelude.{◌≡◌, ℕ, length, All};
    ghost use Rattle.feature_model.specs.Types.{TagFitsTypes};
    ghost use Rattle.edit_text.specs.Trusted.{tags_in};
    ghost use Rattle.edit_text.specs.Views.{tags_view};

    /// The tags at the start.
    #[tactic(auto, unfolding(crate::specs::Trusted::tags_in))]
    pub(crate) fn front(bytes: &'a [u8]) -> Self
        requires { All TagFitsTypes (tags_in bytes.now).0 }
        ensures { tags_view result ≡ (tags_in bytes.entry.now).0 }
    {
        let (count, rest) = byte_in(bytes);
        Tags { count, rest }
    }

    /// How many tags there are.
    pub fn len(&self) -> usize
        ensures { result ≡ length (tags_view self.now) }
    {
        usize::from(self.count)
    }
}

impl<'a> Iterator for Tags<'a> {
    type Item = TagText<'a>;

    ghost use Rattle.std.specs.Iterator.{YieldsFirstBy, item_count};
    ghost use Rattle.edit_text.specs.Views.{tag_view, tags_view};

    ghost next_gives = { YieldsFirstBy tag_view tags_view };

    ghost remaining = { item_count tags_view };

    fn next(&mut self) -> Option<TagText<'a>> {
        if self.count == 0 {
            return None;
        }
        let (tag, rest) = TagText::front(self.rest);
        self.count -= 1;
        self.rest = rest;
        Some(tag)
    }
}
