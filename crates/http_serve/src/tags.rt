//! Entity tags (RFC 9110, 8.8.3).
ghost use Rattle.std.specs.Prelude.{◌≡◌, ◌≤◌, ◌+◌, ◌*◌, ◌++◌, vec_len, vec_capacity};
ghost use Rattle.http_values.specs.declared.digits.TheConstants.{MAX_DIGITS};
ghost use Rattle.http_serve.specs.Tags.{tag_text, weak_text, written_tag};
ghost use Rattle.http_serve.specs.declared.tags.TheConstants.{MAX_TAG};

use crate::replies::{EntityTag, Tag, WeakTag};
use http_values::{MAX_DIGITS, push_number, push_text};

/// The most bytes that an entity tag has.
pub(crate) const MAX_TAG: usize = 3 * MAX_DIGITS + 4;

/// Adds an entity tag, as it is written.
#[tactic(auto, unfolding(crate::specs::Tags::tag_text))]
pub(crate) fn put_tag_text(out: &mut Vec<u8>, tag: EntityTag)
    requires room { vec_len out.old + MAX_TAG ≤ vec_capacity out.old }
    ensures items { out.new.items ≡ out.old.items ++ tag_text tag }
    ensures len { vec_len out.new ≤ vec_len out.old + MAX_TAG }
    ensures capacity { vec_capacity out.old ≤ vec_capacity out.new }
{
    push_text(out, b"\"");
    push_number(out, tag.version);
    push_text(out, b"-");
    push_number(out, tag.change);
    push_text(out, b"-");
    push_number(out, tag.length);
    push_text(out, b"\"");
}

/// Adds what is quoted in a weak entity tag, with its quotation marks.
#[tactic(auto, unfolding(crate::specs::Tags::weak_text))]
pub(crate) fn put_weak_text(out: &mut Vec<u8>, tag: WeakTag)
    requires room { vec_len out.old + 2 * MAX_DIGITS + 3 ≤ vec_capacity out.old }
    ensures items { out.new.items ≡ out.old.items ++ weak_text tag }
    ensures len { vec_len out.new ≤ vec_len out.old + 2 * MAX_DIGITS + 3 }
    ensures capacity { vec_capacity out.old ≤ vec_capacity out.new }
{
    push_text(out, b"\"");
    push_number(out, tag.start);
    push_text(out, b"-");
    push_number(out, tag.number);
    push_text(out, b"\"");
}

/// Adds the entity tag of a reply, as it is written.
#[tactic(auto, unfolding(crate::specs::Tags::weak_mark))]
pub(crate) fn put_tag(out: &mut Vec<u8>, tag: Tag)
    requires room { vec_len out.old + MAX_TAG ≤ vec_capacity out.old }
    ensures items { out.new.items ≡ out.old.items ++ written_tag tag }
    ensures len { vec_len out.new ≤ vec_len out.old + MAX_TAG }
    ensures capacity { vec_capacity out.old ≤ vec_capacity out.new }
{
    match tag {
        Tag::Strong(tag) => put_tag_text(out, tag),
        Tag::Weak(tag) => {
            push_text(out, b"W/");
            put_weak_text(out, tag);
        }
    }
}
