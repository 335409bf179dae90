//! Where tags at the start of bytes end, found without any memory.

ghost use Rattle.std.specs.Prelude.{◌≡◌, ℕ, ◌≤◌, []};
ghost use Rattle.std.specs.Ordering.{nat_cmp, is_lt};
ghost use Rattle.std.specs.Cmp.Lexicographic.{slice_cmp};
ghost use Rattle.reader.specs.Reading.{Reads};
ghost use Rattle.edit_text.specs.Checking.{Checks, next_key_at};
ghost use Rattle.edit_text.specs.Reading.{many_at, negative_at, value_behind, value_at, tag_at, tag_count_at, tags_at};

use crate::fault::TextFault;
use crate::fields::{read_byte, read_long_text, read_name, read_u64};
use feature_model::{
    FALSE_KIND, NATURAL_KIND, NEGATIVE_KIND, TEXT_KIND, TRUE_KIND, tag_count_fits,
};

/// The bits of a number below 0: the first of them is set.
#[tactic(auto, unfolding(crate::specs::Reading::negative_at))]
fn read_negative(bytes: &[u8]) -> Result<(u64, &[u8]), TextFault>
    ensures { Reads (λ r. (r.0, r.1.now)) result (negative_at bytes.now) }
{
    let (bits, rest) = read_u64(bytes)?;
    if bits < 1 << 63 {
        return Err(TextFault::Bad);
    }
    Ok((bits, rest))
}

/// The bytes after a value of this kind.
#[tactic(auto, unfolding(crate::specs::Reading::value_behind))]
fn check_value_of(kind: u8, bytes: &[u8]) -> Result<&[u8], TextFault>
    ensures { Checks (λ rest. rest.now) result (value_behind kind bytes.now) }
{
    match kind {
        TEXT_KIND => Ok(read_long_text(bytes)?.1),
        NATURAL_KIND => Ok(read_u64(bytes)?.1),
        NEGATIVE_KIND => Ok(read_negative(bytes)?.1),
        FALSE_KIND => Ok(bytes),
        TRUE_KIND => Ok(bytes),
        _ => Err(TextFault::Bad),
    }
}

/// The bytes after a kind and the value of it.
#[tactic(auto, unfolding(crate::specs::Reading::value_at))]
fn check_value(bytes: &[u8]) -> Result<&[u8], TextFault>
    ensures { Checks (λ rest. rest.now) result (value_at bytes.now) }
{
    let (kind, rest) = read_byte(bytes)?;
    check_value_of(kind, rest)
}

/// Whether a key comes before another, byte by byte.
fn is_before(key: &str, other: &str) -> bool
    ensures { result ≡ is_lt (slice_cmp nat_cmp key.now other.now) }
{
    key < other
}

/// A key after `last`.
#[tactic(auto, unfolding(crate::specs::Checking::next_key_at))]
fn read_next_key<'a>(last: &str, bytes: &'a [u8]) -> Result<(&'a str, &'a [u8]), TextFault>
    ensures { Reads (λ r. (r.0.now, r.1.now)) result (next_key_at last.now bytes.entry.now) }
{
    let (key, rest) = read_name(bytes)?;
    if !is_before(last, key) {
        return Err(TextFault::Bad);
    }
    Ok((key, rest))
}

/// The bytes after `count` tags.
fn check_each_tag(count: u8, bytes: &[u8]) -> Result<&[u8], TextFault>
    ensures { Checks (λ rest. rest.now) result (many_at tag_at count [] bytes.now) }
{
    let mut last = "";
    let mut rest = bytes;
    for _ in 0..count {
        let (key, value) = read_next_key(last, rest)?;
        rest = check_value(value)?;
        last = key;
    }
    Ok(rest)
}

/// How many tags there are: at most `MAX_TAGS`.
fn read_tag_count(bytes: &[u8]) -> Result<(u8, &[u8]), TextFault>
    ensures { Reads (λ r. (r.0, r.1.now)) result (tag_count_at bytes.now) }
{
    let (count, rest) = read_byte(bytes)?;
    if !tag_count_fits(usize::from(count)) {
        return Err(TextFault::Bad);
    }
    Ok((count, rest))
}

/// The bytes after at most `MAX_TAGS` tags, with strictly ascending keys.
#[tactic(auto, unfolding(crate::specs::Reading::tags_at))]
pub(crate) fn check_tags(bytes: &[u8]) -> Result<&[u8], TextFault>
    ensures { Checks (λ rest. rest.now) result (tags_at bytes.now) }
{
    let (count, rest) = read_tag_count(bytes)?;
    check_each_tag(count, rest)
}
