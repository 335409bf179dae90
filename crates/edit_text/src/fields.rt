//! Reads numbers and texts at the start of bytes, and returns each with the bytes after it.

ghost use Rattle.std.specs.Prelude.{◌≡◌, ℕ, ◌≤◌, length, IfOk, IfSome, IfNone, IsTrue, IsAscii};
ghost use Rattle.std.specs.Str.{IsUtf8};
ghost use Rattle.reader.specs.Reading.{Reads};
ghost use Rattle.edit_text.specs.Reading.{byte_at, front_at, two_at, four_at, eight_at, number_at, text_at, name_at, long_text_at};

use crate::fault::TextFault;
use byteorder::{ByteOrder, LittleEndian};
use feature_model::{MAX_NAME_BYTES, MAX_TEXT_BYTES, NUMBER_END};

/// One byte.
#[tactic(auto, unfolding(crate::specs::Reading::byte_at))]
pub(crate) fn read_byte(bytes: &[u8]) -> Result<(u8, &[u8]), TextFault>
    ensures { Reads (λ r. (r.0, r.1.now)) result (byte_at bytes.now) }
{
    match bytes {
        [first, rest @ ..] => Ok((*first, rest)),
        [] => Err(TextFault::Cut),
    }
}

/// `len` bytes.
#[tactic(auto, unfolding(crate::specs::Reading::front_at))]
fn read_front(bytes: &[u8], len: usize) -> Result<(&[u8], &[u8]), TextFault>
    ensures exact { Reads (λ r. (r.0.now, r.1.now)) result (front_at len bytes.now) }
    ensures len { IfOk result (λ r. length r.0.now ≡ len) }
{
    if bytes.len() < len {
        return Err(TextFault::Cut);
    }
    Ok(bytes.split_at(len))
}

/// A number in two bytes, the lowest first.
#[tactic(auto, unfolding(crate::specs::Reading::two_at))]
pub(crate) fn read_u16(bytes: &[u8]) -> Result<(u16, &[u8]), TextFault>
    ensures { Reads (λ r. (r.0, r.1.now)) result (two_at bytes.now) }
{
    let (front, rest) = read_front(bytes, 2)?;
    Ok((LittleEndian::read_u16(front), rest))
}

/// A number in four bytes, the lowest first.
#[tactic(auto, unfolding(crate::specs::Reading::four_at))]
pub(crate) fn read_u32(bytes: &[u8]) -> Result<(u32, &[u8]), TextFault>
    ensures { Reads (λ r. (r.0, r.1.now)) result (four_at bytes.now) }
{
    let (front, rest) = read_front(bytes, 4)?;
    Ok((LittleEndian::read_u32(front), rest))
}

/// A number in eight bytes, the lowest first.
#[tactic(auto, unfolding(crate::specs::Reading::eight_at))]
pub(crate) fn read_u64(bytes: &[u8]) -> Result<(u64, &[u8]), TextFault>
    ensures { Reads (λ r. (r.0, r.1.now)) result (eight_at bytes.now) }
{
    let (front, rest) = read_front(bytes, 8)?;
    Ok((LittleEndian::read_u64(front), rest))
}

/// The number of a feature, below `NUMBER_END`.
#[tactic(auto, unfolding(crate::specs::Reading::number_at))]
pub(crate) fn read_number(bytes: &[u8]) -> Result<(u64, &[u8]), TextFault>
    ensures { Reads (λ r. (r.0, r.1.now)) result (number_at bytes.now) }
{
    let (number, rest) = read_u64(bytes)?;
    if number >= NUMBER_END {
        return Err(TextFault::Bad);
    }
    Ok((number, rest))
}

/// The most bytes that are looked at one by one. Most keys and texts have fewer, and most are ASCII.
const FEW: usize = 16;

/// Whether all bytes are ASCII.
fn are_ascii(bytes: &[u8]) -> bool
    ensures { IsTrue result → IsAscii bytes.now }
{
    bytes.iter().all(|byte| *byte < 128)
}

/// The text that the bytes are, if they are UTF-8.
fn text_of(bytes: &[u8]) -> Option<&str>
    ensures text { IfSome result (λ text. (text.now ≡ bytes.now) × IsUtf8 bytes.now) }
    ensures none { IfNone result (¬ IsUtf8 bytes.now) }
{
    if bytes.len() <= FEW && are_ascii(bytes) {
        // SAFETY: the bytes are ASCII.
        return Some(unsafe { str::from_utf8_unchecked(bytes) });
    }
    str::from_utf8(bytes).ok()
}

/// `len` bytes of UTF-8.
#[tactic(auto, using(crate::proofs::Utf8Tests::utf8_tests), unfolding(crate::specs::Reading::text_at))]
fn read_text(bytes: &[u8], len: usize) -> Result<(&str, &[u8]), TextFault>
    ensures { Reads (λ r. (r.0.now, r.1.now)) result (text_at len bytes.now) }
{
    let (front, rest) = read_front(bytes, len)?;
    match text_of(front) {
        Some(text) => Ok((text, rest)),
        None => Err(TextFault::Bad),
    }
}

/// The name of a layer or a key: 1 to `MAX_NAME_BYTES` bytes.
#[tactic(auto, unfolding(crate::specs::Reading::name_at))]
pub(crate) fn read_name(bytes: &[u8]) -> Result<(&str, &[u8]), TextFault>
    ensures { Reads (λ r. (r.0.now, r.1.now)) result (name_at bytes.now) }
{
    let (len, rest) = read_byte(bytes)?;
    let len = usize::from(len);
    if len < 1 || len > MAX_NAME_BYTES {
        return Err(TextFault::Bad);
    }
    read_text(rest, len)
}

/// The text of a value: at most `MAX_TEXT_BYTES` bytes.
#[tactic(auto, unfolding(crate::specs::Reading::long_text_at))]
pub(crate) fn read_long_text(bytes: &[u8]) -> Result<(&str, &[u8]), TextFault>
    ensures { Reads (λ r. (r.0.now, r.1.now)) result (long_text_at bytes.now) }
{
    let (len, rest) = read_u16(bytes)?;
    let len = usize::from(len);
    if len > MAX_TEXT_BYTES {
        return Err(TextFault::Bad);
    }
    read_text(rest, len)
}
