//! Texts at the start of bytes that are known to be UTF-8, each with the bytes after it. Nothing is tested here.

ghost use Rattle.std.specs.Prelude.{◌≡◌, ℕ};
ghost use Rattle.std.specs.Str.{IsUtf8};
ghost use Rattle.edit_text.specs.Trusted.{name_in, long_text_in};

use crate::trusted_numbers::{byte_in, count_in, split};

/// A text at the start of bytes, after its length of one byte, and the bytes after it.
#[tactic(auto, unfolding(crate::specs::Trusted::name_in))]
pub(crate) fn name_in(bytes: &[u8]) -> (&str, &[u8])
    requires { IsUtf8 (name_in bytes.now).0 }
    ensures text { result.0.now ≡ (name_in bytes.now).0 }
    ensures rest { result.1.now ≡ (name_in bytes.now).1 }
{
    let (len, rest) = byte_in(bytes);
    let (front, rest) = split(rest, usize::from(len));
    // SAFETY: the bytes are UTF-8, by what this function requires.
    (unsafe { str::from_utf8_unchecked(front) }, rest)
}

/// A text at the start of bytes, after its length of two bytes, and the bytes after it.
#[tactic(auto, unfolding(crate::specs::Trusted::long_text_in))]
pub(crate) fn long_text_in(bytes: &[u8]) -> (&str, &[u8])
    requires { IsUtf8 (long_text_in bytes.now).0 }
    ensures text { result.0.now ≡ (long_text_in bytes.now).0 }
    ensures rest { result.1.now ≡ (long_text_in bytes.now).1 }
{
    let (len, rest) = count_in(bytes);
    let (front, rest) = split(rest, usize::from(len));
    // SAFETY: the bytes are UTF-8, by what this function requires.
    (unsafe { str::from_utf8_unchecked(front) }, rest)
}
