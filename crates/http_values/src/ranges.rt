//! Parses ranges of bytes.

ghost use Rattle.std.specs.Prelude.{◌≡◌, ◌↔◌, ℕ, List, Some, MatchOption};
ghost use Rattle.std.specs.List.{position};
ghost use Rattle.http_values.specs.Ranges.{AreAround, AreEnds, IsRange, is_dash};

use crate::positions::position_in;

/// The bytes from one position to another, both counted from 0 and both included.
#[derive(Clone, Copy)]
pub struct ByteRange {
    /// The first byte.
    pub first: u64,
    /// The last byte, which isn't before the first one.
    pub last: u64,
}

/// The index of the first dash, if there is one.
fn dash_in(text: &[u8]) -> Option<usize>
    ensures { result ≡ position is_dash text.now }
{
    text.iter().position(|byte| *byte == b'-')
}

/// The range between the positions in two texts, or `None` if there is none.
fn between(before: &[u8], behind: &[u8]) -> Option<ByteRange>
    ensures { MatchOption result ((first last : ℕ) → ¬ (AreAround before.now behind.now first last))
        (λ range. AreAround before.now behind.now range.first range.last) }
{
    match (position_in(before), position_in(behind)) {
        (Some(first), Some(last)) if first <= last => Some(ByteRange { first, last }),
        _ => None,
    }
}

/// The range after the unit, or `None` if there is none.
fn range_in(text: &[u8]) -> Option<ByteRange>
    ensures { MatchOption result ((first last : ℕ) → ¬ (AreEnds text.now first last)) (λ range. AreEnds text.now range.first range.last) }
{
    match dash_in(text) {
        Some(dash) => between(&text[..dash], &text[dash + 1..]),
        None => None,
    }
}

/// The range that the value of a header field `range` asks for. `None` if the value isn't of the form `bytes=`, 1 to
/// `MAX_POSITION_DIGITS` digits, `-`, 1 to `MAX_POSITION_DIGITS` digits, or if the last byte is before the first.
pub fn byte_range(value: &[u8]) -> Option<ByteRange>
    ensures { (range : ByteRange) → (result ≡ Some range) ↔ IsRange value.now range.first range.last }
{
    match value.strip_prefix(b"bytes=") {
        Some(text) => range_in(text),
        None => None,
    }
}

/// Proves that a value asks for at most one range.
pub fn at_most_one_range()
    ensures { (value : List ℕ) (a b c d : ℕ) → IsRange value a b → IsRange value c d → (a ≡ c) × (b ≡ d) }
{}
