//! Positions of bytes in decimal digits.
ghost use Rattle.std.specs.Prelude.{◌≡◌, ◌<◌, ◌≤◌, ◌&&◌, ℕ, nat_lt, nat_le, length, MatchOption};
ghost use Rattle.std.specs.List.{list_all};
ghost use Rattle.std.specs.Char.{is_ascii_digit};
ghost use Rattle.http_values.specs.Ranges.{IsPosition, is_numeral};

use crate::digits::{are_digits, digits_number};

/// The most digits of a position. A number of 18 digits is below 2^64.
pub const MAX_POSITION_DIGITS: usize = 18;

/// Whether the text is 1 to `MAX_POSITION_DIGITS` digits.
fn is_numeral(text: &[u8]) -> bool
    ensures { result ≡ is_numeral text.now }
{
    !text.is_empty() && text.len() <= MAX_POSITION_DIGITS && are_digits(text)
}

/// The position that the text is, or `None` if it isn't one. Leading zeros count as digits.
pub(crate) fn position_in(text: &[u8]) -> Option<u64>
    ensures { MatchOption result ((position : ℕ) → ¬ (IsPosition text.now position)) (IsPosition text.now) }
{
    if !is_numeral(text) {
        return None;
    }
    digits_number(text)
}
