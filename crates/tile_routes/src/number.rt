//! Numbers in a path.
ghost use Rattle.std.specs.Prelude.{◌≡◌, ◌<◌, ◌≤◌, IfSome, MatchOption, length, true, false};
ghost use Rattle.std.specs.Char.{is_ascii_digit};
ghost use Rattle.std.specs.List.{list_all};
ghost use Rattle.std.specs.Str.Parse.{digits_value};
ghost use Rattle.feature_model.specs.declared.limits.TheConstants.{NUMBER_END};
ghost use Rattle.tile_routes.specs.Number.{begins_plain, number_of};
ghost use Rattle.tile_routes.specs.declared.number.TheConstants.{MAX_SHORT};

use feature_model::NUMBER_END;
use http_values::{are_digits, digits_number};

/// The most digits of which each number is below `NUMBER_END`.
const MAX_SHORT: usize = 18;

/// Whether the text isn't empty, and begins with no needless 0.
fn begins_plain(text: &[u8]) -> bool
    ensures { result ≡ begins_plain text.now }
{
    text.len() == 1 || (text.len() > 1 && text[0] != b'0')
}

/// The number that a few digits are, or `None` if one of the bytes isn't a digit.
fn short_number(text: &[u8]) -> Option<u64>
    requires { length text.now ≤ MAX_SHORT }
    ensures { MatchOption result (list_all is_ascii_digit text.now ≡ false)
        (λ number. (list_all is_ascii_digit text.now ≡ true) × (number ≡ digits_value 10 text.now)) }
{
    let mut number = 0u64;
    let mut i = 0;
    while i < text.len() {
        let byte = text[i];
        if !byte.is_ascii_digit() {
            return None;
        }
        number = number * 10 + u64::from(byte - b'0');
        i += 1;
    }
    Some(number)
}

/// The number of a feature that many digits are.
fn long_number(text: &[u8]) -> Option<u64>
    requires { begins_plain text.now ≡ true }
    ensures number { result ≡ number_of text.now }
    ensures small { IfSome result (λ number. number < NUMBER_END) }
{
    if !are_digits(text) {
        return None;
    }
    match digits_number(text) {
        Some(number) if number < NUMBER_END => Some(number),
        _ => None,
    }
}

/// The number of a feature that the text writes in decimal, without leading zeros.
pub(crate) fn path_number(text: &[u8]) -> Option<u64>
    ensures number { result ≡ number_of text.now }
    ensures small { IfSome result (λ number. number < NUMBER_END) }
{
    if !begins_plain(text) {
        return None;
    }
    if text.len() <= MAX_SHORT {
        return short_number(text);
    }
    long_number(text)
}
