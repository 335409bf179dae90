//! Numbers in decimal digits: read by the standard library's parser, written by `itoa`.

ghost use Rattle.std.specs.Prelude.{◌≡◌, ◌^◌, ◌<◌, ◌≤◌, ◌+◌, ◌++◌, true, length, decimal, vec_len, vec_capacity, MatchOption};
ghost use Rattle.std.specs.List.{list_all};
ghost use Rattle.std.specs.Char.{is_ascii_digit};
ghost use Rattle.std.specs.Str.Parse.{digits_value};
ghost use Rattle.http_values.specs.declared.digits.TheConstants.{MAX_DIGITS};

use itoa::Buffer;

/// The most digits of a number below 2^64.
pub const MAX_DIGITS: usize = 20;

/// Whether each byte is a digit.
pub fn are_digits(bytes: &[u8]) -> bool
    ensures { result ≡ list_all is_ascii_digit bytes.now }
{
    bytes.iter().all(|byte| byte.is_ascii_digit())
}

/// The number that one digit or more are, or `None` if it is 2^64 or more. Leading zeros are allowed.
pub fn digits_number(digits: &[u8]) -> Option<u64>
    requires some { 0 < length digits.now }
    requires digits { list_all is_ascii_digit digits.now ≡ true }
    ensures { MatchOption result (2 ^ 64 ≤ digits_value 10 digits.now) (λ number. number ≡ digits_value 10 digits.now) }
{
    match str::from_utf8(digits) {
        Ok(text) => text.parse::<u64>().ok(),
        Err(_) => None,
    }
}

/// Appends text within the capacity. It allocates nothing.
pub fn push_text(out: &mut Vec<u8>, text: &[u8])
    requires room { vec_len out.old + length text.now ≤ vec_capacity out.old }
    ensures items { out.new.items ≡ out.old.items ++ text.now }
    ensures len { vec_len out.new ≡ vec_len out.old + length text.now }
    ensures capacity { vec_capacity out.old ≤ vec_capacity out.new }
{
    out.extend_from_slice(text).unwrap();
}

/// Appends a number in decimal digits, without leading zeros, within the capacity. It allocates nothing.
pub fn push_number(out: &mut Vec<u8>, number: u64)
    requires room { vec_len out.old + MAX_DIGITS ≤ vec_capacity out.old }
    ensures items { out.new.items ≡ out.old.items ++ decimal number }
    ensures len { vec_len out.new ≤ vec_len out.old + MAX_DIGITS }
    ensures capacity { vec_capacity out.old ≤ vec_capacity out.new }
{
    push_text(out, Buffer::new().format(number).as_bytes());
}
