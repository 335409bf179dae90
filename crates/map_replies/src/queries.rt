//! What a request says in its query.
ghost use Rattle.std.specs.Prelude.{◌≡◌, ◌≤◌, IsTrue, length};
ghost use Rattle.map_replies.specs.Digests.{agrees, part_agrees};
ghost use Rattle.map_replies.specs.Waits.{Contains};

use crate::digests::digest_digits;
use http_values::{are_digits, digits_number};

/// The most digits of a number of seconds.
const MAX_SECONDS_DIGITS: usize = 9;

/// How many bytes come before the first ampersand.
fn part_len(query: &[u8]) -> usize
    ensures { result ≤ length query.now }
{
    for at in 0..query.len() {
        if query[at] == b'&' {
            return at;
        }
    }
    query.len()
}

/// Whether a word is one of the parts of a query, between which there are ampersands.
pub(crate) fn has_word(query: &[u8], word: &[u8]) -> bool
    ensures { IsTrue result → Contains query.now word.now }
{
    let mut start = 0;
    'parts: while start < query.len() {
        let count = part_len(&query[start..]);
        if &query[start..start + count] == word {
            return true;
        }
        start = start + count + 1;
    }
    false
}

/// The number of seconds that a part of a query says after this name.
fn seconds_in(part: &[u8], name: &[u8]) -> Option<u64> {
    let digits = part.strip_prefix(name)?;
    if digits.is_empty() || digits.len() > MAX_SECONDS_DIGITS || !are_digits(digits) {
        return None;
    }
    digits_number(digits)
}

/// The number of seconds that a query says after this name, which ends with `=`: 0 if it says none.
pub(crate) fn seconds_of(query: &[u8], name: &[u8]) -> u64 {
    let mut start = 0;
    'parts: while start < query.len() {
        let count = part_len(&query[start..]);
        if let Some(seconds) = seconds_in(&query[start..start + count], name) {
            return seconds;
        }
        start = start + count + 1;
    }
    0
}

/// Whether a part of a query says nothing of the map's digest, or that it has these digits.
#[tactic(auto, unfolding(crate::specs::Digests::after_mark))]
fn part_agrees(part: &[u8], digits: &[u8]) -> bool
    ensures { result ≡ part_agrees digits.now part.now }
{
    match part.strip_prefix(b"after=".as_slice()) {
        Some(value) => value == digits,
        None => true,
    }
}

/// Whether a query agrees with a map of this digest: it names no other one.
pub(crate) fn agrees(query: &[u8], digest: u64) -> bool
    ensures { result ≡ agrees query.now digest }
{
    let digits = digest_digits(digest);
    query
        .split(|byte| *byte == b'&')
        .all(|part| part_agrees(part, &digits))
}
