//! Codes: numbers by which most texts that differ are told apart.

ghost use Rattle.std.specs.Prelude.{◌≡◌};
ghost use Rattle.mvt_write.specs.Codes.{mixed, short_ends, ends, text_code};

/// An odd number whose multiples spread over 64 bits.
pub(crate) const FACTOR: u64 = 0x9e37_79b9_7f4a_7c15;

/// One number of two numbers and a length.
#[tactic(auto, unfolding(crate::specs::Codes::mixed))]
fn mixed(first: u64, last: u64, len: usize) -> u64
    ensures { result ≡ mixed first last len }
{
    first
        .wrapping_mul(FACTOR)
        .wrapping_add(last)
        .wrapping_add(len as u64)
}

/// The first and the middle byte as one number and the last byte, of a text of fewer than four bytes; twice 0 if it is empty.
#[tactic(auto, unfolding(crate::specs::Codes::short_ends))]
fn short_ends(bytes: &[u8]) -> (u64, u64)
    ensures { result ≡ short_ends bytes.now }
{
    let len = bytes.len();
    if len == 0 {
        return (0, 0);
    }
    let first = u64::from(bytes[0]) + 256 * u64::from(bytes[len / 2]);
    (first, u64::from(bytes[len - 1]))
}

/// The first and the last bytes of a text as numbers: eight of each, or four if it has fewer than eight.
#[tactic(auto, unfolding(crate::specs::Codes::ends))]
fn ends(bytes: &[u8]) -> (u64, u64)
    ensures { result ≡ ends bytes.now }
{
    if let (Some(first), Some(last)) = (bytes.first_chunk(), bytes.last_chunk()) {
        return (u64::from_le_bytes(*first), u64::from_le_bytes(*last));
    }
    if let (Some(first), Some(last)) = (bytes.first_chunk(), bytes.last_chunk()) {
        let (first, last) = (u32::from_le_bytes(*first), u32::from_le_bytes(*last));
        return (u64::from(first), u64::from(last));
    }
    short_ends(bytes)
}

/// A number that mostly differs where texts differ in their length, or in their first or their last bytes.
#[tactic(auto, unfolding(crate::specs::Codes::text_code))]
pub(crate) fn text_code(bytes: &[u8]) -> u64
    ensures { result ≡ text_code bytes.now }
{
    let (first, last) = ends(bytes);
    mixed(first, last, bytes.len())
}
