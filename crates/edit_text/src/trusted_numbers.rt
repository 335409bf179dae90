//! Numbers at the start of bytes, each with the bytes after it; 0 if there are too few bytes.

ghost use Rattle.std.specs.Prelude.{◌≡◌, ℕ, take, drop};
ghost use Rattle.edit_text.specs.Trusted.{byte_in, count_in, number_in, point_in};

use feature_model::World;

/// The first byte.
#[tactic(auto, unfolding(crate::specs::Trusted::byte_in))]
pub(crate) fn byte_in(bytes: &[u8]) -> (u8, &[u8])
    ensures number { result.0 ≡ (byte_in bytes.now).0 }
    ensures rest { result.1.now ≡ (byte_in bytes.now).1 }
{
    match bytes {
        [first, rest @ ..] => (*first, rest),
        _ => (0, bytes),
    }
}

/// A count of two bytes, least significant byte first.
#[tactic(auto, unfolding(crate::specs::Trusted::count_in))]
pub(crate) fn count_in(bytes: &[u8]) -> (u16, &[u8])
    ensures number { result.0 ≡ (count_in bytes.now).0 }
    ensures rest { result.1.now ≡ (count_in bytes.now).1 }
{
    match bytes {
        [a, b, rest @ ..] => (u16::from_le_bytes([*a, *b]), rest),
        _ => (0, bytes),
    }
}

/// A number of eight bytes, least significant byte first.
#[tactic(auto, unfolding(crate::specs::Trusted::number_in))]
pub(crate) fn number_in(bytes: &[u8]) -> (u64, &[u8])
    ensures number { result.0 ≡ (number_in bytes.now).0 }
    ensures rest { result.1.now ≡ (number_in bytes.now).1 }
{
    match bytes {
        [a, b, c, d, e, f, g, h, rest @ ..] => (
            u64::from_le_bytes([*a, *b, *c, *d, *e, *f, *g, *h]),
            rest,
        ),
        _ => (0, bytes),
    }
}

/// A point: x and y, four bytes each, least significant byte first.
#[tactic(auto, unfolding(crate::specs::Trusted::point_in))]
pub(crate) fn point_in(bytes: &[u8]) -> (World, &[u8])
    ensures point { result.0 ≡ (point_in bytes.now).0 }
    ensures rest { result.1.now ≡ (point_in bytes.now).1 }
{
    match bytes {
        [a, b, c, d, e, f, g, h, rest @ ..] => {
            let x = u32::from_le_bytes([*a, *b, *c, *d]);
            let y = u32::from_le_bytes([*e, *f, *g, *h]);
            (World { x, y }, rest)
        }
        _ => (World { x: 0, y: 0 }, bytes),
    }
}

/// The first `len` bytes, or all if there are fewer, and those after them.
pub(crate) fn split(bytes: &[u8], len: usize) -> (&[u8], &[u8])
    ensures front { result.0.now ≡ take len bytes.now }
    ensures rest { result.1.now ≡ drop len bytes.now }
{
    bytes.split_at(len.min(bytes.len()))
}
