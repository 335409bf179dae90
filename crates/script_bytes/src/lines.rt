//! The words of a line, and long texts.
use std::alloc::{AllocError, Global};

/// The most repetitions that a line may ask for.
const MAX_TIMES: usize = 1_000_000;

/// The most bytes of an answer that is written whole.
const WHOLE: usize = 10_000;

/// The text up to the first blank, and what stands behind it.
pub fn parted(text: &str) -> (&str, &str) {
    match text.split_once(' ') {
        Some(parts) => parts,
        None => (text, ""),
    }
}

/// The number that a word writes, or 0.
pub fn number_in(word: &str) -> u64 {
    word.parse::<u64>().unwrap_or(0)
}

/// A number as one of 32 bits, the greatest where it is greater.
pub fn short(number: u64) -> u32 {
    u32::try_from(number).unwrap_or(u32::MAX)
}

/// Adds what stands behind `<` up to the next one: a count, `:`, a text that is repeated so often, `>`, and a text.
fn push_repeated(out: &mut String, part: &str) -> Result<(), AllocError> {
    let Some((count, others)) = part.split_once(':') else {
        return out.push_str(part);
    };
    let Some((piece, behind)) = others.split_once('>') else {
        return out.push_str(part);
    };
    let times = usize::try_from(number_in(count)).unwrap_or(MAX_TIMES);
    for _ in 0..times.min(MAX_TIMES) {
        out.push_str(piece)?;
    }
    out.push_str(behind)
}

/// A text with each `<COUNT:TEXT>` in it written out.
pub fn expanded(alloc: Global, text: &str) -> Result<String, AllocError> {
    let mut out = String::new(alloc);
    for (index, part) in text.split('<').enumerate() {
        if index == 0 {
            out.push_str(part)?;
        } else {
            push_repeated(&mut out, part)?;
        }
    }
    Ok(out)
}

/// A number that bytes make: 31 times that of those before the last one, plus this one, modulo 2^64.
fn digest(bytes: &[u8]) -> u64 {
    let mut sum = 0u64;
    for byte in bytes {
        sum = sum.wrapping_mul(31).wrapping_add(u64::from(*byte));
    }
    sum
}

/// An answer as it is written: a long one by its first bytes, its length, and a number that all its bytes make.
pub fn clipped(alloc: Global, text: &str) -> Result<String, AllocError> {
    let len = text.len();
    if len <= WHOLE {
        return String::from_str(alloc, text);
    }
    let digest = digest(text.as_bytes());
    let front = text.get(..100).unwrap_or("");
    format!(in alloc; "{front}.. {len} bytes, digest {digest}")
}
