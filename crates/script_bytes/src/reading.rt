//! Bytes in the words of a line.
use std::alloc::{AllocError, Global};

/// Appends a number in `width` bytes, lowest byte first. Returns whether both texts are numbers and the width is at most 8.
fn add_number(bytes: &mut Vec<u8>, number: &str, width: &str) -> Result<bool, AllocError> {
    match (number.parse::<u64>(), width.parse::<usize>()) {
        (Ok(number), Ok(width)) if width <= 8 => {
            bytes.extend_from_slice(&number.to_le_bytes()[..width])?;
            Ok(true)
        }
        _ => Ok(false),
    }
}

/// Appends the bytes of hexadecimal digits. Returns whether the text is that.
fn add_hex(bytes: &mut Vec<u8>, alloc: Global, digits: &str) -> Result<bool, AllocError> {
    match hex::decode(alloc, digits) {
        Ok(found) => {
            bytes.extend_from_slice(&found)?;
            Ok(true)
        }
        Err(_) => Ok(false),
    }
}

/// Appends the bytes of a word without a count.
fn add_piece(bytes: &mut Vec<u8>, alloc: Global, piece: &str) -> Result<bool, AllocError> {
    if let Some(letters) = piece.strip_prefix('\'') {
        bytes.extend_from_slice(letters.as_bytes())?;
        return Ok(true);
    }
    match piece.split_once(':') {
        Some((number, width)) => add_number(bytes, number, width),
        None => add_hex(bytes, alloc, piece),
    }
}

/// Appends the bytes of a word, repeated by its count.
fn add_word(bytes: &mut Vec<u8>, alloc: Global, word: &str) -> Result<bool, AllocError> {
    let Some((piece, count)) = word.split_once('*') else {
        return add_piece(bytes, alloc, word);
    };
    let Ok(count) = count.parse::<u16>() else {
        return Ok(false);
    };
    for _ in 0..count {
        if !add_piece(bytes, alloc, piece)? {
            return Ok(false);
        }
    }
    Ok(true)
}

/// Appends the bytes that a text spells. Returns whether it spells any.
///
/// A word is `'abc` for the letters abc, `7:8` for the number 7 in 8 bytes, lowest byte first, or hexadecimal digits; `*20` at its end repeats
/// it 20 times.
pub fn add_bytes(bytes: &mut Vec<u8>, alloc: Global, text: &str) -> Result<bool, AllocError> {
    for word in text.split_whitespace() {
        if !add_word(bytes, alloc, word)? {
            return Ok(false);
        }
    }
    Ok(true)
}
