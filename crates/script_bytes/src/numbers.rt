//! Numbers in a line.
use std::alloc::{AllocError, Global};

/// Parses the numbers of a text, one a word. `None` if a word is not a number.
pub fn numbers_in(alloc: Global, text: &str) -> Result<Option<Vec<u64>>, AllocError> {
    let mut numbers = Vec::new(alloc);
    for word in text.split_whitespace() {
        match word.parse::<u64>() {
            Ok(number) => numbers.push(number)?,
            Err(_) => return Ok(None),
        }
    }
    Ok(Some(numbers))
}

/// Appends a number to a text, with a space between two of them.
pub(crate) fn push_number(text: &mut String, number: u64) -> Result<(), AllocError> {
    if text.is_empty() {
        write!(text, "{number}")
    } else {
        write!(text, " {number}")
    }
}

/// The numbers as choices of a crash. One that does not fit is the last write.
pub fn choices_of(alloc: Global, numbers: &[u64]) -> Result<Vec<u32>, AllocError> {
    let mut choices = Vec::new(alloc);
    for number in numbers {
        choices.push(u32::try_from(*number).unwrap_or(u32::MAX))?;
    }
    Ok(choices)
}
