//! Commands as lines of text: a word, numbers, `=` and bytes.
use script_bytes::{Answer, add_bytes, numbers_in};
use std::alloc::{AllocError, Global};
use std::str::FromStr;

/// In the place of how many numbers a command has: any, or another text.
pub const ANY: usize = usize::MAX;

/// What a line of this word and this count of numbers asks for. Each row has a word, how many numbers follow it, and what it asks for then.
pub fn asked<T: Copy>(rows: &[(&'static str, usize, T)], word: &str, count: usize) -> Option<T> {
    for (name, numbers, asks) in rows {
        if *name == word && (*numbers == count || *numbers == ANY) {
            return Some(*asks);
        }
    }
    None
}

/// Keeps what was found. The line doesn't fit if that is nothing.
pub fn keep<T: Drop>(kept: &mut Vec<T>, found: Option<T>, answer: &mut Answer) {
    match found {
        Some(item) => answer.note(kept.push(item)),
        None => answer.reject(),
    }
}

/// Two numbers with this character between them.
pub fn pair_in<A: FromStr + Copy, B: FromStr + Copy>(text: &str, between: char) -> Option<(A, B)>
where
    A::Err: Drop,
    B::Err: Drop,
{
    let (first, second) = text.split_once(between)?;
    Some((first.parse::<A>().ok()?, second.parse::<B>().ok()?))
}

/// The numbers and the bytes of a command.
#[derive(Drop)]
pub struct Operands {
    pub numbers: Vec<u64>,
    pub bytes: Vec<u8>,
}

impl Operands {
    /// The number at this place. It is 0 if there are fewer.
    pub fn number(&self, place: usize) -> u64 {
        self.numbers.get(place).copied().unwrap_or(0)
    }
}

/// These numbers, and the bytes that a text spells. `None` if it spells none.
fn with_bytes(
    alloc: Global,
    numbers: Vec<u64>,
    spelled: &str,
) -> Result<Option<Operands>, AllocError> {
    let mut operands = Operands {
        numbers,
        bytes: Vec::new(alloc),
    };
    match add_bytes(&mut operands.bytes, alloc, spelled) {
        Ok(true) => Ok(Some(operands)),
        Ok(false) => Ok(None),
        Err(fault) => Err(fault),
    }
}

/// Parses numbers, and bytes after `=`. `None` if the text has anything else.
pub fn operands_in(alloc: Global, text: &str) -> Result<Option<Operands>, AllocError> {
    let (numbers, spelled) = text.split_once('=').unwrap_or((text, ""));
    match numbers_in(alloc, numbers)? {
        Some(numbers) => with_bytes(alloc, numbers, spelled),
        None => Ok(None),
    }
}
