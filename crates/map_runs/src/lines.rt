//! What a line says.
use hilbert_id::TileAt;
use script_bytes::{Answer, number_in, parted, short};

/// A line: its first word, what follows it, and the numbers in that, 0 where there are fewer.
#[derive(Clone, Copy)]
pub(crate) struct Line<'a> {
    pub(crate) word: &'a str,
    pub(crate) rest: &'a str,
    pub(crate) numbers: [u64; 8],
}

/// What a word stands for by a table, if it is in there.
pub(crate) fn asked<T: Copy + Drop>(words: &[(&str, T)], word: &str) -> Option<T> {
    for (name, asks) in words {
        if *name == word {
            return Some(*asks);
        }
    }
    None
}

/// A number as a byte, the greatest where it is greater.
pub(crate) fn byte(number: u64) -> u8 {
    u8::try_from(number).unwrap_or(u8::MAX)
}

/// The tile of a zoom, a column and a row, if there is one.
pub(crate) fn tile_at([zoom, column, row, ..]: [u64; 8]) -> Option<TileAt> {
    TileAt::new(byte(zoom), short(column), short(row))
}

fn numbers_in(text: &str) -> [u64; 8] {
    let mut numbers = [0; 8];
    for (number, word) in numbers.iter_mut().zip(text.split_whitespace()) {
        *number = number_in(word);
    }
    numbers
}

/// What a line says.
pub(crate) fn line_in(text: &str) -> Line<'_> {
    let (word, rest) = parted(text);
    Line {
        word,
        rest,
        numbers: numbers_in(rest),
    }
}
