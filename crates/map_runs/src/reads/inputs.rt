//! The bytes that a line is about.
use script_bytes::{Answer, expanded, number_in};
use std::alloc::Global;

/// Bytes that lines gave names.
#[derive(Drop)]
pub(crate) struct Inputs {
    held: Vec<(String, Vec<u8>)>,
}

/// A number as a place in bytes, the greatest where it is greater.
pub(crate) fn place(number: u64) -> usize {
    usize::try_from(number).unwrap_or(usize::MAX)
}

/// Puts bytes in the place of others, as far as these reach.
fn put(bytes: &mut Vec<u8>, at: usize, part: &[u8]) {
    for (index, byte) in part.iter().enumerate() {
        if let Some(old) = bytes.get_mut(at.saturating_add(index)) {
            *old = *byte;
        }
    }
}

/// Makes the change that a word says.
fn change(alloc: Global, bytes: &mut Vec<u8>, word: &str) -> Option<()> {
    if let Some(len) = word.strip_prefix("..") {
        bytes.truncate(place(number_in(len)));
        return Some(());
    }
    if let Some(more) = word.strip_prefix('+') {
        let more = hex::decode(alloc, more).ok()?;
        return bytes.extend_from_slice(&more).ok();
    }
    let (at, part) = word.split_once('=')?;
    let part = hex::decode(alloc, part).ok()?;
    put(bytes, place(number_in(at)), &part);
    Some(())
}

impl Inputs {
    pub(crate) fn new(alloc: Global) -> Inputs {
        Inputs {
            held: Vec::new(alloc),
        }
    }

    /// Gives bytes a name.
    pub(crate) fn keep(&mut self, answer: &mut Answer, name: &str, bytes: Vec<u8>) {
        write!(answer, "{} bytes", bytes.len());
        if let Some(name) = answer.granted(String::from_str(answer.alloc(), name)) {
            answer.note(self.held.push((name, bytes)));
        }
    }

    /// The bytes that last got a name.
    fn named(&self, name: &str) -> Option<&[u8]> {
        for (key, bytes) in self.held.iter().rev() {
            if key.as_str() == name {
                return Some(bytes);
            }
        }
        None
    }

    /// The bytes of the first word.
    fn begun(&self, alloc: Global, word: &str) -> Option<Vec<u8>> {
        match word.strip_prefix('@') {
            Some(name) => Vec::from_slice(alloc, self.named(name)?).ok(),
            None if word == "-" => Some(Vec::new(alloc)),
            None => hex::decode(alloc, word).ok(),
        }
    }

    /// The bytes that words say, if they do.
    fn changed(&self, alloc: Global, text: &str) -> Option<Vec<u8>> {
        let mut words = text.split_whitespace();
        let mut bytes = self.begun(alloc, words.next().unwrap_or("-"))?;
        for word in words {
            change(alloc, &mut bytes, word)?;
        }
        Some(bytes)
    }

    /// The bytes that a text says, if it does.
    pub(crate) fn input(&self, alloc: Global, text: &str) -> Option<Vec<u8>> {
        let text = expanded(alloc, text).ok()?;
        self.changed(alloc, text.as_str())
    }
}
