//! The answer to a line.
use crate::numbers::push_number;
use std::alloc::{AllocError, Global};
use std::fmt::{Debug, Display};

/// The answer to a line, as far as it is told; it is lent to what the line runs. Whether memory was refused is noted here, so that whoever
/// tells it needn't ask.
#[derive(Drop)]
pub struct Answer {
    alloc: Global,
    text: String,
    is_command: bool,
    is_refused: bool,
}

impl Answer {
    /// Nothing is told yet.
    pub fn new(alloc: Global) -> Answer {
        Answer {
            alloc,
            text: String::new(alloc),
            is_command: true,
            is_refused: false,
        }
    }

    /// Where what is told has its memory.
    pub fn alloc(&self) -> Global {
        self.alloc
    }

    /// What was told so far.
    pub fn text(&self) -> &str {
        self.text.as_str()
    }

    /// Whether the line is a command that fits, as far as it was read, and no memory was refused.
    pub fn is_fit(&self) -> bool {
        self.is_command && !self.is_refused
    }

    /// All that was told. `None` if the line is no command, or doesn't fit.
    ///
    /// # Errors
    /// If memory was refused meanwhile.
    pub fn told(&self) -> Result<Option<&str>, AllocError> {
        if self.is_refused {
            return Err(AllocError);
        }
        if self.is_command {
            Ok(Some(self.text.as_str()))
        } else {
            Ok(None)
        }
    }

    /// The line is no command, or doesn't fit.
    pub fn reject(&mut self) {
        self.is_command = false;
    }

    /// Notes that memory was refused.
    pub fn refuse(&mut self) {
        self.is_refused = true;
    }

    /// Notes whether memory was refused.
    pub fn note<E: Drop>(&mut self, outcome: Result<(), E>) {
        if outcome.is_err() {
            self.is_refused = true;
        }
    }

    /// What was made, unless memory was refused.
    pub fn granted<T: Drop>(&mut self, made: Result<T, AllocError>) -> Option<T> {
        if made.is_err() {
            self.is_refused = true;
        }
        made.ok()
    }

    /// What was found. The line doesn't fit if that is nothing.
    pub fn fitting<T: Drop>(&mut self, found: Result<Option<T>, AllocError>) -> Option<T> {
        let found = self.granted(found).flatten();
        if found.is_none() {
            self.is_command = false;
        }
        found
    }

    /// Forgets what was told.
    pub fn clear(&mut self) {
        self.text.clear();
    }

    /// Tells a text.
    pub fn say(&mut self, text: &str) {
        let outcome = self.text.push_str(text);
        self.note(outcome);
    }

    /// Tells a letter.
    pub fn push(&mut self, letter: char) {
        let outcome = self.text.push(letter);
        self.note(outcome);
    }

    /// Tells a text that was made.
    pub fn add(&mut self, made: Result<String, AllocError>) {
        match made {
            Ok(text) => self.say(text.as_str()),
            Err(AllocError) => self.is_refused = true,
        }
    }

    /// Tells a number, after a space if it isn't the first.
    pub fn add_number(&mut self, number: u64) {
        let outcome = push_number(&mut self.text, number);
        self.note(outcome);
    }

    /// Begins an item of a list, behind a comma if it isn't the first one.
    pub fn item(&mut self) {
        if !self.text.is_empty() && !self.text.ends_with('[') {
            self.say(", ");
        }
    }

    /// Tells what `write!` formats.
    pub fn write_fmt(&mut self, text: impl Display + Drop) {
        let outcome = self.text.write_fmt(text);
        self.note(outcome);
    }

    /// Tells a value in the form of `{}`.
    pub fn tell(&mut self, value: &impl Display) {
        write!(self, "{value}");
    }

    /// Tells a value in the form of `{:?}`.
    pub fn show(&mut self, value: &impl Debug) {
        write!(self, "{value:?}");
    }

    /// Tells what was read in the form of `{:?}`, or the fault.
    pub fn show_read(&mut self, outcome: &Result<impl Debug, impl Debug>) {
        match outcome {
            Ok(found) => self.show(found),
            Err(fault) => self.show(fault),
        }
    }

    /// Tells a value that was made in the form of `{:?}`.
    pub fn show_made(&mut self, made: &Result<impl Debug, AllocError>) {
        match made {
            Ok(value) => self.show(value),
            Err(AllocError) => self.is_refused = true,
        }
    }

    /// Tells an outcome in the form of `{:?}`, with the number of calls that it took.
    pub fn show_calls(&mut self, outcome: &impl Debug, calls: u64) {
        write!(self, "{outcome:?} in {calls}");
    }

    /// Tells bytes in hexadecimal digits.
    pub fn hex(&mut self, bytes: &[u8]) {
        self.add(hex::encode(self.alloc, bytes));
    }

    /// Tells bytes that were made in hexadecimal digits.
    pub fn made_bytes(&mut self, made: Result<Vec<u8>, AllocError>) {
        match made {
            Ok(bytes) => self.hex(&bytes),
            Err(AllocError) => self.is_refused = true,
        }
    }
}
