//! Why a call of the journal fails.

use std::fmt;
use thiserror::Error;

/// Why the journal doesn't take a record, or isn't recovered.
#[derive(Clone, Copy, Debug, PartialEq, Eq, Error)]
pub enum JournalFault {
    /// The last edit has the last u64 as its number.
    NumbersSpent,
    /// The record needs more places than are free.
    Full { need: u64, free: u64 },
    /// A call of the disk failed.
    Device,
    /// A record that was expected isn't whole.
    Damaged,
    /// An allocation failed.
    Memory,
}

impl fmt::Display for JournalFault {
    fn fmt<W: fmt::Write>(&self, f: &mut fmt::Formatter<W>) -> fmt::Result {
        let words = match self {
            JournalFault::NumbersSpent => "there are no more numbers for edits",
            JournalFault::Full { need, free } => {
                return write!(
                    f,
                    "the journal has {free} free places, and {need} are needed"
                );
            }
            JournalFault::Device => "a call of the disk failed",
            JournalFault::Damaged => "a record of the journal isn't whole",
            JournalFault::Memory => "out of memory",
        };
        f.write_str(words)
    }
}
