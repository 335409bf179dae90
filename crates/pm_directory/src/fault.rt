//! What is wrong with bytes that aren't a directory.

ghost use Rattle.std.specs.Prelude.{◌≡◌};
ghost use Rattle.pm_directory.specs.declared.fault.DirectoryFault.TheVariants.{Memory};

use std::alloc::{AllocError, AllocFailed};
use std::fmt;
use thiserror::Error;

/// Why bytes aren't a directory. If they have several faults, the first that is met is named.
#[derive(Clone, Copy, Debug, PartialEq, Eq, Error)]
pub enum DirectoryFault {
    /// The bytes end inside a number or before the last one, or there are fewer bytes than numbers.
    Cut,
    /// A number is longer than ten bytes, or doesn't fit in 64 bits.
    Varint,
    /// There are bytes after the last number.
    Rest,
    /// An id isn't above the one before it, or is in the run before it.
    Order,
    /// A length is 0.
    Length,
    /// The first offset refers to a previous entry.
    Offset,
    /// A run or a length is 2^32 or more, an id or an offset 2^64 or more, or a run exceeds the ids of zoom 31.
    Range,
    /// An allocation failed. This says nothing of the bytes.
    Memory,
}

impl fmt::Display for DirectoryFault {
    fn fmt<W: fmt::Write>(&self, f: &mut fmt::Formatter<W>) -> fmt::Result {
        f.write_str(match self {
            DirectoryFault::Cut => "the bytes end inside the directory",
            DirectoryFault::Varint => "a number is longer than ten bytes or passes 64 bits",
            DirectoryFault::Rest => "bytes stand behind the directory",
            DirectoryFault::Order => "the entries do not ascend, or runs overlap",
            DirectoryFault::Length => "the length of an entry is 0",
            DirectoryFault::Offset => "the first entry has no offset",
            DirectoryFault::Range => "a number is out of its range",
            DirectoryFault::Memory => "out of memory",
        })
    }
}

impl<T: Drop> From<AllocFailed<T>> for DirectoryFault {
    ghost from_gives = { λ _ e. e ≡ Memory };

    fn from(_e: AllocFailed<T>) -> DirectoryFault {
        DirectoryFault::Memory
    }
}

impl From<AllocError> for DirectoryFault {
    ghost from_gives = { λ _ e. e ≡ Memory };

    fn from(_e: AllocError) -> DirectoryFault {
        DirectoryFault::Memory
    }
}
