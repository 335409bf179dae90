//! Why a call of this crate fails.

use std::fmt;
use thiserror::Error;

/// Why a store can't be opened, formatted or changed.
#[derive(Clone, Copy, Debug, Error)]
pub enum StoreFault {
    /// The disk doesn't begin with the mark of a format.
    NotFormatted,
    /// The disk has fewer than `MIN_SECTORS` sectors.
    TooSmall,
    /// A part of the disk doesn't have its form.
    Damaged(What),
    /// A call of the disk failed.
    Device,
    /// Out of memory. No call of this crate takes memory.
    Memory,
}

impl fmt::Display for StoreFault {
    fn fmt<W: fmt::Write>(&self, f: &mut fmt::Formatter<W>) -> fmt::Result {
        let words = match self {
            StoreFault::NotFormatted => "the disk isn't formatted",
            StoreFault::TooSmall => "the disk has too few sectors",
            StoreFault::Damaged(what) => return write!(f, "the disk is damaged: {what}"),
            StoreFault::Device => "a call of the disk failed",
            StoreFault::Memory => "out of memory",
        };
        f.write_str(words)
    }
}

/// What doesn't have its form on a disk.
#[derive(Clone, Copy, Debug, Error)]
pub enum What {
    /// The format's sector, or the count of sectors that it names.
    Size,
    /// A sector of a root, or both.
    RootSector,
    /// A snapshot.
    Snapshot,
    /// The journal.
    Journal,
    /// A text of edits.
    Text,
}

impl fmt::Display for What {
    fn fmt<W: fmt::Write>(&self, f: &mut fmt::Formatter<W>) -> fmt::Result {
        f.write_str(match self {
            What::Size => "its size",
            What::RootSector => "the sector of a root",
            What::Snapshot => "a snapshot",
            What::Journal => "the journal",
            What::Text => "a text of edits",
        })
    }
}
