//! What is wrong with an archive.

ghost use Rattle.std.specs.Prelude.{◌≡◌, Some};
ghost use Rattle.pm_archive.specs.Shown.{fault_text, number_of, what_of};

use std::fmt;
use thiserror::Error;

/// A section of an archive.
#[derive(Clone, Copy, Debug, PartialEq, Eq)]
pub enum Section {
    /// The root directory.
    Root,
    /// The metadata.
    Metadata,
    /// The leaf directories.
    Leaves,
    /// The contents of the tiles.
    Tiles,
}

/// A count of an archive's header.
#[derive(Clone, Copy, Debug, PartialEq, Eq)]
pub enum Count {
    /// The number of tile ids that have a content.
    Addressed,
    /// The number of tile entries.
    Entries,
    /// The number of different contents.
    Contents,
}

/// Why bytes aren't a sound archive, or why they couldn't be examined.
#[derive(Clone, Copy, Debug, PartialEq, Eq, Error)]
pub enum ArchiveFault {
    /// There are fewer than 127 bytes.
    Short,
    /// The first seven bytes aren't `PMTiles`.
    Magic,
    /// The version, the byte after these, isn't 3.
    Version(u8),
    /// A section isn't inside the file, or the root directory ends after byte 16,384.
    Section(Section),
    /// The directories are compressed, with this number of the header.
    Compressed(u8),
    /// The bytes at this offset of the file aren't a directory.
    Directory(u64),
    /// This id of a leaf directory isn't among those to which the entry that names it may lead.
    Order(u64),
    /// A leaf directory is more than three levels below the root.
    Depth,
    /// The entry of this id names bytes outside of its section.
    Place(u64),
    /// A count of the header is wrong.
    Count(Count),
    /// The content of this id, the least of its entry, isn't a vector tile.
    Tile(u64),
    /// The metadata isn't a JSON object.
    Metadata,
    /// A read of the source failed. This says nothing of the bytes.
    Read,
    /// An allocation failed. This says nothing of the bytes.
    Memory,
}

impl ArchiveFault {
    /// What is wrong.
    #[tactic(auto, unfolding(crate::specs::Shown::what_of))]
    fn what(self) -> &'static str
        ensures { result.now ≡ what_of self }
    {
        match self {
            ArchiveFault::Short => "short header",
            ArchiveFault::Magic => "bad magic",
            ArchiveFault::Version(_) => "version: ",
            ArchiveFault::Section(Section::Root) => "section: root",
            ArchiveFault::Section(Section::Metadata) => "section: metadata",
            ArchiveFault::Section(Section::Leaves) => "section: leaves",
            ArchiveFault::Section(Section::Tiles) => "section: tiles",
            ArchiveFault::Compressed(_) => "compressed directories: ",
            ArchiveFault::Directory(_) => "bad directory at: ",
            ArchiveFault::Order(_) => "order: ",
            ArchiveFault::Depth => "leaf depth",
            ArchiveFault::Place(_) => "place: ",
            ArchiveFault::Count(Count::Addressed) => "count: addressed",
            ArchiveFault::Count(Count::Entries) => "count: entries",
            ArchiveFault::Count(Count::Contents) => "count: contents",
            ArchiveFault::Tile(_) => "bad tile: ",
            ArchiveFault::Metadata => "bad metadata",
            ArchiveFault::Read => "Read",
            ArchiveFault::Memory => "Memory",
        }
    }

    /// The number that stands behind it.
    fn number(self) -> Option<u64>
        ensures { result ≡ number_of self }
    {
        match self {
            ArchiveFault::Version(version) => Some(u64::from(version)),
            ArchiveFault::Compressed(number) => Some(u64::from(number)),
            ArchiveFault::Directory(offset) => Some(offset),
            ArchiveFault::Order(id) | ArchiveFault::Place(id) | ArchiveFault::Tile(id) => Some(id),
            _ => None,
        }
    }
}

impl fmt::Display for ArchiveFault {
    ghost output = { λ fault. Some (fault_text fault) };

    fn fmt<W: fmt::Write>(&self, f: &mut fmt::Formatter<W>) -> fmt::Result {
        f.write_str(self.what())?;
        match self.number() {
            Some(number) => write!(f, "{number}"),
            None => Ok(()),
        }
    }
}
