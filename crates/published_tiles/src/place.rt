//! The place of an archive on a disk.

/// Where a disk stores an archive.
#[derive(Clone, Copy, PartialEq, Eq)]
pub struct ArchivePlace {
    /// Distinguishes it from earlier archives.
    pub generation: u64,
    /// Its first sector.
    pub first: u64,
    /// Its length in bytes.
    pub len: u64,
}
