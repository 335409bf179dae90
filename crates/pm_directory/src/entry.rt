//! An entry of a directory.

/// An entry of a directory (PMTiles 3, 4.1).
#[derive(Clone, Copy, Debug, PartialEq, Eq)]
pub struct DirectoryEntry {
    /// The id of its first tile, or of the first tile that the leaf directory may have.
    pub id: u64,
    /// The number of tiles, with consecutive ids, that have its content. 0 if it names a leaf directory, whose ids are from `id` on
    /// and below that of the next entry.
    pub run: u32,
    /// The length of the content or the leaf directory in bytes, at least 1.
    pub length: u32,
    /// Their offset from the start of the section of contents or of leaf directories.
    pub offset: u64,
}
