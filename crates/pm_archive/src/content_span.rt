//! The place of a content.

/// Where an archive has the content of a tile.
#[derive(Clone, Copy)]
pub struct ContentSpan {
    /// The offset of its first byte in the archive.
    pub offset: u64,
    /// Its length in bytes.
    pub length: u64,
}
