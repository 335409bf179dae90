//! An archive that was built.

/// The bytes of an archive, in two parts: `front`, then `contents`.
#[derive(Drop)]
pub struct BuiltArchive {
    /// The header, the root directory, the metadata and the leaf directories.
    pub front: Vec<u8>,
    /// The different contents of the tiles, in the order of first use.
    pub contents: Vec<u8>,
}
