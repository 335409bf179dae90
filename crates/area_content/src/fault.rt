//! Why a map has no content for an area.
use thiserror::Error;

/// Why a map has no content for an area.
#[derive(Clone, Copy, Debug, Error)]
pub enum ContentFault {
    /// The tiles of the map need more than 131,072 entries of an archive.
    #[error("the tiles need more than 131,072 entries")]
    TooManyTiles,
    /// The snapshot and the archive need more sectors than the area has.
    #[error("an area has {free} sectors, and {need} are needed")]
    AreaFull { need: u64, free: u64 },
    /// An allocation failed.
    #[error("out of memory")]
    Memory,
}
