//! Why a tile was not added.

use thiserror::Error;

/// Why a tile was not added.
#[derive(Clone, Copy, Debug, PartialEq, Eq, Error)]
pub enum BuildFault {
    /// The tiles need more than `MAX_ENTRIES` entries.
    #[error("the tiles need more than 131,072 entries")]
    TooManyEntries,
    /// An allocation failed.
    #[error("out of memory")]
    Memory,
}
