//! The limits of an archive, and of the cache of leaf directories.

/// The root directory ends at this offset or before (PMTiles 3, 4).
pub(crate) const OPENING_END: u64 = 16_384;

/// The most levels of leaf directories.
pub(crate) const MAX_LEAF_LEVELS: u8 = 3;

/// The most stored bytes of a leaf directory that is cached. This bounds the memory that it takes.
pub(crate) const MAX_CACHED_LEAF_BYTES: u32 = 65_536;

/// The most stored bytes of all cached leaf directories.
pub(crate) const MAX_CACHED_BYTES: u32 = 1_048_576;
