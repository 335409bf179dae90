//! The limit of an archive that is built.

/// The most tile entries of an archive that is built.
pub const MAX_ENTRIES: usize = 131_072;
