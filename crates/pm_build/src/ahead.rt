//! The parts in which a long content is put ahead.

/// The bytes of a part of a content that is put ahead by parts. `ArchiveBuilder::put_ahead` takes parts of any length.
pub const AHEAD_BYTES: usize = 262_144;
