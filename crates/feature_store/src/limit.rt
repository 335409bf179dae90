//! The limit of a map.

/// The texts of all features of a store, as the journal and a snapshot have them, are fewer bytes than this together. A
/// tag takes three bytes of a text at least, so that 32 bits count the tags of any layer of a tile.
pub const TEXTS_END: u64 = 8_589_934_592;
