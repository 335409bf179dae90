//! The root of a generation.

/// What counts on a disk, as of one generation.
#[derive(Clone, Copy, Debug, PartialEq, Eq)]
pub struct Root {
    /// How many roots were written before this one. Its sector and its area are those of an even or an odd generation.
    pub generation: u64,
    /// How many edits the snapshot has.
    pub edits: u64,
    /// Where the journal goes on after the snapshot: the index of its sector among the journal's, from 0 on.
    pub journal_at: u64,
    /// The length of the snapshot in the area, in bytes.
    pub snapshot_len: u64,
    /// The length of the archive after it, in bytes.
    pub archive_len: u64,
}
