//! The limits of a format.

/// The fewest sectors that a disk can be formatted with.
pub const MIN_SECTORS: u64 = 64;
/// The most sectors that a disk can be formatted with.
pub const MAX_SECTORS: u64 = 16_777_216;
/// The journal's first sector. Before it are the sector of the format and the two sectors of roots.
pub const JOURNAL_START: u64 = 3;
/// The first version of the format of a disk.
pub const FIRST_VERSION: u32 = 1;
/// The last version of the format of a disk. `format` writes it, and `upgrade` raises a disk to it.
pub const LAST_VERSION: u32 = 2;
