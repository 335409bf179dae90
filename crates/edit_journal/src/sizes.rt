//! The limits of records, and the form of their sectors.

use sector_disk::SECTOR_BYTES;

/// How many bytes the front of a sector has: its kind, the record's version, a count or index of parts, the edit's number and the length
/// of its text.
pub const FRONT_BYTES: usize = 16;
/// How many bytes of a text a sector has, after its front.
pub const PART_BYTES: usize = SECTOR_BYTES - FRONT_BYTES;
/// The first byte of a head.
pub const HEAD_KIND: u8 = 1;
/// The first byte of a body.
pub const BODY_KIND: u8 = 2;
/// The first version of records: the text of one change.
pub const FIRST_RECORD_VERSION: u32 = 1;
/// The last version of records: a count byte, and the texts of as many changes.
pub const LAST_RECORD_VERSION: u32 = 2;
/// The most bytes of the text of a record of the first version. One of the last version has at most a byte more, its count.
pub const MAX_RECORD_BYTES: u32 = 32_768;
/// Where first records have to go for a new one, places are freed for this part of the ring at least: so their start is looked for once
/// in a while alone.
pub const FREED_PART: u64 = 64;
