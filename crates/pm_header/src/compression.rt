//! How a header says that bytes are compressed (PMTiles 3, 3.2). A number without a name here is a compression that the format doesn't define.

/// The archive doesn't say how.
pub const UNKNOWN_COMPRESSION: u8 = 0;
/// Not compressed.
pub const NOT_COMPRESSED: u8 = 1;
/// Compressed by gzip.
pub const GZIP: u8 = 2;
/// Compressed by brotli.
pub const BROTLI: u8 = 3;
/// Compressed by zstd.
pub const ZSTD: u8 = 4;
