//! The header of a tile archive: its first 127 bytes (PMTiles 3, 3). No call allocates memory.
#![tactic(auto)]

mod compression;
mod fault;
mod header;
mod reading;
mod section_span;
mod writing;

pub use compression::{BROTLI, GZIP, NOT_COMPRESSED, UNKNOWN_COMPRESSION, ZSTD};
pub use fault::HeaderFault;
pub use header::{CLUSTERED, HEADER_BYTES, Header, VECTOR_TILES};
pub use section_span::SectionSpan;
