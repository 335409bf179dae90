//! Tile archives (PMTiles 3): opened, looked up, listed, verified and built, with their headers, directories and tile ids. All of it
//! is re-exported from the crates below; their contracts hold here too. README.md has an example.
#![tactic(auto)]

pub use byte_source::{Bytes, ReadFault};
pub use hilbert_id::{TILE_IDS, TileAt, id_of, tile_of};
pub use pm_archive::{Archive, ArchiveFault, Count, Lookup, Section};
pub use pm_build::{ArchiveBuilder, BuildFault, BuiltArchive, MAX_ENTRIES};
pub use pm_directory::{DirectoryEntry, DirectoryFault, find, read_directory, write_directory};
pub use pm_header::{
    BROTLI, CLUSTERED, GZIP, HEADER_BYTES, Header, HeaderFault, NOT_COMPRESSED, SectionSpan,
    UNKNOWN_COMPRESSION, VECTOR_TILES, ZSTD,
};
pub use pm_metadata::is_metadata;
pub use pm_verify::{Report, verify};
