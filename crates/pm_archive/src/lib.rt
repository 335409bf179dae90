//! Reads tile archives (PMTiles 3) over any source of bytes: opens them, lists their tiles, looks up the content of a tile id.
//!
//! Sections and contents may be stored in any order, and leaf directories may have leaf directories, up to three levels below the
//! root. Nothing is decompressed: an archive with compressed directories is refused. Metadata and contents are bytes here:
//! `pm_metadata` and `pm_verify` judge them.
#![tactic(auto)]

mod archive;
mod content_span;
mod fault;
mod leaf;
mod leaves;
mod limits;
mod listing;
mod looking;
mod lookup;
mod opening;
mod reading;

pub use archive::Archive;
pub use content_span::ContentSpan;
pub use fault::{ArchiveFault, Count, Section};
pub use lookup::Lookup;
