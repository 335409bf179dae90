//! The metadata of tile archives (PMTiles 3), and what an archive is with it: sections, entries, counts, and metadata in JSON.
#![tactic(auto)]

mod metadata;

pub use metadata::is_metadata;
