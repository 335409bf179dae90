//! Builds archives from tiles (PMTiles 3): header, root directory, metadata, leaf directories, contents, without gaps. Tiles of
//! consecutive ids with equal contents are joined to runs, and each content is stored once, both as the tiles are added (4.2).
#![tactic(auto)]

mod ahead;
mod builder;
mod building;
mod built;
mod checks;
mod content_list;
mod contents;
mod counter;
mod directories;
mod fault;
mod hashing;
mod header;
mod index;
mod limit;
mod placing;
mod run;
mod runs;
mod tile_content;

pub use ahead::AHEAD_BYTES;
pub use builder::ArchiveBuilder;
pub use built::BuiltArchive;
pub use counter::ArchiveCounter;
pub use fault::BuildFault;
pub use limit::MAX_ENTRIES;
