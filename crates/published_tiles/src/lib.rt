//! Tiles read from the archive stored on a disk. A tile costs a search and the reads of its content.
#![tactic(auto)]

mod opened;
mod place;
mod published_tiles;
mod reading;
mod tile_reading;

pub use place::ArchivePlace;
pub use published_tiles::PublishedTiles;
