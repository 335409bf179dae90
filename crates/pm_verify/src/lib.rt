//! Verifies tile archives (PMTiles 3): metadata, directories, the counts of the header, and, if the tiles are uncompressed Mapbox vector
//! tiles, each of them.
#![tactic(auto)]

mod checking;
mod counting;
mod report;
mod verifying;

pub use report::Report;
pub use verifying::verify;
