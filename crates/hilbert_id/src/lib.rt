//! Tiles of a map's pyramid, and their ids along a Hilbert curve (PMTiles 3, 4.1).
//!
//! A zoom `z` has `2^z` columns and rows. Ids number the tiles of zoom 0, then those of zoom 1 and
//! so on, those of one zoom in the order of its curve. No call allocates.
#![tactic(auto)]

mod number;
mod tile_at;

pub use number::{TILE_IDS, id_of, tile_of};
pub use tile_at::TileAt;
