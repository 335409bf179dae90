//! Cuts features for tiles: what a tile shows of a feature, and which tiles a feature covers.
#![tactic(auto)]

mod bounds;
mod coordinates;
mod cutting;
mod lines;
mod points;
mod reach;
mod rings;
mod text_box;
mod world_box;

pub use coordinates::{EXTENT, MARGIN, WORLD_ZOOM};
pub use cutting::{put_cut, shown_value};
pub use reach::{MAX_TILES, TileRange, check_reach, cover_count, tiles_met};
pub use text_box::bounding_box;
pub use world_box::tile_box;
