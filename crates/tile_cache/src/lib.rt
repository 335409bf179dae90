//! A cache of tiles that is invalidated by region: the number of the newest edit of each cell of the world, and tiles, cut or read before,
//! each with the number of the edit as of which its bytes are right. A cached tile is used unless a newer edit touched a cell of its box,
//! or one that shares its number with such a cell. Nothing here depends on a map or a disk.
#![tactic(auto)]

mod cached_tiles;
mod touch_grid;
mod wide_grid;

pub use cached_tiles::{
    CachedTile, MAX_CACHED_BYTES, MAX_CACHED_TILES, MAX_TILE_BYTES, Origin, TileCache, TileKey,
};
pub use touch_grid::{LEVEL_CELLS, TouchGrid, WIDE_LEVELS};
pub use wide_grid::WideGrid;
