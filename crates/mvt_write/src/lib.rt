//! Encodes vector tiles.
#![tactic(auto)]

mod codes;
mod ending;
mod entries;
mod feature;
mod field;
mod layer;
mod layer_writer;
mod pool;
mod room;
mod span;
mod spent;
mod tag_pools;
mod tags;
mod tile;
mod tile_writer;
mod value;

pub use layer_writer::LayerWriter;
pub use tile::write_tile;
pub use tile_writer::TileWriter;
