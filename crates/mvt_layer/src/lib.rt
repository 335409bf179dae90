//! Vector tiles (Mapbox Vector Tile 2.1, 4): what a tile holds, what bytes say, and the reader.
#![tactic(auto)]

mod checking;
mod fault;
mod feature_fields;
mod features;
pub mod field_numbers;
mod layer_fields;
mod layers;
mod named;
mod passes;
mod tile;
mod used_keys;
mod values;

pub use checking::check_tile;
pub use fault::TileFault;
pub use layers::{CURRENT_VERSION, DEFAULT_EXTENT, DEFAULT_VERSION, read_tile};
pub use tile::{Layer, TagValue, TileFeature};
