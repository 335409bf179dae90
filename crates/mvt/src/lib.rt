//! Vector tiles (Mapbox Vector Tile 2.1): decoded, encoded, and their geometry. All of it is re-exported from the crates below;
//! their contracts hold here too. README.md has an example.
#![tactic(auto)]

pub use geometry_commands::{
    GeometryFault, PackedShape, Pt, Shape, ShapeKind, decode, encode_lines, encode_points,
    encode_rings,
};
pub use mvt_layer::{
    CURRENT_VERSION, DEFAULT_EXTENT, DEFAULT_VERSION, Layer, TagValue, TileFault, TileFeature,
    read_tile,
};
pub use mvt_write::{LayerWriter, TileWriter, write_tile};
pub use pb_wire as wire;
