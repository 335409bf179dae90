//! Shapes of vector tiles as the integers of commands (Mapbox Vector Tile 2.1, 4.3), both ways.
#![tactic(auto)]

mod checking;
mod command;
mod decoding;
mod encode;
mod kinds;
mod packed;
mod point;

pub use checking::check_shape;
pub use decoding::{GeometryFault, decode};
pub use encode::{encode_lines, encode_points, encode_rings};
pub use kinds::{Shape, ShapeKind};
pub use packed::PackedShape;
pub use point::Pt;
