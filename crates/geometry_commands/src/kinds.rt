//! Shapes and their kinds.

use crate::point::Pt;

/// The geometry type that a feature states (Mapbox Vector Tile 2.1, 4.3.4).
#[derive(Clone, Copy, Debug, PartialEq, Eq)]
pub enum ShapeKind {
    /// No kind is given: the integers may be any.
    Unknown,
    Points,
    Lines,
    Polygons,
}

/// The shape of a feature.
#[derive(Debug, PartialEq, Eq, Drop)]
pub enum Shape {
    Points(Vec<Pt>),
    Lines(Vec<Vec<Pt>>),
    /// Rings of polygons, each without its first point repeated at the end.
    Rings(Vec<Vec<Pt>>),
    /// The integers of a shape of unknown kind.
    Raw(Vec<u32>),
}
