//! What a tile holds.

use geometry_commands::Shape;

/// The value of a tag (Mapbox Vector Tile 2.1, 4.4). A text is a part of the tile's bytes.
#[derive(Clone, Copy, Debug, PartialEq, Eq)]
pub enum TagValue<'a> {
    Text(&'a str),
    /// A whole number from 0 up, whichever of the three kinds of whole numbers said it.
    Natural(u64),
    /// A whole number below 0.
    Negative(i64),
    Truth(bool),
    /// The bytes of a floating point number of 32 bits, lowest first.
    Float([u8; 4]),
    /// The bytes of a floating point number of 64 bits, lowest first.
    Double([u8; 8]),
}

/// A feature of a layer (Mapbox Vector Tile 2.1, 4.2).
#[derive(Debug, PartialEq, Eq, Drop)]
pub struct TileFeature<'a> {
    pub id: Option<u64>,
    /// Keys and values, in the order of the bytes. A key index comes once, but two entries of the keys may be one text.
    pub tags: Vec<(&'a str, TagValue<'a>)>,
    pub shape: Shape,
}

/// A layer of a tile (Mapbox Vector Tile 2.1, 4.1).
#[derive(Debug, PartialEq, Eq, Drop)]
pub struct Layer<'a> {
    /// Unlike the names of the tile's other layers. It may be empty.
    pub name: &'a str,
    /// 1 or 2.
    pub version: u32,
    /// How many units the tile is wide and high; at least 1.
    pub extent: u32,
    pub features: Vec<TileFeature<'a>>,
}
