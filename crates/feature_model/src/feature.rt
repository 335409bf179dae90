//! Features, their parts, and edits.

/// A point of the world: `x` grows to the right, `y` downwards, and the whole world is 2^32 wide and high.
#[derive(Clone, Copy, Debug, PartialEq, Eq)]
pub struct World {
    pub x: u32,
    pub y: u32,
}

/// A box of the world: `x0` to `x1` across and `y0` to `y1` down, ends included.
///
/// Nothing asks for `x0 <= x1`: a box with `x1 < x0` meets those that reach over both, and likewise down.
#[derive(Clone, Copy, Debug, PartialEq, Eq)]
pub struct WorldBox {
    pub x0: u32,
    pub x1: u32,
    pub y0: u32,
    pub y1: u32,
}

/// What a feature is made of.
#[derive(Debug, Drop)]
pub enum Geometry {
    /// Single points.
    Points(Vec<World>),
    /// Lines, each of two points or more.
    Lines(Vec<Vec<World>>),
    /// Polygons, each an outer ring and then its inner rings, of three points or more each.
    Polygons(Vec<Vec<Vec<World>>>),
}

/// The value of a tag.
#[derive(Debug, Drop)]
pub enum EditValue {
    Text(String),
    Natural(u64),
    /// A number below 0.
    Negative(i64),
    Truth(bool),
}

/// A key and its value.
#[derive(Debug, Drop)]
pub struct Tag {
    pub key: String,
    pub value: EditValue,
}

/// A feature of the map, without its number.
#[derive(Debug, Drop)]
pub struct Feature {
    /// The name of its layer.
    pub layer: String,
    /// The first zoom that shows it.
    pub minzoom: u8,
    /// The last zoom that shows it.
    pub maxzoom: u8,
    pub geometry: Geometry,
    /// Its tags, with strictly ascending keys.
    pub tags: Vec<Tag>,
}

/// A change of the map.
#[derive(Debug, Drop)]
pub enum Change {
    /// The number has this feature from now on.
    Put { id: u64, feature: Feature },
    /// The number has no feature from now on.
    Delete { id: u64 },
}

/// Changes of the map that are made together: all of them, or none.
#[derive(Drop)]
pub struct Edit {
    pub changes: Vec<Change>,
}
