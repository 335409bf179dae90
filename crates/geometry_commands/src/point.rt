//! Points.

/// A point of a tile, in units of the tile's extent: x to the right and y down from its left upper corner.
#[derive(Clone, Copy, Debug, PartialEq, Eq)]
pub struct Pt {
    pub x: i64,
    pub y: i64,
}

impl Pt {
    /// The cursor before the first command.
    pub const ORIGIN: Pt = Pt { x: 0, y: 0 };
}
