//! Boxes of tiles with a number.

use tile_cutter::TileRange;

/// A box of tiles of a zoom, and a number.
#[derive(Clone, Copy)]
pub struct Numbered {
    /// The tiles. A range whose last column or row is before its first has none.
    pub range: TileRange,
    /// The number, of whatever meaning; boxes may have the same.
    pub number: u64,
}
