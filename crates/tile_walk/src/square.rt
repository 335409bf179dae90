//! Squares of tiles that the curve goes through without leaving them.

ghost use Rattle.std.specs.Prelude.{◌≡◌, ◌+◌, ◌-◌, ◌<◌, ◌≤◌, ◌^◌};
ghost use Rattle.hilbert_id.specs.declared.number.TheConstants.{TILE_IDS};

use crate::numbered::Numbered;

/// A square of a zoom that the curve goes through without leaving it, with the boxes that meet it, in the square's own columns and rows:
/// those in which its part of the curve is the curve of a lower zoom.
#[derive(Drop)]
pub(crate) struct Square {
    /// The zoom of which its part of the curve is the curve.
    pub(crate) zoom: u8,
    /// The id of its first tile.
    pub(crate) first: u64,
    pub(crate) boxes: Vec<Numbered>,
    pub(crate) ghost height: { zoom ≤ 31 },
    pub(crate) ghost ids: { first + 4 ^ zoom ≤ TILE_IDS },
}

/// Half the side of a square of this zoom.
pub(crate) fn half_side(zoom: u8) -> u32
    requires { (0 < zoom) × (zoom ≤ 31) }
    ensures half { result ≡ 2 ^ (zoom - 1) }
    ensures some { 0 < result }
    ensures small { result ≤ 2 ^ 30 }
{
    1 << (zoom - 1)
}
