//! Tile coordinates.

ghost use Rattle.std.specs.Prelude.{◌<◌, ◌≤◌, ◌^◌};

/// A tile of the pyramid, by its zoom, its column and its row.
///
/// Columns count rightwards and rows downwards from 0, as in the paths `z/x/y` of web maps.
#[derive(Clone, Copy, Debug, PartialEq, Eq)]
pub struct TileAt {
    /// The zoom, 0 to 31.
    pub z: u8,
    /// The column, below `2^z`.
    pub x: u32,
    /// The row, below `2^z`.
    pub y: u32,
    pub ghost zoom: { z ≤ 31 },
    pub ghost column: { x < 2 ^ z },
    pub ghost row: { y < 2 ^ z },
}

impl TileAt {
    ghost use Rattle.hilbert_id.specs.Place.{IsPlace};
    ghost use Rattle.std.specs.Prelude.{◌≡◌, IfSome, IsSome, ◌↔◌};

    /// The tile at zoom `z`, column `x` and row `y`, or `None` if the zoom is above 31 or has no such column or row.
    pub fn new(z: u8, x: u32, y: u32) -> Option<TileAt>
        ensures there { IsSome result ↔ IsPlace z x y }
        ensures same { IfSome result (λ at. (at.z ≡ z) × (at.x ≡ x) × (at.y ≡ y)) }
    {
        if z > 31 || x >= 1 << z || y >= 1 << z {
            return None;
        }
        Some(TileAt { z, x, y })
    }
}
