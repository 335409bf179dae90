//! Coordinates of the world, of a zoom and of a tile.

ghost use Rattle.std.specs.Prelude.{◌≡◌, pos, ◌-ℤ◌, ◌*◌, ◌<◌, ◌≤◌, ◌^◌};
ghost use Rattle.tile_cutter.specs.Cut.{quantised_axis, quantised, position_in};
ghost use Rattle.tile_cutter.specs.Passes.{repeats};
ghost use Rattle.tile_cutter.specs.Range.{IsOfSide, IsOfTile};

use feature_model::{MAX_ZOOM, World};
use geometry_commands::Pt;
use hilbert_id::TileAt;
use mvt_layer::DEFAULT_EXTENT;

/// How many coordinates a tile has along each side.
pub const EXTENT: u32 = DEFAULT_EXTENT;

/// How many coordinates the box of a tile reaches beyond each side.
pub const MARGIN: u32 = 64;

/// The zoom at which the coordinates of tiles are those of the world.
pub const WORLD_ZOOM: u8 = 20;

/// A coordinate of the world as a zoom sees it, rounded down.
pub(crate) fn quantise(coordinate: u32, zoom: u8) -> u32
    requires { zoom ≤ MAX_ZOOM }
    ensures quantised { result ≡ quantised_axis zoom coordinate }
    ensures bound { result < 2 ^ 31 }
{
    coordinate >> (WORLD_ZOOM - zoom)
}

/// A coordinate of the world in the tiles of this column or row, at their zoom.
fn coordinate_in(at: u32, zoom: u8, coordinate: u32) -> i64
    requires { zoom ≤ MAX_ZOOM }
    ensures position { result ≡ pos (quantised_axis zoom coordinate) -ℤ pos (EXTENT * at) }
    ensures of_side { IsOfSide at result }
{
    i64::from(quantise(coordinate, zoom)) - i64::from(EXTENT) * i64::from(at)
}

/// The coordinates of a point of the world in a tile, at the tile's zoom.
pub(crate) fn position(point: World, at: TileAt) -> Pt
    requires { at.z ≤ MAX_ZOOM }
    ensures position { result ≡ position_in at.x at.y (quantised at.z point) }
    ensures of_tile { IsOfTile at.x at.y result }
{
    Pt {
        x: coordinate_in(at.x, at.z, point.x),
        y: coordinate_in(at.y, at.z, point.y),
    }
}

/// Whether a point is the one before it again.
pub(crate) fn repeats(before: Option<Pt>, here: Pt) -> bool
    ensures { result ≡ repeats before here }
{
    Some(here) == before
}
