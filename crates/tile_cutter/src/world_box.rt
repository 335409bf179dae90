//! Boxes of the world: of a feature, and of what a tile shows.

ghost use Rattle.std.specs.Prelude.{◌≡◌, ◌-◌, ◌*◌, ◌≤◌, ◌^◌, min};
ghost use Rattle.feature_model.specs.Data.{FeatureData};
ghost use Rattle.feature_model.specs.Types.{LiesInWorld};
ghost use Rattle.tile_cutter.specs.Cut.{feature_cut};
ghost use Rattle.tile_cutter.specs.WorldBox.{bounding_box, first_shown, last_shown, tile_box, Meets};

use crate::coordinates::{EXTENT, MARGIN, WORLD_ZOOM};
use feature_model::{MAX_ZOOM, WorldBox};
use hilbert_id::TileAt;

/// The number of coordinates of the world in one of a zoom.
fn unit(zoom: u8) -> u64
    requires { zoom ≤ MAX_ZOOM }
    ensures { result ≡ 2 ^ (WORLD_ZOOM - zoom) }
{
    1 << (WORLD_ZOOM - zoom)
}

/// The length of `count` coordinates of a zoom in those of the world, at most 2^64 - 1.
fn scaled(count: u64, zoom: u8) -> u64
    requires { zoom ≤ MAX_ZOOM }
    ensures { result ≡ min (count * 2 ^ (WORLD_ZOOM - zoom)) (2 ^ 64 - 1) }
{
    count.saturating_mul(unit(zoom))
}

/// A coordinate, or the world's last where it lies beyond.
fn in_world(coordinate: u64) -> u32
    ensures { result ≡ min (2 ^ 32 - 1) coordinate }
{
    coordinate.min(u32::MAX as u64) as u32
}

/// The first coordinate of the world in the box of a column, or a row.
fn first_shown(at: u32, zoom: u8) -> u32
    requires { zoom ≤ MAX_ZOOM }
    ensures { result ≡ first_shown zoom at }
{
    let start = (EXTENT as u64 * at as u64).saturating_sub(MARGIN as u64);
    let first = scaled(start, zoom);
    in_world(first)
}

/// The last coordinate of the world in the box of a column, or a row.
fn last_shown(at: u32, zoom: u8) -> u32
    requires { zoom ≤ MAX_ZOOM }
    ensures { result ≡ last_shown zoom at }
{
    let end = EXTENT as u64 * at as u64 + (EXTENT + MARGIN + 1) as u64;
    let after = scaled(end, zoom);
    let last = after.saturating_sub(1);
    in_world(last)
}

/// The box of the world that a tile shows: the part of the world in the tile's box, which reaches `MARGIN` beyond each edge.
pub fn tile_box(at: TileAt) -> WorldBox
    requires { at.z ≤ MAX_ZOOM }
    ensures tile_box { result ≡ tile_box at.z at.x at.y }
    // A tile shows nothing of a feature whose bounding box doesn't meet it.
    ensures nothing_apart { (f : FeatureData) → LiesInWorld f.geometry → ¬ Meets (bounding_box f.geometry) result
        → feature_cut f at.z at.x at.y ≡ None }
{
    let left = first_shown(at.x, at.z);
    let top = first_shown(at.y, at.z);
    let right = last_shown(at.x, at.z);
    let bottom = last_shown(at.y, at.z);
    WorldBox {
        x0: left,
        x1: right,
        y0: top,
        y1: bottom,
    }
}
