//! The box of a tile, with its margin.

ghost use Rattle.std.specs.Prelude.{◌≡◌, ◌⊎◌, ◌≤◌, false, [], ◌∷◌};
ghost use Rattle.std.specs.Bool.{Decides};
ghost use Rattle.edit_text.specs.Views.{points_view};
ghost use Rattle.tile_cutter.specs.Covered.{IsInRange};
ghost use Rattle.tile_cutter.specs.Cut.{in_box, least_corner, greatest_corner, reaches_box, meets_box, tile_ring, line_cut};

use crate::coordinates::{EXTENT, MARGIN};
use crate::reach::{TileRange, range_of};
use crate::text_box::widened_by_points;
use edit_text::Points;
use feature_model::MAX_ZOOM;
use geometry_commands::Pt;
use hilbert_id::TileAt;

/// How far the box of a tile reaches to the left and upwards.
const BOX_START: i64 = -(MARGIN as i64);

/// How far the box of a tile reaches to the right and downwards.
const BOX_END: i64 = (EXTENT + MARGIN) as i64;

/// Whether a point is in the box of its tile.
pub(crate) fn is_in_box(point: Pt) -> bool
    ensures { result ≡ in_box point }
{
    BOX_START <= point.x && point.x <= BOX_END && BOX_START <= point.y && point.y <= BOX_END
}

/// The upper left corner of the bounding box of two points.
fn least_corner(p: Pt, q: Pt) -> Pt
    ensures { result ≡ least_corner p q }
{
    Pt {
        x: p.x.min(q.x),
        y: p.y.min(q.y),
    }
}

/// The lower right corner of the bounding box of two points.
fn greatest_corner(p: Pt, q: Pt) -> Pt
    ensures { result ≡ greatest_corner p q }
{
    Pt {
        x: p.x.max(q.x),
        y: p.y.max(q.y),
    }
}

/// Whether a bounding box, by its corners, meets the box of its tile.
fn reaches_box(least: Pt, greatest: Pt) -> bool
    ensures { result ≡ reaches_box least greatest }
{
    least.x <= BOX_END && BOX_START <= greatest.x && least.y <= BOX_END && BOX_START <= greatest.y
}

/// Whether the bounding box of a segment meets the box of its tile.
pub(crate) fn segment_meets_box(from: Pt, to: Pt) -> bool
    ensures { result ≡ meets_box (from ∷ to ∷ []) }
{
    reaches_box(least_corner(from, to), greatest_corner(from, to))
}

/// Whether a range has a tile.
fn has_tile(range: TileRange, at: TileAt) -> bool
    ensures { Decides result (IsInRange range at.x at.y) }
{
    range.x0 <= at.x && at.x <= range.x1 && range.y0 <= at.y && at.y <= range.y1
}

/// Whether the bounding box of points of the world meets the box of a tile.
pub(crate) fn points_meet_box(points: Points<'_>, at: TileAt) -> bool
    requires { at.z ≤ MAX_ZOOM }
    // The tile shows nothing of a line whose box doesn't.
    ensures line { result ≡ false → line_cut at.z at.x at.y (points_view points.entry) ≡ [] }
    // A ring that has points in the tile meets the box as its points of the world do.
    ensures ring { (tile_ring at.z at.x at.y (points_view points.entry) ≡ []) ⊎ (result ≡ meets_box (tile_ring at.z at.x at.y (points_view points.entry))) }
{
    has_tile(range_of(widened_by_points(None, points), at.z), at)
}
