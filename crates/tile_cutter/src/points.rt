//! What a tile shows of points.

ghost use Rattle.std.specs.Prelude.{◌≡◌, ◌≤◌, ◌++◌, length, All, IfOk, OnOk};
ghost use Rattle.std.specs.List.{flat_map};
ghost use Rattle.pb_wire.specs.Varint.{varint};
ghost use Rattle.feature_model.specs.Limits.{CountFits};
ghost use Rattle.edit_text.specs.Views.{points_view};
ghost use Rattle.geometry_commands.specs.Commands.{steps};
ghost use Rattle.geometry_commands.specs.Shapes as shapes;
ghost use Rattle.geometry_commands.specs.Shapes.{last_of};
ghost use Rattle.tile_cutter.specs.Cut.{points_cut, unless_empty};
ghost use Rattle.tile_cutter.specs.Passes.{is_shown};
ghost use Rattle.tile_cutter.specs.Put.{IsClear, HasPut};
ghost use Rattle.tile_cutter.specs.Range.{IsOfTile};

use crate::bounds::is_in_box;
use crate::coordinates::{position, repeats};
use edit_text::Points;
use feature_model::MAX_ZOOM;
use geometry_commands::{PackedShape, Pt, ShapeKind};
use hilbert_id::TileAt;
use std::alloc::AllocError;

/// Whether a tile shows a point: it differs from the one before it, and is in the box.
fn is_shown(before: Option<Pt>, here: Pt) -> bool
    ensures { result ≡ is_shown before here }
{
    !repeats(before, here) && is_in_box(here)
}

/// How many points a tile shows.
fn count_shown(points: Points<'_>, at: TileAt) -> u32
    requires zoom { at.z ≤ MAX_ZOOM }
    requires limits { CountFits 1 (points_view points) }
    ensures { result ≡ length (points_cut at.z at.x at.y (points_view points.entry)) }
{
    let mut count = 0;
    let mut before = None;
    for point in points {
        let here = position(point, at);
        if is_shown(before, here) {
            count += 1;
        }
        before = Some(here);
    }
    count
}

/// Appends the way to the points that a tile shows.
fn put_shown(out: &mut PackedShape, points: Points<'_>, at: TileAt) -> Result<(), AllocError>
    requires zoom { at.z ≤ MAX_ZOOM }
    requires cursor { IsOfTile at.x at.y out.old.at }
    ensures bytes { OnOk result
        (out.new.bytes.items ≡ out.old.bytes.items ++ flat_map varint (steps out.old.at (points_cut at.z at.x at.y (points_view points.entry)))) }
    ensures at { OnOk result (out.new.at ≡ last_of out.old.at (points_cut at.z at.x at.y (points_view points.entry))) }
    ensures of_tile { OnOk result (All (IsOfTile at.x at.y) (points_cut at.z at.x at.y (points_view points.entry))) }
{
    let mut before = None;
    for point in points {
        let here = position(point, at);
        if is_shown(before, here) {
            out.put_point(here)?;
        }
        before = Some(here);
    }
    Ok(())
}

/// Writes what a tile shows of points.
pub(crate) fn put_points(
    out: &mut PackedShape,
    points: Points<'_>,
    at: TileAt,
) -> Result<Option<ShapeKind>, AllocError>
    requires zoom { at.z ≤ MAX_ZOOM }
    requires limits { CountFits 1 (points_view points) }
    requires clear { IsClear out.old }
    ensures { IfOk result (λ o. HasPut out.new o (unless_empty shapes.points (points_cut at.z at.x at.y (points_view points.entry)))) }
{
    let count = count_shown(points, at);
    if count == 0 {
        return Ok(None);
    }
    out.begin_points(count)?;
    put_shown(out, points, at)?;
    Ok(Some(ShapeKind::Points))
}
