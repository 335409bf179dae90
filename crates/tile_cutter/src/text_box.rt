//! The boxes of features in the bytes of their texts.

ghost use Rattle.std.specs.Prelude.{◌≡◌, None, flat_map};
ghost use Rattle.edit_text.specs.Views.{points_view, lines_view, polygons_view, geometry_view};
ghost use Rattle.tile_cutter.specs.Covered.{all_of, all_points};
ghost use Rattle.tile_cutter.specs.Widened.{bounds_after};
ghost use Rattle.tile_cutter.specs.WorldBox.{bounding_box};

use crate::reach::{or_origin, widened};
use edit_text::{FeatureText, GeometryText, Lines, Points, Polygons};
use feature_model::WorldBox;

/// The box with the points of a list.
pub(crate) fn widened_by_points(bounds: Option<WorldBox>, points: Points<'_>) -> Option<WorldBox>
    ensures { result ≡ bounds_after bounds (points_view points.entry) }
{
    let mut bounds = bounds;
    for point in points {
        bounds = Some(widened(bounds, point));
    }
    bounds
}

/// The box with the points of lines.
fn widened_by_lines(bounds: Option<WorldBox>, lines: Lines<'_>) -> Option<WorldBox>
    ensures { result ≡ bounds_after bounds (all_of (lines_view lines.entry)) }
{
    let mut bounds = bounds;
    for line in lines {
        bounds = widened_by_points(bounds, line);
    }
    bounds
}

/// The box with the points of polygons.
fn widened_by_polygons(bounds: Option<WorldBox>, polygons: Polygons<'_>) -> Option<WorldBox>
    ensures { result ≡ bounds_after bounds (flat_map all_of (polygons_view polygons.entry)) }
{
    let mut bounds = bounds;
    for rings in polygons {
        bounds = widened_by_lines(bounds, rings);
    }
    bounds
}

/// The bounding box of a geometry.
fn bounds_of_text(geometry: GeometryText<'_>) -> Option<WorldBox>
    ensures { result ≡ bounds_after None (all_points (geometry_view geometry.entry)) }
{
    match geometry {
        GeometryText::Points(points) => widened_by_points(None, points),
        GeometryText::Lines(lines) => widened_by_lines(None, lines),
        GeometryText::Polygons(polygons) => widened_by_polygons(None, polygons),
    }
}

/// The bounding box of a feature; without points, the world's upper left corner.
pub fn bounding_box(feature: FeatureText<'_>) -> WorldBox
    ensures { result ≡ bounding_box (geometry_view feature.entry.geometry) }
{
    let bounds = bounds_of_text(feature.geometry);
    or_origin(bounds)
}
