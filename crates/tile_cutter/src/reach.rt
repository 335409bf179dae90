//! The tiles that a feature covers, and their number.

ghost use Rattle.std.specs.Prelude.{ℕ, ◌≡◌, ◌+◌, ◌-◌, ◌*◌, ◌<◌, ◌≤◌, ◌^◌, ◌↔◌, None, Some, map, flat_map, IfErr, IsOk};
ghost use Rattle.feature_model.specs.Data.{FeatureData, GeometryData, feature_data, geometry_data};
ghost use Rattle.tile_cutter.specs.Cut.{quantised_axis, feature_cut};
ghost use Rattle.tile_cutter.specs.Covered.{all_of, all_points, first_met, last_met, covered, tiles_of, reach_of, IsInRange};
ghost use Rattle.tile_cutter.specs.Widened.{widened, bounds_after, box_or_origin, range_of};
ghost use Rattle.tile_cutter.specs.Passes.{lists_of};
ghost use Rattle.tile_cutter.specs.WorldBox.{bounding_box};

use crate::coordinates::{EXTENT, MARGIN, quantise};
use feature_model::{EditFault, Feature, Geometry, MAX_ZOOM, World, WorldBox};

/// The most tiles that a feature may cover at all its zooms together.
pub const MAX_TILES: u64 = 262_144;

/// Tiles of one zoom, ends included.
#[derive(Clone, Copy)]
pub struct TileRange {
    /// The first column.
    pub x0: u32,
    /// The last column.
    pub x1: u32,
    /// The first row.
    pub y0: u32,
    /// The last row.
    pub y1: u32,
}

/// The box with one point more.
pub(crate) fn widened(bounds: Option<WorldBox>, point: World) -> WorldBox
    ensures { result ≡ widened bounds point }
{
    match bounds {
        None => WorldBox {
            x0: point.x,
            x1: point.x,
            y0: point.y,
            y1: point.y,
        },
        Some(bounds) => WorldBox {
            x0: bounds.x0.min(point.x),
            x1: bounds.x1.max(point.x),
            y0: bounds.y0.min(point.y),
            y1: bounds.y1.max(point.y),
        },
    }
}

/// The box with the points of a list.
fn widened_by_list(bounds: Option<WorldBox>, points: &[World]) -> Option<WorldBox>
    ensures { result ≡ bounds_after bounds points.now }
{
    let mut bounds = bounds;
    for point in points {
        bounds = Some(widened(bounds, *point));
    }
    bounds
}

/// The box with the points of lists.
fn widened_by_lists(bounds: Option<WorldBox>, lists: &[Vec<World>]) -> Option<WorldBox>
    ensures { result ≡ bounds_after bounds (all_of (lists_of lists.now)) }
{
    let mut bounds = bounds;
    for list in lists {
        bounds = widened_by_list(bounds, list);
    }
    bounds
}

/// The bounding box of polygons.
fn bounds_of_polygons(polygons: &[Vec<Vec<World>>]) -> Option<WorldBox>
    ensures { result ≡ bounds_after None (flat_map all_of (map (λ p. lists_of p.items) polygons.now)) }
{
    let mut bounds = None;
    for rings in polygons {
        bounds = widened_by_lists(bounds, rings);
    }
    bounds
}

/// The bounding box of a geometry.
pub(crate) fn bounds_of(geometry: &Geometry) -> Option<WorldBox>
    ensures { result ≡ bounds_after None (all_points (geometry_data geometry.now)) }
{
    match geometry {
        Geometry::Points(points) => widened_by_list(None, points),
        Geometry::Lines(lines) => widened_by_lists(None, lines),
        Geometry::Polygons(polygons) => bounds_of_polygons(polygons),
    }
}

/// The box, or that of the world's upper left corner alone.
pub(crate) fn or_origin(bounds: Option<WorldBox>) -> WorldBox
    ensures { result ≡ box_or_origin bounds }
{
    match bounds {
        Some(bounds) => bounds,
        None => WorldBox {
            x0: 0,
            x1: 0,
            y0: 0,
            y1: 0,
        },
    }
}

/// The first column, or row, of a zoom whose box reaches a coordinate of the world.
fn first_met(least: u32, zoom: u8) -> u32
    requires { zoom ≤ MAX_ZOOM }
    ensures { result ≡ first_met (quantised_axis zoom least) }
{
    quantise(least, zoom)
        .saturating_sub(EXTENT + MARGIN)
        .div_ceil(EXTENT)
}

/// The last column, or row, of a zoom whose box reaches a coordinate of the world.
fn last_met(greatest: u32, zoom: u8) -> u32
    requires { zoom ≤ MAX_ZOOM }
    ensures { result ≡ last_met zoom (quantised_axis zoom greatest) }
{
    let last = (1 << zoom) - 1;
    last.min((quantise(greatest, zoom) + MARGIN) / EXTENT)
}

/// The tiles of a zoom whose boxes a bounding box meets; without points, those of the world's upper left corner.
pub(crate) fn range_of(bounds: Option<WorldBox>, zoom: u8) -> TileRange
    requires { zoom ≤ MAX_ZOOM }
    ensures { result ≡ range_of bounds zoom }
{
    let bounds = or_origin(bounds);
    TileRange {
        x0: first_met(bounds.x0, zoom),
        x1: last_met(bounds.x1, zoom),
        y0: first_met(bounds.y0, zoom),
        y1: last_met(bounds.y1, zoom),
    }
}

/// How many tiles a range has.
fn tiles_of(range: TileRange) -> u64
    requires columns { range.x1 < 2 ^ MAX_ZOOM }
    requires rows { range.y1 < 2 ^ MAX_ZOOM }
    ensures tiles { result ≡ tiles_of range }
    ensures bound { result ≤ 4 ^ MAX_ZOOM }
{
    let columns = (u64::from(range.x1) + 1).saturating_sub(u64::from(range.x0));
    let rows = (u64::from(range.y1) + 1).saturating_sub(u64::from(range.y0));
    columns * rows
}

/// The tiles of a zoom whose boxes a box of the world meets. If it is the bounding box of a feature, the feature covers these tiles, and
/// no other tile of the zoom shows anything of it.
pub fn tiles_met(bounds: WorldBox, zoom: u8) -> TileRange
    requires { zoom ≤ MAX_ZOOM }
    ensures range { result ≡ range_of (Some bounds) zoom }
    ensures covered { (g : GeometryData) → bounds ≡ bounding_box g → result ≡ covered g zoom }
    ensures nothing_outside { (f : FeatureData) (column row : ℕ) → bounds ≡ bounding_box f.geometry → column < 2 ^ zoom → row < 2 ^ zoom
        → ¬ IsInRange result column row → feature_cut f zoom column row ≡ None }
{
    range_of(Some(bounds), zoom)
}

/// The reach of a feature: how many tiles it covers at all its zooms together.
pub fn cover_count(feature: &Feature) -> u64
    requires { feature.now.maxzoom ≤ MAX_ZOOM }
    ensures { result ≡ reach_of (feature_data feature.now) }
{
    let bounds = bounds_of(&feature.geometry);
    let mut count = 0;
    for zoom in feature.minzoom..feature.maxzoom + 1 {
        count += tiles_of(range_of(bounds, zoom));
    }
    count
}

/// Whether the reach of a feature is at most `MAX_TILES`; the fault is `Reach`.
pub fn check_reach(feature: &Feature) -> Result<(), EditFault>
    requires { feature.now.maxzoom ≤ MAX_ZOOM }
    ensures passes { IsOk result ↔ (reach_of (feature_data feature.now) ≤ MAX_TILES) }
    ensures fault { IfErr result (λ e. e ≡ EditFault.Reach) }
{
    if cover_count(feature) > MAX_TILES {
        return Err(EditFault::Reach);
    }
    Ok(())
}
