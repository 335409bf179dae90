//! The lists of a geometry.

ghost use Rattle.std.specs.Prelude.{◌≡◌, ◌^◌, map, true, false, OnOk, IfErr};
ghost use Rattle.serde_json.specs.View.{view, items_view};
ghost use Rattle.reader.specs.Reading.{Reads, Gives};
ghost use Rattle.edit_json.specs.Lists.{below, point_at, point_in, items_in, list_of, points_at, lines_at, geometry_at};
ghost use Rattle.edit_json.specs.Outline.{shape_data};
ghost use Rattle.feature_model.specs.declared.limits.TheConstants.{MIN_RING};
ghost use Rattle.feature_model.specs.Limits.{is_count};
ghost use Rattle.feature_model.specs.Data.{geometry_data};

use crate::outline::Shape;
use feature_model::{EditFault, Geometry, MIN_LINE, MIN_RING, World, count_fits};
use serde_json::Value;
use std::alloc::Global;

/// A whole number of 0 to 2^32 - 1.
#[tactic(auto, unfolding(crate::specs::Lists::below))]
fn read_coordinate(value: &Value) -> Option<u32>
    ensures { result ≡ below (2 ^ 32) (view value.now) }
{
    u32::try_from(value.as_u64()?).ok()
}

/// The point `[x,y]`.
#[tactic(auto, unfolding(crate::specs::Lists::point_at, crate::specs::Lists::pair_at))]
fn read_point(value: &Value) -> Option<World>
    ensures { result ≡ point_at (view value.now) }
{
    match value.as_array()?.as_slice() {
        [x, y] => Some(World {
            x: read_coordinate(x)?,
            y: read_coordinate(y)?,
        }),
        _ => None,
    }
}

/// The point of a value.
fn point_in(value: &Value) -> Result<World, EditFault>
    ensures { Reads (λ p. p) result (point_in (view value.now)) }
{
    read_point(value).ok_or(EditFault::Geometry)
}

/// The elements of a value that is a list.
fn list_in(value: &Value) -> Result<&[Value], EditFault>
    ensures { Reads (λ l. items_view l.now) result (items_in (view value.now)) }
{
    match value.as_array() {
        Some(list) => Ok(list.as_slice()),
        None => Err(EditFault::Geometry),
    }
}

/// A list of `count` elements has at least `least`, and not too many.
fn check_count(count: usize, least: usize) -> Result<(), EditFault>
    ensures ok { OnOk result (is_count least count ≡ true) }
    ensures fault { IfErr result (λ e. (e ≡ EditFault.Geometry) × (is_count least count ≡ false)) }
{
    if count_fits(count, least) {
        Ok(())
    } else {
        Err(EditFault::Geometry)
    }
}

/// At least `least` points.
#[tactic(auto, unfolding(crate::specs::Lists::list_of, crate::specs::Lists::each))]
fn read_points(alloc: Global, list: &[Value], least: usize) -> Result<Vec<World>, EditFault>
    ensures { Gives EditFault.Memory (λ v. v.items) result
        (list_of least point_in (items_view list.now)) }
{
    check_count(list.len(), least)?;
    let mut points = Vec::with_capacity(alloc, list.len())?;
    for value in list {
        let point = point_in(value)?;
        points.push_reserved(point);
    }
    Ok(points)
}

/// A line or a ring of at least `least` points.
#[tactic(auto, unfolding(crate::specs::Lists::points_at))]
fn read_line(alloc: Global, value: &Value, least: usize) -> Result<Vec<World>, EditFault>
    ensures { Gives EditFault.Memory (λ v. v.items) result (points_at least (view value.now)) }
{
    let list = list_in(value)?;
    read_points(alloc, list, least)
}

/// Lines or rings, each of at least `least` points.
#[tactic(auto, unfolding(crate::specs::Lists::list_of, crate::specs::Lists::each))]
fn read_lines(alloc: Global, list: &[Value], least: usize) -> Result<Vec<Vec<World>>, EditFault>
    ensures { Gives EditFault.Memory (λ v. map (λ l. l.items) v.items) result
        (list_of 1 (points_at least) (items_view list.now)) }
{
    check_count(list.len(), 1)?;
    let mut lines = Vec::with_capacity(alloc, list.len())?;
    for value in list {
        let line = read_line(alloc, value, least)?;
        lines.push_reserved(line);
    }
    Ok(lines)
}

/// A polygon: its rings.
#[tactic(auto, unfolding(crate::specs::Lists::lines_at))]
fn read_polygon(alloc: Global, value: &Value) -> Result<Vec<Vec<World>>, EditFault>
    ensures { Gives EditFault.Memory (λ v. map (λ l. l.items) v.items) result
        (lines_at MIN_RING (view value.now)) }
{
    let list = list_in(value)?;
    read_lines(alloc, list, MIN_RING)
}

/// Polygons.
#[tactic(auto, unfolding(crate::specs::Lists::list_of, crate::specs::Lists::each))]
fn read_polygons(alloc: Global, list: &[Value]) -> Result<Vec<Vec<Vec<World>>>, EditFault>
    ensures { Gives EditFault.Memory (λ v. map (λ p. map (λ r. r.items) p.items) v.items) result
        (list_of 1 (lines_at MIN_RING) (items_view list.now)) }
{
    check_count(list.len(), 1)?;
    let mut polygons = Vec::with_capacity(alloc, list.len())?;
    for value in list {
        let polygon = read_polygon(alloc, value)?;
        polygons.push_reserved(polygon);
    }
    Ok(polygons)
}

/// The geometry of a list.
#[tactic(auto, unfolding(crate::specs::Lists::geometry_at))]
pub(crate) fn read_geometry(alloc: Global, shape: Shape<'_>) -> Result<Geometry, EditFault>
    ensures { Gives EditFault.Memory geometry_data result (geometry_at (shape_data shape.entry)) }
{
    match shape {
        Shape::Points(list) => Ok(Geometry::Points(read_points(alloc, list, 1)?)),
        Shape::Lines(list) => Ok(Geometry::Lines(read_lines(alloc, list, MIN_LINE)?)),
        Shape::Polygons(list) => Ok(Geometry::Polygons(read_polygons(alloc, list)?)),
    }
}
