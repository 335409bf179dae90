//! What a tile shows of polygons.

ghost use Rattle.std.specs.Prelude.{◌≡◌, ◌≤◌, ◌<◌, ◌^◌, ◌*ℤ◌, length, true, Some, option_to_list, is_some, All, IfOk, OnOk};
ghost use Rattle.feature_model.specs.Limits.{CountFits, RingsFit};
ghost use Rattle.edit_text.specs.Views.{points_view, lines_view, polygons_view};
ghost use Rattle.geometry_commands.specs.Packed.{Adds};
ghost use Rattle.geometry_commands.specs.Shapes as shapes;
ghost use Rattle.tile_cutter.specs.Cut.{tile_ring, is_ring, cross, twice_area, turned, inner_rings, polygon_cut, polygons_cut, unless_empty};
ghost use Rattle.tile_cutter.specs.Passes.{returns_to_start, wound, shown_ring, where_shown};
ghost use Rattle.tile_cutter.specs.Put.{IsClear, HasPut};
ghost use Rattle.tile_cutter.specs.Range.{IsWithin, IsSmall, IsOfTile, IsDrawable};

use crate::bounds::points_meet_box;
use crate::coordinates::{position, repeats};
use edit_text::{Lines, Points, Polygons};
use feature_model::MAX_ZOOM;
use geometry_commands::{PackedShape, Pt, ShapeKind};
use hilbert_id::TileAt;
use std::alloc::AllocError;

/// What a ring is of a polygon.
#[derive(Clone, Copy, PartialEq, Eq)]
enum Role {
    /// The first ring, which has positive area.
    Outer,
    /// Another ring, which has negative area.
    Inner,
}

/// Whether the last point of a ring is the first again.
fn returns_to_start(ring: &[Pt]) -> bool
    ensures { result ≡ returns_to_start ring.now }
{
    let Some(first) = ring.first() else {
        return false;
    };
    repeats(ring.last().copied(), *first)
}

/// The product of two coordinates.
fn product(a: i64, b: i64) -> i128
    requires a_within { IsWithin 45 a }
    requires b_within { IsWithin 45 b }
    ensures product { result ≡ a *ℤ b }
    ensures within { IsWithin 90 result }
{
    i128::from(a) * i128::from(b)
}

/// The part of a segment in twice the area of a ring.
fn cross(from: Pt, to: Pt) -> i128
    requires from_small { IsSmall from }
    requires to_small { IsSmall to }
    ensures cross { result ≡ cross (from, to) }
    ensures within { IsWithin 91 result }
{
    product(from.x, to.y) - product(to.x, from.y)
}

/// Twice the area of a ring in a tile by the surveyor's formula.
fn twice_area(points: Points<'_>, at: TileAt) -> i128
    requires zoom { at.z ≤ MAX_ZOOM }
    requires few { length (points_view points) < 2 ^ 29 }
    ensures { result ≡ twice_area (tile_ring at.z at.x at.y (points_view points.entry)) }
{
    let mut others = points;
    let Some(first) = others.next() else {
        return 0;
    };
    let start = position(first, at);
    let mut sum = 0;
    let mut from = start;
    for point in others {
        let to = position(point, at);
        sum += cross(from, to);
        from = to;
    }
    sum + cross(from, start)
}

/// Turns a ring the other way round, from the same first point.
fn turn(ring: &mut [Pt])
    requires { 0 < length ring.old }
    ensures { ring.new ≡ turned ring.old }
{
    ring[1..].reverse();
}

/// Puts the points of a ring in a tile into `ring`, each that equals the one before it left out, and a last one that
/// equals the first.
fn gather_ring(ring: &mut Vec<Pt>, points: Points<'_>, at: TileAt) -> Result<(), AllocError>
    requires { at.z ≤ MAX_ZOOM }
    ensures ring { OnOk result (ring.new.items ≡ tile_ring at.z at.x at.y (points_view points.entry)) }
    ensures of_tile { OnOk result (All (IsOfTile at.x at.y) ring.new.items) }
{
    ring.clear();
    let mut before = None;
    for point in points {
        let here = position(point, at);
        if !repeats(before, here) {
            ring.push(here)?;
        }
        before = Some(here);
    }
    if returns_to_start(ring) {
        ring.pop();
    }
    Ok(())
}

/// Turns the ring, of which twice the area is given, the way round that it has to go.
fn wind(ring: &mut [Pt], area: i128, role: Role)
    requires area { area ≡ twice_area ring.old }
    requires ring { is_ring ring.old ≡ true }
    ensures { Some ring.new ≡ wound role ring.old }
{
    let goes_wrong = match role {
        Role::Outer => area < 0,
        Role::Inner => 0 < area,
    };
    if goes_wrong {
        turn(ring);
    }
}

/// Whether a tile shows a ring: where it has three points and an area; an outer ring has to meet the box, too. A ring that
/// is shown is in `ring`, the way round that it has to go.
fn is_ring_shown(
    ring: &mut Vec<Pt>,
    points: Points<'_>,
    at: TileAt,
    role: Role,
) -> Result<bool, AllocError>
    requires zoom { at.z ≤ MAX_ZOOM }
    requires few { length (points_view points) < 2 ^ 29 }
    ensures ring { IfOk result (λ shown. where_shown shown ring.new.items ≡ shown_ring role (tile_ring at.z at.x at.y (points_view points.entry))) }
    ensures drawable { OnOk result
        (All (IsDrawable true at.x at.y) (option_to_list (shown_ring role (tile_ring at.z at.x at.y (points_view points.entry))))) }
{
    if role == Role::Outer && !points_meet_box(points, at) {
        return Ok(false);
    }
    // Fewer than three points have no area.
    let area = twice_area(points, at);
    if area == 0 {
        return Ok(false);
    }
    gather_ring(ring, points, at)?;
    wind(ring, area, role);
    Ok(true)
}

/// Appends what a tile shows of a ring, and says whether it shows it. `ring` is overwritten.
fn put_ring(
    out: &mut PackedShape,
    ring: &mut Vec<Pt>,
    points: Points<'_>,
    at: TileAt,
    role: Role,
) -> Result<bool, AllocError>
    requires zoom { at.z ≤ MAX_ZOOM }
    requires few { length (points_view points) < 2 ^ 29 }
    requires cursor { IsOfTile at.x at.y out.old.at }
    ensures shown { IfOk result (λ b. b ≡ is_some (shown_ring role (tile_ring at.z at.x at.y (points_view points.entry)))) }
    ensures put { OnOk result (Adds true out.old out.new (option_to_list (shown_ring role (tile_ring at.z at.x at.y (points_view points.entry))))) }
    ensures drawable { OnOk result
        (All (IsDrawable true at.x at.y) (option_to_list (shown_ring role (tile_ring at.z at.x at.y (points_view points.entry))))) }
{
    let shown = is_ring_shown(ring, points, at, role)?;
    if shown {
        out.put_line(true, ring)?;
    }
    Ok(shown)
}

/// Appends what a tile shows of inner rings. `ring` is overwritten.
fn put_inner_rings(
    out: &mut PackedShape,
    ring: &mut Vec<Pt>,
    inners: Lines<'_>,
    at: TileAt,
) -> Result<(), AllocError>
    requires zoom { at.z ≤ MAX_ZOOM }
    requires limits { All (CountFits 3) (lines_view inners) }
    requires cursor { IsOfTile at.x at.y out.old.at }
    ensures rings { OnOk result (Adds true out.old out.new (inner_rings at.z at.x at.y (lines_view inners.entry))) }
    ensures drawable { OnOk result (All (IsDrawable true at.x at.y) (inner_rings at.z at.x at.y (lines_view inners.entry))) }
{
    for inner in inners {
        put_ring(out, ring, inner, at, Role::Inner)?;
    }
    Ok(())
}

/// Appends what a tile shows of a polygon: all its rings where the outer one, which is the first, is shown. `ring` is
/// overwritten.
fn put_polygon(
    out: &mut PackedShape,
    ring: &mut Vec<Pt>,
    polygon: Lines<'_>,
    at: TileAt,
) -> Result<(), AllocError>
    requires zoom { at.z ≤ MAX_ZOOM }
    requires limits { RingsFit (lines_view polygon) }
    requires cursor { IsOfTile at.x at.y out.old.at }
    ensures rings { OnOk result (Adds true out.old out.new (polygon_cut at.z at.x at.y (lines_view polygon.entry))) }
    ensures drawable { OnOk result (All (IsDrawable true at.x at.y) (polygon_cut at.z at.x at.y (lines_view polygon.entry))) }
{
    let mut inners = polygon;
    let Some(outer) = inners.next() else {
        return Ok(());
    };
    if put_ring(out, ring, outer, at, Role::Outer)? {
        put_inner_rings(out, ring, inners, at)?;
    }
    Ok(())
}

/// Appends what a tile shows of polygons. `ring` is overwritten.
fn put_all(
    out: &mut PackedShape,
    ring: &mut Vec<Pt>,
    polygons: Polygons<'_>,
    at: TileAt,
) -> Result<(), AllocError>
    requires zoom { at.z ≤ MAX_ZOOM }
    requires limits { All RingsFit (polygons_view polygons) }
    requires cursor { IsOfTile at.x at.y out.old.at }
    ensures rings { OnOk result (Adds true out.old out.new (polygons_cut at.z at.x at.y (polygons_view polygons.entry))) }
    ensures drawable { OnOk result (All (IsDrawable true at.x at.y) (polygons_cut at.z at.x at.y (polygons_view polygons.entry))) }
{
    for polygon in polygons {
        put_polygon(out, ring, polygon, at)?;
    }
    Ok(())
}

/// Writes what a tile shows of polygons. `ring` is overwritten.
pub(crate) fn put_rings(
    out: &mut PackedShape,
    ring: &mut Vec<Pt>,
    polygons: Polygons<'_>,
    at: TileAt,
) -> Result<Option<ShapeKind>, AllocError>
    requires zoom { at.z ≤ MAX_ZOOM }
    requires limits { All RingsFit (polygons_view polygons) }
    requires clear { IsClear out.old }
    ensures { IfOk result
        (λ o. HasPut out.new o (unless_empty shapes.rings (polygons_cut at.z at.x at.y (polygons_view polygons.entry)))) }
{
    put_all(out, ring, polygons, at)?;
    if out.bytes.is_empty() {
        return Ok(None);
    }
    Ok(Some(ShapeKind::Polygons))
}
